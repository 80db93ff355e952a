#![tactic(auto)]
// Rows written into the lent words: each table is a part of the slice, and only that part goes to the function that writes.
ghost use Rattle.std.specs.Prelude.{◌≡◌, ◌+◌, ◌*◌, ◌/◌, ◌≤◌, ◌<◌, length, get_or, set, replicate};
ghost use Rattle.std.proofs.lemmas.List.Edits.{sets};
ghost use Rattle.model.specs.Lists.{filled};
ghost use Rattle.model.specs.Paths.{longest_target};
ghost use Rattle.model.specs.Tables.{entry_rows, node_rows, hold_rows, process_rows, no_entry, no_node, no_hold, no_process, node_at};
ghost use Rattle.model.specs.Tables.{with_entries, with_nodes, with_holds, with_processes};
ghost use Rattle.model.specs.Calls.{set_node, one_more, one_less};
ghost use Rattle.model.specs.Words.{entry_words, node_words, hold_words, all_node_words, all_hold_words, all_process_words, words, unpack};
ghost use Rattle.rows.specs.Blocks.{target_words};
ghost use Rattle.rows.specs.Kinds.{number_of};
ghost use Rattle.rows.specs.Rows.{entry_of, hold_of, named_as_words, hold_as_words, GoodEntry, GoodHold};
ghost use Rattle.rows.specs.Stands.{Stands, Becomes, node_row};
ghost use Rattle.edits.specs.Nodes.{node_as_words, with_count};

use rows::{
    Block, COUNT_UNIT, ENTRY_WIDTH, EntryRow, HOLD_WIDTH, HOLDS_START, HoldRow, Kind, LENGTH_UNIT,
    NODE_WIDTH, NODES_START, PROCESSES_START, ROLE_PLACE, TARGET_WORDS, TOP_UNIT, UPPER_UNIT,
    WORD_COUNT, count_in, four_bytes, row_of_node,
};

fn pair_of(upper: u16, lower: u16) -> u32
    ensures { result ≡ upper * 65536 + lower }
{
    u32::from(upper) * UPPER_UNIT + u32::from(lower)
}

// Zeros from `at` on.
fn put_zeros(part: &mut [u32], at: usize, count: usize)
    requires { at + count ≤ length part.old }
    ensures { part.new ≡ sets part.old at (replicate count 0) }
{
    part[at..at + count].fill(0);
}

// What an entry and a hold begin with: two numbers in one word, and a name.
fn put_named(part: &mut [u32], at: usize, upper: u16, lower: u16, name: Block)
    requires { at + entry_words ≤ length part.old }
    ensures { part.new ≡ sets part.old at (named_as_words upper lower name) }
{
    part[at..at + ENTRY_WIDTH].copy_from_slice(&[
        pair_of(upper, lower),
        name.first,
        name.second,
        name.third,
        name.fourth,
    ]);
}

// ENTRIES

// stays: no plainer: what is set or cleared in each table has its own clause on that table, and each body is one call that lends its part.
pub fn set_entry(words: &mut [u32], row: usize, entry: EntryRow)
    requires { (Stands words.old) × ((row < entry_rows) × (GoodEntry entry)) }
    ensures { Becomes words.new (with_entries (unpack words.old) (set (unpack words.old).entries row (entry_of entry))) }
{
    let name = entry.name;
    put_named(
        &mut words[0..NODES_START],
        row * ENTRY_WIDTH,
        entry.directory,
        entry.node,
        name,
    );
}

pub fn clear_entry(words: &mut [u32], row: usize)
    requires { (Stands words.old) × (row < entry_rows) }
    ensures { Becomes words.new (with_entries (unpack words.old) (set (unpack words.old).entries row no_entry)) }
{
    put_zeros(&mut words[0..NODES_START], row * ENTRY_WIDTH, ENTRY_WIDTH);
}

// NODES, by row

// stays: no plainer: `length as u32` is shown exact by the proof, and `try_from` would bring an Err that nothing can reach.
fn node_head(kind: Kind, length: usize, count: u16) -> u32
    requires { (length < 128) × (count < 1024) }
    ensures { result ≡ number_of kind * 1073741824 + length * 8388608 + count * 8192 }
{
    u32::from(u8::from(kind)) * TOP_UNIT
        + length as u32 * LENGTH_UNIT
        + u32::from(count) * COUNT_UNIT
}

// The target's bytes, four to a word, and zeros behind them.
fn put_target(nodes: &mut [u32], at: usize, target: &[u8])
    requires { (at + target_words ≤ length nodes.old) × (length target.now ≤ longest_target) }
    ensures { nodes.new ≡ sets nodes.old at (words (filled longest_target target.now)) }
{
    for k in 0..TARGET_WORDS {
        nodes[at + k] = four_bytes(target, 0, target.len(), k * 4);
    }
}

fn put_node(nodes: &mut [u32], row: usize, kind: Kind, count: u16, target: &[u8])
    requires { (length nodes.old ≡ all_node_words) × ((row < node_rows) × ((count < 1024) × (length target.now ≤ longest_target))) }
    ensures { nodes.new ≡ sets nodes.old (row * node_words) (node_as_words (number_of kind) count target.now) }
{
    let at = row * NODE_WIDTH;
    nodes[at] = node_head(kind, target.len(), count);
    put_target(nodes, at + 1, target);
}

pub fn set_node(words: &mut [u32], row: usize, kind: Kind, count: u16, target: &[u8])
    requires { (Stands words.old) × ((row < node_rows) × ((count < 1024) × (length target.now ≤ longest_target))) }
    ensures { Becomes words.new (with_nodes (unpack words.old) (set (unpack words.old).nodes row (record { kind = number_of kind; count = count; target = target.now }))) }
{
    put_node(
        &mut words[NODES_START..HOLDS_START],
        row,
        kind,
        count,
        target,
    );
}

fn clear_node(words: &mut [u32], row: usize)
    requires { (Stands words.old) × (row < node_rows) }
    ensures { Becomes words.new (with_nodes (unpack words.old) (set (unpack words.old).nodes row no_node)) }
{
    put_zeros(
        &mut words[NODES_START..HOLDS_START],
        row * NODE_WIDTH,
        NODE_WIDTH,
    );
}

// HOLDS

fn role_word(role: u8) -> u32
    requires { role < 4 }
    ensures { result ≡ role * 1073741824 }
{
    u32::from(role) * TOP_UNIT
}

fn put_hold(holds: &mut [u32], row: usize, hold: HoldRow)
    requires { (length holds.old ≡ all_hold_words) × ((row < hold_rows) × (hold.role < 4)) }
    ensures { holds.new ≡ sets holds.old (row * hold_words) (hold_as_words hold) }
{
    let at = row * HOLD_WIDTH;
    let name = hold.name;
    put_named(holds, at, hold.directory, hold.process, name);
    holds[at + ROLE_PLACE] = role_word(hold.role);
}

pub fn set_hold(words: &mut [u32], row: usize, hold: HoldRow)
    requires { (Stands words.old) × ((row < hold_rows) × ((hold.role < 4) × (GoodHold hold))) }
    ensures { Becomes words.new (with_holds (unpack words.old) (set (unpack words.old).holds row (hold_of hold))) }
{
    put_hold(&mut words[HOLDS_START..PROCESSES_START], row, hold);
}

pub fn clear_hold(words: &mut [u32], row: usize)
    requires { (Stands words.old) × (row < hold_rows) }
    ensures { Becomes words.new (with_holds (unpack words.old) (set (unpack words.old).holds row no_hold)) }
{
    put_zeros(
        &mut words[HOLDS_START..PROCESSES_START],
        row * HOLD_WIDTH,
        HOLD_WIDTH,
    );
}

// PROCESSES

fn put_process(processes: &mut [u32], row: usize, process: u16, user: u16)
    requires { (length processes.old ≡ all_process_words) × (row < process_rows) }
    ensures { processes.new ≡ set processes.old row (process * 65536 + user) }
{
    processes[row] = pair_of(process, user);
}

pub fn set_process(words: &mut [u32], row: usize, process: u16, user: u16)
    requires { (Stands words.old) × ((row < process_rows) × (1 ≤ process)) }
    ensures { Becomes words.new (with_processes (unpack words.old) (set (unpack words.old).processes row (record { number = process; user = user }))) }
{
    put_process(&mut words[PROCESSES_START..WORD_COUNT], row, process, user);
}

pub fn clear_process(words: &mut [u32], row: usize)
    requires { (Stands words.old) × (row < process_rows) }
    ensures { Becomes words.new (with_processes (unpack words.old) (set (unpack words.old).processes row no_process)) }
{
    put_process(&mut words[PROCESSES_START..WORD_COUNT], row, 0, 0);
}

// HOW MANY ENTRIES LEAD TO A NODE

// The same first word but for its count.
fn recounted(head: u32, count: u16) -> u32
    requires { count < 1024 }
    ensures { result ≡ head / 8388608 * 8388608 + count * 8192 }
{
    head / LENGTH_UNIT * LENGTH_UNIT + u32::from(count) * COUNT_UNIT
}

fn put_count(nodes: &mut [u32], row: usize, count: u16)
    requires { (length nodes.old ≡ all_node_words) × ((row < node_rows) × (count < 1024)) }
    ensures { nodes.new ≡ set nodes.old (row * node_words) (get_or nodes.old (row * node_words) 0 / 8388608 * 8388608 + count * 8192) }
{
    let at = row * NODE_WIDTH;
    nodes[at] = recounted(nodes[at], count);
}

fn set_count(words: &mut [u32], row: usize, count: u16)
    requires { (Stands words.old) × ((row < node_rows) × ((1 ≤ (node_row words.old row).kind) × (count < 1024))) }
    ensures { Becomes words.new (with_nodes (unpack words.old) (set (unpack words.old).nodes row (with_count count (node_row words.old row)))) }
{
    put_count(&mut words[NODES_START..HOLDS_START], row, count);
}

// One entry more leads to the node.
pub fn add_one_entry(words: &mut [u32], node: u16)
    requires { (Stands words.old) × ((1 ≤ (node_at (unpack words.old).nodes node).kind) × ((node_at (unpack words.old).nodes node).count < 1023)) }
    ensures { Becomes words.new (with_nodes (unpack words.old) (set_node node (one_more (node_at (unpack words.old).nodes node)) (unpack words.old).nodes)) }
{
    if let Some(row) = row_of_node(node) {
        let count = count_in(words, row);
        set_count(words, row, count + 1);
    }
}

// One entry less leads to the node; it is cleared where that was the last.
pub fn drop_one_entry(words: &mut [u32], node: u16)
    requires { Stands words.old }
    ensures { Becomes words.new (with_nodes (unpack words.old) (set_node node (one_less (node_at (unpack words.old).nodes node)) (unpack words.old).nodes)) }
{
    if let Some(row) = row_of_node(node) {
        match count_in(words, row) {
            0 => {}
            1 => clear_node(words, row),
            count => set_count(words, row, count - 1),
        }
    }
}
