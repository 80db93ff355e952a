#![tactic(auto)]
// The lent words searched: processes, entries and holds found, free rows found and counted. Each search gives what the model's own gives.
ghost use Rattle.std.specs.Prelude.{◌≡◌, ◌<◌};
ghost use Rattle.std.proofs.Math.Option.{some};
ghost use Rattle.model.specs.Lists.{any, count};
ghost use Rattle.model.specs.Tables.{entry_rows, hold_rows, at, is_process, listed, user_of, free_entry, free_node, free_hold, free_process};
ghost use Rattle.model.specs.Sound.{same_hold};
ghost use Rattle.model.specs.Holds.{on};
ghost use Rattle.model.specs.Calls.{has_entries};
ghost use Rattle.model.specs.Words.{unpack};
ghost use Rattle.rows.specs.Blocks.{Named, place_of};
ghost use Rattle.rows.specs.Rows.{hold_of};
ghost use Rattle.rows.specs.Stands.{Stands, entry_row, hold_row};
ghost use Rattle.search.specs.Callers.{listing_of};
ghost use Rattle.search.specs.Rows.{first_row};

use rows::{
    Block, ENTRY_ROWS, HOLD_ROWS, HoldRow, NODE_ROWS, PROCESS_ROWS, entry_directory, entry_name,
    hold_directory, hold_name, hold_process, hold_role, kind_in, process_number, process_user,
    same_blocks,
};

// The user whom no hold keeps out.
pub const ROOT_USER: u16 = 0;

// What the rules ask of the process that calls: its number and its user.
#[derive(Clone, Copy)]
pub struct Caller {
    pub process: u16,
    pub user: u16,
}

// PROCESSES

fn find_process(words: &[u32], process: u16) -> Option<usize>
    requires { Stands words.now }
    ensures { result ≡ first_row (is_process process) (unpack words.now).processes }
{
    (0..PROCESS_ROWS).find(|row| process_number(words, *row) == process)
}

pub fn is_listed(words: &[u32], process: u16) -> bool
    requires { Stands words.now }
    ensures { result ≡ listed (unpack words.now).processes process }
{
    find_process(words, process).is_some()
}

// The user of a process, 0 where it is not listed.
// stays: what may not change; the clause names user_of, in which the model gives 0 to a process that is not listed.
pub fn user_of_process(words: &[u32], process: u16) -> u16
    requires { Stands words.now }
    ensures { result ≡ user_of (unpack words.now).processes process }
{
    match find_process(words, process) {
        Some(row) => process_user(words, row),
        None => 0,
    }
}

// The process that calls, its row looked up once.
pub fn find_caller(words: &[u32], process: u16) -> Option<Caller>
    requires { Stands words.now }
    ensures { result ≡ listing_of (unpack words.now).processes process }
{
    let row = find_process(words, process)?;
    let user = process_user(words, row);
    Some(Caller { process, user })
}

// ENTRIES

pub fn entry_is_at(words: &[u32], row: usize, directory: u16, name: Block) -> bool
    requires { (Stands words.now) × ((row < entry_rows) × (Named name)) }
    ensures { result ≡ at (place_of directory name) (entry_row words.now row) }
{
    entry_directory(words, row) == directory && same_blocks(entry_name(words, row), name)
}

// Whether any entry stands in the directory.
pub fn has_any_entry(words: &[u32], directory: u16) -> bool
    requires { Stands words.now }
    ensures { result ≡ has_entries (unpack words.now).entries directory }
{
    (0..ENTRY_ROWS).any(|row| entry_directory(words, row) == directory)
}

// HOLDS

// Whether the hold of a row is on the place, in either role.
pub fn hold_is_on(words: &[u32], row: usize, directory: u16, name: Block) -> bool
    requires { (Stands words.now) × ((row < hold_rows) × (Named name)) }
    ensures { result ≡ on (some (place_of directory name)) (hold_row words.now row) }
{
    hold_directory(words, row) == directory && same_blocks(hold_name(words, row), name)
}

// Whether the hold of a row is this one.
// stays: a rule of the project (docs/DECISIONS.md): sameness is by process, role and place alone, so that a hold may get a further field.
fn hold_is(words: &[u32], row: usize, hold: HoldRow) -> bool
    requires { (Stands words.now) × ((row < hold_rows) × (Named hold.name)) }
    ensures { result ≡ same_hold (hold_of hold) (hold_row words.now row) }
{
    hold.process == hold_process(words, row)
        && hold.role == hold_role(words, row)
        && hold_is_on(words, row, hold.directory, hold.name)
}

pub fn has_hold(words: &[u32], hold: HoldRow) -> bool
    requires { (Stands words.now) × (Named hold.name) }
    ensures { result ≡ any (same_hold (hold_of hold)) (unpack words.now).holds }
{
    (0..HOLD_ROWS).any(|row| hold_is(words, row, hold))
}

pub fn free_hold_rows(words: &[u32]) -> usize
    requires { Stands words.now }
    ensures { result ≡ count free_hold (unpack words.now).holds }
{
    let mut free = 0;
    for row in 0..HOLD_ROWS {
        if hold_directory(words, row) == 0 {
            free += 1;
        }
    }
    free
}

// THE LOWEST FREE ROW of each table, if one is free
// stays: no plainer: each is one line over its own field; one generic function would take the field's test and, as a ghost, the table it reads.

pub fn free_entry_row(words: &[u32]) -> Option<usize>
    requires { Stands words.now }
    ensures { result ≡ first_row free_entry (unpack words.now).entries }
{
    (0..ENTRY_ROWS).find(|row| entry_directory(words, *row) == 0)
}

pub fn free_node_row(words: &[u32]) -> Option<usize>
    requires { Stands words.now }
    ensures { result ≡ first_row free_node (unpack words.now).nodes }
{
    (0..NODE_ROWS).find(|row| kind_in(words, *row).is_none())
}

pub fn free_hold_row(words: &[u32]) -> Option<usize>
    requires { Stands words.now }
    ensures { result ≡ first_row free_hold (unpack words.now).holds }
{
    (0..HOLD_ROWS).find(|row| hold_directory(words, *row) == 0)
}

pub fn free_process_row(words: &[u32]) -> Option<usize>
    requires { Stands words.now }
    ensures { result ≡ first_row free_process (unpack words.now).processes }
{
    (0..PROCESS_ROWS).find(|row| process_number(words, *row) == 0)
}
