#![tactic(auto)]
// The rules of sound tables that take more than one row: entries and the nodes that they lead to.
ghost use Rattle.std.specs.Prelude.{◌&&◌, ◌≡◌, ◌+◌, ◌<◌, replicate};
ghost use Rattle.model.specs.Tables.{entry_rows, node_rows};
ghost use Rattle.model.specs.Sound.{entries_in_directories, entries_lead_to_nodes, counts_right, first_node_right, counts_fit};
ghost use Rattle.model.specs.Words.{unpack};
ghost use Rattle.rows.specs.Stands.{Stands, entry_row, node_row};
ghost use Rattle.tree_rules.specs.Tallied.{tree_rules, leads, counted_right, counted_fit, counters, Tallied};

use rows::{
    ENTRY_ROWS, Kind, NODE_ROWS, ROOT, count_in, entry_directory, entry_node, is_kind, kind_in,
    node_count, node_kind, wide,
};

// A count for each node by its number, and one that stays 0 for none.
const COUNTS: usize = NODE_ROWS + 1;

// Whether each entry is in a directory and leads to a node, and the counts of the nodes are right.
pub fn tree_right(words: &[u32]) -> bool
    requires { Stands words.now }
    ensures { result ≡ tree_rules (unpack words.now) }
{
    if !entries_lead(words) || !first_right(words) {
        return false;
    }
    let mut counts = [0u16; COUNTS];
    tally(words, &mut counts);
    all_counts_right(words, &counts) && all_counts_fit(words)
}

fn entries_lead(words: &[u32]) -> bool
    requires { Stands words.now }
    ensures { result ≡ (entries_in_directories (unpack words.now) && entries_lead_to_nodes (unpack words.now)) }
{
    (0..ENTRY_ROWS).all(|row| entry_leads(words, row))
}

fn entry_leads(words: &[u32], row: usize) -> bool
    requires { (Stands words.now) × (row < entry_rows) }
    ensures { result ≡ leads (unpack words.now).nodes (entry_row words.now row) }
{
    let directory = entry_directory(words, row);
    directory == 0
        || (is_kind(words, directory, Kind::Directory)
            && node_kind(words, entry_node(words, row)).is_some())
}

fn first_right(words: &[u32]) -> bool
    requires { Stands words.now }
    ensures { result ≡ first_node_right (unpack words.now) }
{
    is_kind(words, ROOT, Kind::Directory) && node_count(words, ROOT) == 0
}

fn tally(words: &[u32], counts: &mut [u16; COUNTS])
    requires { (Stands words.now) × (counts.old ≡ replicate counters 0) }
    ensures { Tallied words.now counts.new }
{
    for row in 0..ENTRY_ROWS {
        let node = wide(entry_node(words, row));
        // the many free rows lead to no node, and would all wait for the one count
        if node != 0 && node < COUNTS {
            counts[node] += 1;
        }
    }
}

fn all_counts_right(words: &[u32], counts: &[u16; COUNTS]) -> bool
    requires { (Stands words.now) × (Tallied words.now counts.now) }
    ensures { result ≡ counts_right (unpack words.now) }
{
    (0..NODE_ROWS).all(|row| count_right(words, counts, row))
}

fn count_right(words: &[u32], counts: &[u16; COUNTS], row: usize) -> bool
    requires { (Stands words.now) × ((Tallied words.now counts.now) × (row < node_rows)) }
    ensures { result ≡ counted_right (unpack words.now).entries (1 + row) (node_row words.now row) }
{
    kind_in(words, row).is_none() || count_in(words, row) == counts[row + 1]
}

fn all_counts_fit(words: &[u32]) -> bool
    requires { Stands words.now }
    ensures { result ≡ counts_fit (unpack words.now) }
{
    (0..NODE_ROWS).all(|row| count_fits(words, row))
}

fn count_fits(words: &[u32], row: usize) -> bool
    requires { (Stands words.now) × (row < node_rows) }
    ensures { result ≡ counted_fit (1 + row) (node_row words.now row) }
{
    if row == 0 {
        return true;
    }
    match kind_in(words, row) {
        None => true,
        Some(Kind::Directory) => count_in(words, row) == 1,
        Some(Kind::File) => count_in(words, row) >= 1,
        Some(Kind::Link) => count_in(words, row) >= 1,
    }
}
