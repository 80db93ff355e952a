#![tactic(auto)]
// The processes found by number without a scan, by chains of rows. The index is stale after a write to the processes.
ghost use Rattle.std.specs.Prelude.{◌≡◌, true, ◌<◌, ◌%◌};
ghost use Rattle.model.specs.Sound.{processes_distinct};
ghost use Rattle.model.specs.Tables.{process_rows, listed, user_of};
ghost use Rattle.model.specs.Words.{unpack};
ghost use Rattle.rows.specs.Stands.{Stands};
ghost use Rattle.index.specs.Buckets.{counted, no_links, last_below};
ghost use Rattle.process_index.specs.Processes.{process_buckets, row_of, ProcessesIndexed};

use index::Links;
use rows::{PROCESS_ROWS, process_number, process_user};

// How many chains there are.
pub const PROCESS_BUCKETS: usize = 127;

// The index of the processes.
// stays: it goes beside the words, a lent &[u32] by document 01 (rule of the project), so that its fact is one of both and of no type alone.
pub type ProcessIndex = Links<PROCESS_BUCKETS, PROCESS_ROWS>;

// Whether the listed processes differ in number; and where they do, their index.
pub fn index_processes(words: &[u32], index: &mut ProcessIndex) -> bool
    requires { (Stands words.now) × (index.old ≡ no_links) }
    ensures { (result ≡ processes_distinct (unpack words.now)) × (result ≡ true → ProcessesIndexed words.now index.new) }
{
    for row in 0..PROCESS_ROWS {
        let number = process_number(words, row);
        if number != 0 {
            let bucket = bucket_of(number);
            let alike = |other| process_number(words, other) == number;
            if index.last_in_chain(bucket, alike).is_some() {
                return false;
            }
            index.link_row(bucket, row);
        }
    }
    true
}

pub fn is_in_index(words: &[u32], index: &ProcessIndex, process: u16) -> bool
    requires { (ProcessesIndexed words.now index.now) × (process ≡ 0 → ⊥) }
    ensures { result ≡ listed (unpack words.now).processes process }
{
    find_in_index(words, index, process).is_some()
}

// The user of a process, 0 where it is not listed.
// stays: what may not change: its clause is an equation with the model's `user_of`, which is 0 there.
pub fn user_in_index(words: &[u32], index: &ProcessIndex, process: u16) -> u16
    requires { ProcessesIndexed words.now index.now }
    ensures { result ≡ user_of (unpack words.now).processes process }
{
    if process == 0 {
        return 0;
    }
    match find_in_index(words, index, process) {
        Some(row) => process_user(words, row),
        None => 0,
    }
}

// The row of a process.
fn find_in_index(words: &[u32], index: &ProcessIndex, process: u16) -> Option<usize>
    requires { (ProcessesIndexed words.now index.now) × (process ≡ 0 → ⊥) }
    ensures { counted result ≡ last_below (row_of words.now process) process_rows }
{
    let bucket = bucket_of(process);
    index.last_in_chain(bucket, |row| process_number(words, row) == process)
}

fn bucket_of(process: u16) -> usize
    ensures { (result ≡ process % process_buckets) × (result < process_buckets) }
{
    usize::from(process) % PROCESS_BUCKETS
}
