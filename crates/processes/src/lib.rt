#![tactic(auto)]
// Calls 1 to 4, a file each: the tests from the top down, and no word written before the last of them has passed. What they share stands here: processes listed and dropped, and
// the tests of their table.
ghost use Rattle.std.specs.Prelude.{◌≡◌, ◌≤◌, ◌<◌};
ghost use Rattle.model.specs.Tables.{process_rows, no_process, is_process, with_processes};
ghost use Rattle.model.specs.Calls.{unlisted, no_free_process, add_process, drop_process};
ghost use Rattle.model.specs.Words.{unpack};
ghost use Rattle.laws.specs.Clears.{clear_at};
ghost use Rattle.rows.specs.Stands.{Stands, Becomes};

use edits::{clear_process, set_process};
use rows::{PROCESS_ROWS, process_number};
use search::{free_process_row, is_listed};

pub mod enter;
pub mod exec;
pub mod exit;
pub mod fork;

pub fn is_unlisted(words: &[u32], process: u16) -> bool
    requires { Stands words.now }
    ensures { result ≡ unlisted (unpack words.now) process }
{
    !is_listed(words, process)
}

pub fn lacks_process_row(words: &[u32]) -> bool
    requires { Stands words.now }
    ensures { result ≡ no_free_process (unpack words.now) }
{
    free_process_row(words).is_none()
}

pub fn add_process(words: &mut [u32], process: u16, user: u16)
    requires { (Stands words.old) × (1 ≤ process) }
    ensures { Becomes words.new (with_processes (unpack words.old) (add_process process user (unpack words.old).processes)) }
{
    if let Some(row) = free_process_row(words) {
        set_process(words, row, process, user);
    }
}

fn drop_if_process(words: &mut [u32], row: usize, process: u16)
    requires { (Stands words.old) × (row < process_rows) }
    ensures { Becomes words.new (with_processes (unpack words.old) (clear_at (is_process process) no_process row (unpack words.old).processes)) }
{
    if process_number(words, row) == process {
        clear_process(words, row);
    }
}

pub fn drop_process(words: &mut [u32], process: u16)
    requires { Stands words.old }
    ensures { Becomes words.new (with_processes (unpack words.old) (drop_process process (unpack words.old).processes)) }
{
    for row in 0..PROCESS_ROWS {
        drop_if_process(words, row, process);
    }
}
