#![tactic(auto)]
// The rules of sound tables on holds: where each stands and whose it is, no hold twice, and end holds on one place of one user. Pairs are
// found by chains of rows, and the rows behind the last hold are left out.
ghost use Rattle.std.specs.Prelude.{◌&&◌, ◌≡◌, ◌<◌};
ghost use Rattle.model.specs.Tables.{same_place, hold_rows};
ghost use Rattle.model.specs.Sound.{same_hold, holds_in_directories, holds_of_listed, holds_distinct, ends_of_one_user};
ghost use Rattle.model.specs.Words.{unpack};
ghost use Rattle.rows.specs.Stands.{Stands, hold_row};
ghost use Rattle.process_index.specs.Processes.{ProcessesIndexed};
ghost use Rattle.hold_rules.specs.Used.{used_rows};
ghost use Rattle.hold_rules.specs.Placed.{row_placed};
ghost use Rattle.hold_rules.specs.Chains.{hold_buckets, hold_bucket, place_bucket, EndsBefore, last_agrees};

use index::{Links, sum_of};
use process_index::{ProcessIndex, is_in_index, user_in_index};
use rows::{END, HOLD_ROWS, Kind, hold_directory, hold_name, hold_process, hold_role, is_kind};
use search::hold_is_on;

// How many chains there are.
const HOLD_BUCKETS: usize = 509;

type HoldIndex = Links<HOLD_BUCKETS, HOLD_ROWS>;

// One more than the last row with a hold, 0 for none. Holds go to the lowest free row, so that most free ones are behind it.
// stays: a rule of the project: a count of rows, not a row, that goes beside the words, which document 01 lends as a slice: no type of it could name them.
pub fn used_hold_rows(words: &[u32]) -> usize
    requires { Stands words.now }
    ensures { result ≡ used_rows words.now }
{
    for row in (0..HOLD_ROWS).rev() {
        if hold_directory(words, row) != 0 {
            return row + 1;
        }
    }
    0
}

// Whether each hold is in a directory and of a listed process.
pub fn holds_placed(words: &[u32], index: &ProcessIndex, rows: usize) -> bool
    requires { (ProcessesIndexed words.now index.now) × (rows ≡ used_rows words.now) }
    ensures { result ≡ (holds_in_directories (unpack words.now) && holds_of_listed (unpack words.now)) }
{
    (0..rows).all(|row| hold_placed(words, index, row))
}

// Whether no hold stands in two rows. The chains go by process too, so that many processes on one place make no long one.
#[tactic(auto, using(crate::proofs::Used::used_inside))]
pub fn holds_apart(words: &[u32], rows: usize) -> bool
    requires { (Stands words.now) × (rows ≡ used_rows words.now) }
    ensures { result ≡ holds_distinct (unpack words.now) }
{
    let mut holds = HoldIndex::new();
    for row in 0..rows {
        if hold_directory(words, row) != 0 {
            let bucket = bucket_of_hold(words, row);
            let same = |other| is_same(words, other, row);
            if holds.last_in_chain(bucket, same).is_some() {
                return false;
            }
            holds.link_row(bucket, row);
        }
    }
    true
}

// Whether all end holds on one place are of one user. Each is compared with the last before it alone: those before agree.
#[tactic(auto, using(crate::proofs::Used::used_inside))]
pub fn ends_agree(words: &[u32], index: &ProcessIndex, rows: usize) -> bool
    requires { (ProcessesIndexed words.now index.now) × (rows ≡ used_rows words.now) }
    ensures { result ≡ ends_of_one_user (unpack words.now) }
{
    let mut ends = HoldIndex::new();
    for row in 0..rows {
        if hold_role(words, row) == END {
            let bucket = bucket_of_place(words, row);
            if !agrees_with_last(words, index, &ends, bucket, row) {
                return false;
            }
            ends.link_row(bucket, row);
        }
    }
    true
}

#[tactic(auto, unfolding(model::specs::Tables::free_hold, model::specs::Tables::is_directory))]
fn hold_placed(words: &[u32], index: &ProcessIndex, row: usize) -> bool
    requires { (ProcessesIndexed words.now index.now) × (row < hold_rows) }
    ensures { result ≡ row_placed words.now row }
{
    let directory = hold_directory(words, row);
    if directory == 0 {
        return true;
    }
    let process = hold_process(words, row);
    is_kind(words, directory, Kind::Directory) && process != 0 && is_in_index(words, index, process)
}

fn bucket_of_place(words: &[u32], row: usize) -> usize
    requires { (Stands words.now) × (row < hold_rows) }
    ensures { (result ≡ place_bucket (hold_row words.now row).place) × (result < hold_buckets) }
{
    // stays: no plainer: std has no From between u64 and usize, and a TryFrom here has an Err that never comes.
    (sum_of(hold_directory(words, row), hold_name(words, row)) % HOLD_BUCKETS as u64) as usize
}

fn bucket_of_hold(words: &[u32], row: usize) -> usize
    requires { (Stands words.now) × (row < hold_rows) }
    ensures { (result ≡ hold_bucket (hold_row words.now row)) × (result < hold_buckets) }
{
    let sum = sum_of(hold_directory(words, row), hold_name(words, row));
    // stays: no plainer: std has no From between u64 and usize, and a TryFrom here has an Err that never comes.
    ((sum + u64::from(hold_process(words, row)) * 401) % HOLD_BUCKETS as u64) as usize
}

// Whether no end hold on the place is before `row`, or the last is of the same user.
fn agrees_with_last(
    words: &[u32],
    index: &ProcessIndex,
    ends: &HoldIndex,
    bucket: usize,
    row: usize,
) -> bool
    requires { (ProcessesIndexed words.now index.now) × ((row < hold_rows) × (EndsBefore words.now ends.now bucket row)) }
    ensures { result ≡ last_agrees words.now row }
{
    let there = |other| on_same_place(words, other, row);
    let Some(last) = ends.last_in_chain(bucket, there) else {
        return true;
    };
    let user = user_in_index(words, index, hold_process(words, last));
    user == user_in_index(words, index, hold_process(words, row))
}

fn on_same_place(words: &[u32], a: usize, b: usize) -> bool
    requires { (Stands words.now) × ((a < hold_rows) × (b < hold_rows)) }
    ensures { result ≡ same_place (hold_row words.now a).place (hold_row words.now b).place }
{
    hold_is_on(words, a, hold_directory(words, b), hold_name(words, b))
}

#[tactic(auto, unfolding(model::specs::Sound::same_hold))]
fn is_same(words: &[u32], a: usize, b: usize) -> bool
    requires { (Stands words.now) × ((a < hold_rows) × (b < hold_rows)) }
    ensures { result ≡ same_hold (hold_row words.now a) (hold_row words.now b) }
{
    hold_process(words, a) == hold_process(words, b)
        && hold_role(words, a) == hold_role(words, b)
        && on_same_place(words, a, b)
}
