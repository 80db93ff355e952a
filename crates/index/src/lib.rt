#![tactic(auto)]
// Chains of rows by bucket, and by them the entries found by directory and name without a scan. The index is stale after a write to the
// entries.
ghost use Rattle.std.specs.Prelude.{◌≡◌, true, ◌≢◌, ◌≤◌, ◌<◌, slice_index};
ghost use Rattle.model.specs.Tables.{entry_rows};
ghost use Rattle.model.specs.Sound.{entries_distinct};
ghost use Rattle.model.specs.Words.{unpack};
ghost use Rattle.rows.specs.Blocks.{Named, place_of};
ghost use Rattle.rows.specs.Stands.{Stands};
ghost use Rattle.index.specs.Buckets.{counted, no_links, with_row, Asked, Last};
ghost use Rattle.index.specs.Indexed.{entry_buckets, sum_of, place_bucket, row_found, node_in, Indexed};

use rows::{Block, ENTRY_ROWS, entry_directory, entry_name, entry_node};
use search::entry_is_at;

// How many chains of entries there are.
pub const BUCKETS: usize = 1021;

// The rows of a table in chains: the last row of each bucket, and of each row the last before it in the same bucket.
// stays: fixed memory, a rule of the project: heads and links are two bytes, one more than a row and 0 for none; an Option<u16> takes four.
#[derive(Drop)]
pub struct Links<const SIZE: usize, const ROWS: usize> {
    pub heads: [u16; SIZE],
    pub next: [u16; ROWS],
}

impl<const SIZE: usize, const ROWS: usize> Links<SIZE, ROWS> {
    // No row is in a chain.
    pub fn new() -> Links<SIZE, ROWS>
        ensures { result ≡ no_links }
    {
        Links {
            heads: [0; SIZE],
            next: [0; ROWS],
        }
    }

    // The last row of a bucket's chain at which the test holds.
    pub fn last_in_chain<F: Fn(usize) -> bool>(&self, bucket: usize, holds: F) -> Option<usize>
        requires { (bucket < SIZE) × Asked (F.pre holds) self.now.next (slice_index self.now.heads bucket) }
        ensures { Last (F.post holds) self.now.next (slice_index self.now.heads bucket) (counted result) }
    {
        // stays: tried as successors(..).find(..): what find requires (can, finite, callable) stayed open, since it holds along this chain alone.
        let mut found = usize::from(self.heads[bucket]);
        while let Some(row) = found.checked_sub(1) {
            if holds(row) {
                return Some(row);
            }
            found = usize::from(self.next[row]);
        }
        None
    }

    // Puts a row at the head of its bucket's chain.
    // stays: no plainer: one function for the four loops that build chains would take the row's bucket, its likeness and what may follow as closures.
    pub fn link_row(&mut self, bucket: usize, row: usize)
        requires { (bucket < SIZE) × ((row < ROWS) × (row < 65535)) }
        ensures { self.new ≡ with_row self.old bucket row }
    {
        self.next[row] = self.heads[bucket];
        // stays: no plainer: the row is below 65535 by contract, and u16::try_from gives a Result whose Err never comes.
        self.heads[bucket] = (row + 1) as u16;
    }
}

// The index of the entries.
// stays: it goes beside the words, a lent &[u32] by document 01 (rule of the project), so that its fact is one of both and of no type alone.
pub type Index = Links<BUCKETS, ENTRY_ROWS>;

// Whether the used entries differ in directory and name; and where they do, their index.
pub fn index_entries(words: &[u32], index: &mut Index) -> bool
    requires { (Stands words.now) × (index.old ≡ no_links) }
    ensures { (result ≡ entries_distinct (unpack words.now)) × (result ≡ true → Indexed words.now index.new) }
{
    for row in 0..ENTRY_ROWS {
        let directory = entry_directory(words, row);
        if directory != 0 {
            let name = entry_name(words, row);
            let bucket = bucket_of(directory, name);
            let alike = |other| entry_is_at(words, other, directory, name);
            if index.last_in_chain(bucket, alike).is_some() {
                return false;
            }
            index.link_row(bucket, row);
        }
    }
    true
}

// The row of the entry at a place.
pub fn find_entry(words: &[u32], index: &Index, directory: u16, name: Block) -> Option<usize>
    requires { (Indexed words.now index.now) × ((Named name) × (directory ≢ 0)) }
    ensures { (counted result ≡ row_found words.now (place_of directory name)) × (counted result ≤ entry_rows) }
{
    let bucket = bucket_of(directory, name);
    index.last_in_chain(bucket, |row| entry_is_at(words, row, directory, name))
}

// The node that the entry of a row leads to, told as `find_entry` tells rows; 0 for an absence.
// stays: what may not change: its clause is an equation with `node_in`, and 0 is document 01's node of an absence.
#[tactic(auto, unfolding(crate::specs::Indexed::node_in))]
pub fn node_found(words: &[u32], found: Option<usize>) -> u16
    requires { (Stands words.now) × (counted found ≤ entry_rows) }
    ensures { result ≡ node_in words.now (counted found) }
{
    found.map_or(0, |row| entry_node(words, row))
}

// What the bucket of a place goes by.
#[tactic(auto, unfolding(crate::specs::Indexed::sum_of))]
pub fn sum_of(directory: u16, name: Block) -> u64
    ensures { (result ≡ sum_of directory name) × (result < 17592186044416) }
{
    u64::from(directory) * 577
        + u64::from(name.first) * 211
        + u64::from(name.second) * 863
        + u64::from(name.third) * 389
        + u64::from(name.fourth) * 727
}

#[tactic(auto, unfolding(crate::specs::Indexed::place_bucket))]
fn bucket_of(directory: u16, name: Block) -> usize
    ensures { (result ≡ place_bucket directory name) × (result < entry_buckets) }
{
    // stays: no plainer: std has no From between u64 and usize, and a TryFrom here has an Err that never comes.
    (sum_of(directory, name) % BUCKETS as u64) as usize
}
