#![tactic(auto)]
// Whether lent words are sound tables. Document 01, 'The lent tables'.
ghost use Rattle.std.specs.Prelude.{true, ◌&&◌, ◌≡◌};
ghost use Rattle.model.specs.Sound.{sound};
ghost use Rattle.model.specs.Words.{unpack};
ghost use Rattle.rows.specs.Stands.{Stands};
ghost use Rattle.index.specs.Buckets.{no_links};
ghost use Rattle.index.specs.Indexed.{Indexed};
ghost use Rattle.soundness.specs.Groups.{tree_rules, hold_rules};

use hold_rules::{ends_agree, holds_apart, holds_placed, used_hold_rows};
use index::{Index, index_entries};
use process_index::{ProcessIndex, index_processes};
use shape::is_shaped;
use tree_rules::tree_right;

// Any words, of any number and any bits.
pub fn sound(words: &[u32]) -> bool
    ensures { result ≡ sound words.now }
{
    let mut index = Index::new();
    sound_and_index(words, &mut index)
}

// The same, and where the words are sound the index of their entries, for the lookups of the same call.
// stays: tried as an Option of the index, handed out: it was copied from call to call, and the deepest call took 19,160 bytes of stack for 10,520.
pub fn sound_and_index(words: &[u32], index: &mut Index) -> bool
    requires { index.old ≡ no_links }
    ensures { (result ≡ sound words.now) × (result ≡ true → Indexed words.now index.new) }
{
    if !is_shaped(words) || !index_entries(words, index) {
        return false;
    }
    keeps_rules(words)
}

// The rules that take more than one row, those on entries being distinct aside.
fn keeps_rules(words: &[u32]) -> bool
    requires { Stands words.now }
    ensures { result ≡ (tree_rules (unpack words.now) && hold_rules (unpack words.now)) }
{
    tree_right(words) && keeps_hold_rules(words)
}

// The rules on holds go by an index of the processes.
fn keeps_hold_rules(words: &[u32]) -> bool
    requires { Stands words.now }
    ensures { result ≡ hold_rules (unpack words.now) }
{
    let mut index = ProcessIndex::new();
    if !index_processes(words, &mut index) {
        return false;
    }
    let rows = used_hold_rows(words);
    holds_placed(words, &index, rows) && holds_apart(words, rows) && ends_agree(words, &index, rows)
}
