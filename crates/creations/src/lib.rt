#![tactic(auto)]
// Calls 8 to 11: create, mkdir, symlink and link.
ghost use Rattle.std.specs.Prelude.{◌≡◌, ◌≤◌};
ghost use Rattle.model.specs.Calls.{make, create, mkdir, symlink, link};
ghost use Rattle.model.specs.Words.{unpack};
ghost use Rattle.records.specs.Reading.{part_of};
ghost use Rattle.rows.specs.Kinds.{number_of};
ghost use Rattle.rows.specs.Meets.{Meets};
ghost use Rattle.reaching.specs.Ready.{call_in, Ready, Walks, WalksTwice};
ghost use Rattle.model.specs.Paths.{longest_target};
ghost use Rattle.model.specs.Records.{blank, target, row_of};

pub mod at_end;

use at_end::{link_at, make_at};
use index::Index;
use model::Answer;
use reaching::{Record, reach, reach_both};
use rows::Kind;

// A new node of this kind at the end of path 1. Path 2 is its target, and blank for all but a link.
fn make(words: &mut [u32], index: &Index, call: Record, kind: Kind) -> Answer
    requires { (Ready words.old index.now call.bytes.now call.fields) × ((Walks call.fields) × (call.fields.path2.length ≤ longest_target)) }
    ensures { Meets words.old (make (number_of kind) (part_of call.entry.bytes.now call.entry.fields.path2) (unpack words.old) (call_in call.entry.bytes.now call.entry.fields)) result words.new }
{
    let target = call.fields.path2;
    let start = target.start;
    let end = start + target.length;
    match reach(words, index, call, false) {
        Err(number) => Answer::Refused(number),
        Ok(reached) => make_at(words, reached, kind, &call.bytes[start..end]),
    }
}

// stays: what may not change: create, mkdir and symlink each have a clause of their own, and make is what they share.
pub fn create(words: &mut [u32], index: &Index, call: Record) -> Answer
    requires { (Ready words.old index.now call.bytes.now call.fields) × ((Walks call.fields) × ((row_of call.fields.call).path2 ≡ blank)) }
    ensures { Meets words.old (create (unpack words.old) (call_in call.entry.bytes.now call.entry.fields)) result words.new }
{
    make(words, index, call, Kind::File)
}

pub fn mkdir(words: &mut [u32], index: &Index, call: Record) -> Answer
    requires { (Ready words.old index.now call.bytes.now call.fields) × ((Walks call.fields) × ((row_of call.fields.call).path2 ≡ blank)) }
    ensures { Meets words.old (mkdir (unpack words.old) (call_in call.entry.bytes.now call.entry.fields)) result words.new }
{
    make(words, index, call, Kind::Directory)
}

pub fn symlink(words: &mut [u32], index: &Index, call: Record) -> Answer
    requires { (Ready words.old index.now call.bytes.now call.fields) × ((Walks call.fields) × ((row_of call.fields.call).path2 ≡ target)) }
    ensures { Meets words.old (symlink (unpack words.old) (call_in call.entry.bytes.now call.entry.fields)) result words.new }
{
    make(words, index, call, Kind::Link)
}

// The new entry goes to the end of path 1, and leads to the node that path 2 leads to.
pub fn link(words: &mut [u32], index: &Index, call: Record) -> Answer
    requires { (Ready words.old index.now call.bytes.now call.fields) × ((Walks call.fields) × (WalksTwice call.fields)) }
    ensures { Meets words.old (link (unpack words.old) (call_in call.entry.bytes.now call.entry.fields)) result words.new }
{
    match reach_both(words, index, call) {
        Err(number) => Answer::Refused(number),
        Ok(both) => match both.old {
            Err(number) => Answer::Refused(number),
            Ok(old) => link_at(words, both.new, old),
        },
    }
}
