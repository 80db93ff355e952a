#![tactic(auto)]
// Calls 5 to 7: check, look and use.
ghost use Rattle.model.specs.Calls.{looking, check, look, use_of};
ghost use Rattle.model.specs.Words.{unpack};
ghost use Rattle.rows.specs.Meets.{Meets};
ghost use Rattle.reaching.specs.Ready.{call_in, Ready, Walks};

pub mod at_end;

use at_end::look_at;
use index::Index;
use model::Answer;
use reaching::{Record, reach};

// stays: no plainer: two facts that a call sets, and no step to run: a closure in their place would hide which tests a call makes.
// Whether a link at the last name is followed, and whether an absence is refused.
#[derive(Clone, Copy)]
struct Manner {
    follow_last: bool,
    must_exist: bool,
}

// stays: no plainer: look_along, make, link, unlink and rmdir begin alike, by a match of two arms; ? is none of theirs, since an Answer is no Result.
fn look_along(words: &mut [u32], index: &Index, call: Record, manner: Manner) -> Answer
    requires { (Ready words.old index.now call.bytes.now call.fields) × (Walks call.fields) }
    ensures { Meets words.old (looking manner.follow_last manner.must_exist (unpack words.old) (call_in call.entry.bytes.now call.entry.fields)) result words.new }
{
    match reach(words, index, call, manner.follow_last) {
        Err(number) => Answer::Refused(number),
        Ok(reached) => look_at(words, reached, manner.must_exist),
    }
}

// stays: what may not change: check, look and use_of each have a clause of their own, and look_along is what they share.
pub fn check(words: &mut [u32], index: &Index, call: Record) -> Answer
    requires { (Ready words.old index.now call.bytes.now call.fields) × (Walks call.fields) }
    ensures { Meets words.old (check (unpack words.old) (call_in call.entry.bytes.now call.entry.fields)) result words.new }
{
    let checking = Manner {
        follow_last: true,
        must_exist: false,
    };
    look_along(words, index, call, checking)
}

pub fn look(words: &mut [u32], index: &Index, call: Record) -> Answer
    requires { (Ready words.old index.now call.bytes.now call.fields) × (Walks call.fields) }
    ensures { Meets words.old (look (unpack words.old) (call_in call.entry.bytes.now call.entry.fields)) result words.new }
{
    let looking = Manner {
        follow_last: false,
        must_exist: false,
    };
    look_along(words, index, call, looking)
}

pub fn use_of(words: &mut [u32], index: &Index, call: Record) -> Answer
    requires { (Ready words.old index.now call.bytes.now call.fields) × (Walks call.fields) }
    ensures { Meets words.old (use_of (unpack words.old) (call_in call.entry.bytes.now call.entry.fields)) result words.new }
{
    let using = Manner {
        follow_last: true,
        must_exist: true,
    };
    look_along(words, index, call, using)
}
