#![tactic(auto)]
// Calls 12 and 13: unlink and rmdir.
ghost use Rattle.model.specs.Calls.{unlink, rmdir};
ghost use Rattle.model.specs.Words.{unpack};
ghost use Rattle.rows.specs.Meets.{Meets};
ghost use Rattle.reaching.specs.Ready.{call_in, Ready, Walks};

pub mod at_end;

use at_end::{rmdir_at, unlink_at};
use index::Index;
use model::Answer;
use reaching::{Record, reach};

// stays: no plainer: unlink and rmdir differ in the call behind the walk; one function for both would take that call as a closure.
pub fn unlink(words: &mut [u32], index: &Index, call: Record) -> Answer
    requires { (Ready words.old index.now call.bytes.now call.fields) × (Walks call.fields) }
    ensures { Meets words.old (unlink (unpack words.old) (call_in call.entry.bytes.now call.entry.fields)) result words.new }
{
    match reach(words, index, call, false) {
        Err(number) => Answer::Refused(number),
        Ok(reached) => unlink_at(words, reached),
    }
}

pub fn rmdir(words: &mut [u32], index: &Index, call: Record) -> Answer
    requires { (Ready words.old index.now call.bytes.now call.fields) × (Walks call.fields) }
    ensures { Meets words.old (rmdir (unpack words.old) (call_in call.entry.bytes.now call.entry.fields)) result words.new }
{
    match reach(words, index, call, false) {
        Err(number) => Answer::Refused(number),
        Ok(reached) => rmdir_at(words, reached),
    }
}
