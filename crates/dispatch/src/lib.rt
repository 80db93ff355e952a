#![tactic(auto)]
// The thirteen calls by number.
ghost use Rattle.model.specs.Calls.{step};
ghost use Rattle.model.specs.Words.{unpack};
ghost use Rattle.rows.specs.Meets.{Meets};
ghost use Rattle.reaching.specs.Ready.{call_in, ReadyWhereKnown};

use creations::{create, link, mkdir, symlink};
use index::Index;
use looks::{check, look, use_of};
use model::{Answer, BAD_FIELD};
use processes::enter::enter;
use processes::exec::exec;
use processes::exit::exit;
use processes::fork::fork;
use reaching::Record;
use removals::{rmdir, unlink};

// stays: a rule of the project: document 01, 'Forms by place in the code', wants a match on the call number, with an arm for each call.
pub fn dispatch(words: &mut [u32], index: &Index, call: Record) -> Answer
    requires { ReadyWhereKnown words.old index.now call.bytes.now call.fields }
    ensures { Meets words.old (step (unpack words.old) (call_in call.entry.bytes.now call.entry.fields)) result words.new }
{
    let fields = call.fields;
    match fields.call {
        1 => enter(words, fields.process, fields.argument),
        2 => fork(words, fields.process, fields.argument),
        3 => exec(words, fields.process),
        4 => exit(words, fields.process),
        5 => check(words, index, call),
        6 => look(words, index, call),
        7 => use_of(words, index, call),
        8 => create(words, index, call),
        9 => mkdir(words, index, call),
        10 => symlink(words, index, call),
        11 => link(words, index, call),
        12 => unlink(words, index, call),
        13 => rmdir(words, index, call),
        0 | 14.. => Answer::Refused(BAD_FIELD),
    }
}
