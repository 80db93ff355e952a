// Call 3: the caller's holds are dropped.
ghost use Rattle.model.specs.Calls.{exec};
ghost use Rattle.model.specs.Words.{unpack};
ghost use Rattle.rows.specs.Stands.{Stands};
ghost use Rattle.rows.specs.Meets.{Meets};
ghost use Rattle.processes.specs.ProcessCall.{process_call};

use super::is_unlisted;
use holds::drop_of_process;
use model::{Answer, NOT_LISTED};

pub fn exec(words: &mut [u32], process: u16) -> Answer
    requires { Stands words.old }
    ensures { Meets words.old (exec (unpack words.old) (process_call 3 process 0)) result words.new }
{
    if is_unlisted(words, process) {
        return Answer::Refused(NOT_LISTED);
    }
    drop_of_process(words, process);
    Answer::Done(process)
}
