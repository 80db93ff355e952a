// Call 4: the caller's holds are dropped, and the process.
ghost use Rattle.model.specs.Calls.{exit};
ghost use Rattle.model.specs.Words.{unpack};
ghost use Rattle.rows.specs.Stands.{Stands};
ghost use Rattle.rows.specs.Meets.{Meets};
ghost use Rattle.processes.specs.ProcessCall.{process_call};

use super::{drop_process, is_unlisted};
use holds::drop_of_process;
use model::{Answer, NOT_LISTED};

// stays: exec and exit are two calls of document 01, and exit writes once more; one function for both would take that as a flag, which is no plainer.
pub fn exit(words: &mut [u32], process: u16) -> Answer
    requires { Stands words.old }
    ensures { Meets words.old (exit (unpack words.old) (process_call 4 process 0)) result words.new }
{
    if is_unlisted(words, process) {
        return Answer::Refused(NOT_LISTED);
    }
    drop_of_process(words, process);
    drop_process(words, process);
    Answer::Done(process)
}
