// Call 1: the process is listed with its user.
ghost use Rattle.std.specs.Prelude.{◌≤◌};
ghost use Rattle.model.specs.Calls.{enter};
ghost use Rattle.model.specs.Words.{unpack};
ghost use Rattle.rows.specs.Stands.{Stands};
ghost use Rattle.rows.specs.Meets.{Meets};
ghost use Rattle.processes.specs.ProcessCall.{process_call};

use super::{add_process, lacks_process_row};
use model::{ALREADY_LISTED, Answer, NO_PROCESS_ROW};
use search::is_listed;

pub fn enter(words: &mut [u32], process: u16, user: u16) -> Answer
    requires { (Stands words.old) × (1 ≤ process) }
    ensures { Meets words.old (enter (unpack words.old) (process_call 1 process user)) result words.new }
{
    if is_listed(words, process) {
        return Answer::Refused(ALREADY_LISTED);
    }
    if lacks_process_row(words) {
        return Answer::Refused(NO_PROCESS_ROW);
    }
    add_process(words, process, user);
    Answer::Done(process)
}
