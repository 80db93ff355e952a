// Call 2: the child is listed with the parent's user, and gets copies of its holds.
ghost use Rattle.std.specs.Prelude.{◌≡◌, ◌≤◌};
ghost use Rattle.model.specs.Calls.{fork};
ghost use Rattle.model.specs.Holds.{no_room, copies};
ghost use Rattle.model.specs.Words.{unpack};
ghost use Rattle.rows.specs.Stands.{Stands};
ghost use Rattle.rows.specs.Meets.{Meets};
ghost use Rattle.processes.specs.ProcessCall.{process_call};

use super::{add_process, lacks_process_row};
use model::{ALREADY_LISTED, Answer, NO_HOLD_ROW, NO_PROCESS_ROW, NOT_LISTED};
use plans::{copy_holds, count_of_process};
use search::{find_caller, free_hold_rows, is_listed};

fn lacks_room_for_copies(words: &[u32], parent: u16, child: u16) -> bool
    requires { Stands words.now }
    ensures { result ≡ no_room (unpack words.now) (copies parent child (unpack words.now).holds) }
{
    let wanted = count_of_process(words, parent);
    free_hold_rows(words) < wanted
}

pub fn fork(words: &mut [u32], process: u16, child: u16) -> Answer
    requires { (Stands words.old) × ((1 ≤ process) × (1 ≤ child)) }
    ensures { Meets words.old (fork (unpack words.old) (process_call 2 process child)) result words.new }
{
    let Some(caller) = find_caller(words, process) else {
        return Answer::Refused(NOT_LISTED);
    };
    if is_listed(words, child) {
        return Answer::Refused(ALREADY_LISTED);
    }
    if lacks_process_row(words) {
        return Answer::Refused(NO_PROCESS_ROW);
    }
    if lacks_room_for_copies(words, process, child) {
        return Answer::Refused(NO_HOLD_ROW);
    }
    copy_holds(words, process, child);
    add_process(words, child, caller.user);
    Answer::Done(child)
}
