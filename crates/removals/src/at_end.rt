// Calls 12 and 13 behind their walk.
ghost use Rattle.goals.specs.Goals.{goal_of};
ghost use Rattle.reaching.specs.Behind.{Behind};
ghost use Rattle.model.specs.Calls.{rmdir_at};
ghost use Rattle.model.specs.Calls.{unlink_at};
ghost use Rattle.model.specs.Words.{unpack};
ghost use Rattle.rows.specs.Meets.{Meets};

use changes::entry::drop_entry;
use changes::takes::{take_emptying, take_overruling};
use changes::tests::{is_blocked, is_directory_blocked, is_no_directory, leads_to_directory};
use edits::drop_one_entry;
use goals::{Reached, is_absent, node_of};
use model::{ABSENT, Answer, HELD_BY_ANOTHER, NO_HOLD_ROW, NOT_EMPTY, WRONG_KIND};
use plans::{lacks_room, plan_holds};
use search::has_any_entry;

// stays: no plainer: rmdir_at and unlink_at end alike but for the call between that takes the holds; one body for both would take that call as a closure.
pub fn rmdir_at(words: &mut [u32], reached: Reached) -> Answer
    requires { Behind words.old reached }
    ensures { Meets words.old (rmdir_at (unpack words.old) reached.caller.process (goal_of reached.walk)) result words.new }
{
    if is_absent(reached.walk) {
        return Answer::Refused(ABSENT);
    }
    if is_no_directory(words, reached.walk) {
        return Answer::Refused(WRONG_KIND);
    }
    let node = node_of(reached.walk);
    if has_any_entry(words, node) {
        return Answer::Refused(NOT_EMPTY);
    }
    if is_directory_blocked(words, reached) {
        return Answer::Refused(HELD_BY_ANOTHER);
    }
    let plan = plan_holds(words, reached.caller.process, reached.walk);
    if lacks_room(words, &plan) {
        return Answer::Refused(NO_HOLD_ROW);
    }
    take_emptying(words, reached, plan);
    drop_entry(words, reached.walk);
    drop_one_entry(words, node);
    Answer::Done(node)
}

pub fn unlink_at(words: &mut [u32], reached: Reached) -> Answer
    requires { Behind words.old reached }
    ensures { Meets words.old (unlink_at (unpack words.old) reached.caller.process (goal_of reached.walk)) result words.new }
{
    if is_absent(reached.walk) {
        return Answer::Refused(ABSENT);
    }
    if leads_to_directory(words, reached.walk) {
        return Answer::Refused(WRONG_KIND);
    }
    if is_blocked(words, reached) {
        return Answer::Refused(HELD_BY_ANOTHER);
    }
    let plan = plan_holds(words, reached.caller.process, reached.walk);
    if lacks_room(words, &plan) {
        return Answer::Refused(NO_HOLD_ROW);
    }
    let node = node_of(reached.walk);
    take_overruling(words, reached, plan);
    drop_entry(words, reached.walk);
    drop_one_entry(words, node);
    Answer::Done(node)
}
