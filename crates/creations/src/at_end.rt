// Call 11 behind both its walks: one more entry leads to the old path's node.
ghost use Rattle.std.specs.Prelude.{◌≤◌, length};
ghost use Rattle.goals.specs.Goals.{goal_of};
ghost use Rattle.reaching.specs.Behind.{Behind};
ghost use Rattle.model.specs.Paths.{longest_target};
ghost use Rattle.edits.specs.Counts.{Countable};
ghost use Rattle.model.specs.Calls.{link_at};
ghost use Rattle.model.specs.Calls.{make_at};
ghost use Rattle.model.specs.Words.{unpack};
ghost use Rattle.rows.specs.Kinds.{number_of};
ghost use Rattle.rows.specs.Meets.{Meets};

use changes::entry::add_entry;
use changes::takes::take_overruling;
use changes::tests::{is_blocked, is_present, lacks_entry_row, lacks_rows, leads_to_directory};
use edits::{add_one_entry, set_node};
use goals::{Reached, Walk, is_absent, node_of};
use model::{ABSENT, Answer, HELD_BY_ANOTHER, NO_HOLD_ROW, NO_NAME_ROW, PRESENT, WRONG_KIND};
use plans::{lacks_room, plan_holds};
use rows::Kind;
use search::free_node_row;

// stays: no plainer: link_at and make_at have tests in common, but each an order of refusals and edits of its own.
pub fn link_at(words: &mut [u32], new: Reached, old: Walk) -> Answer
    requires { (Behind words.old new) × (Countable (unpack words.old).nodes (goal_of old).node) }
    ensures { Meets words.old (link_at (unpack words.old) new.caller.process (goal_of new.walk) (goal_of old)) result words.new }
{
    if is_absent(old) {
        return Answer::Refused(ABSENT);
    }
    if is_present(new.walk) {
        return Answer::Refused(PRESENT);
    }
    if leads_to_directory(words, old) {
        return Answer::Refused(WRONG_KIND);
    }
    if is_blocked(words, new) {
        return Answer::Refused(HELD_BY_ANOTHER);
    }
    if lacks_entry_row(words) {
        return Answer::Refused(NO_NAME_ROW);
    }
    let plan = plan_holds(words, new.caller.process, new.walk);
    if lacks_room(words, &plan) {
        return Answer::Refused(NO_HOLD_ROW);
    }
    let node = node_of(old);
    take_overruling(words, new, plan);
    add_entry(words, new.walk, node);
    add_one_entry(words, node);
    Answer::Done(node)
}

pub fn make_at(words: &mut [u32], reached: Reached, kind: Kind, target: &[u8]) -> Answer
    requires { (Behind words.old reached) × (length target.now ≤ longest_target) }
    ensures { Meets words.old (make_at (number_of kind) target.now (unpack words.old) reached.caller.process (goal_of reached.walk)) result words.new }
{
    if is_present(reached.walk) {
        return Answer::Refused(PRESENT);
    }
    if is_blocked(words, reached) {
        return Answer::Refused(HELD_BY_ANOTHER);
    }
    if lacks_rows(words) {
        return Answer::Refused(NO_NAME_ROW);
    }
    // There is one: the test above found it.
    let Some(row) = free_node_row(words) else {
        return Answer::Refused(NO_NAME_ROW);
    };
    let plan = plan_holds(words, reached.caller.process, reached.walk);
    if lacks_room(words, &plan) {
        return Answer::Refused(NO_HOLD_ROW);
    }
    // stays: no plainer: the row is below 65535 by what the search promises, and u16::try_from gives a Result whose Err never comes.
    let node = (row + 1) as u16;
    take_overruling(words, reached, plan);
    add_entry(words, reached.walk, node);
    set_node(words, row, kind, 1, target);
    Answer::Done(node)
}
