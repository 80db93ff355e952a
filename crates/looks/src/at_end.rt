// Calls 5 to 7 behind their walk: check, look and use.
ghost use Rattle.std.specs.Prelude.{not, ◌&&◌, ◌≡◌};
ghost use Rattle.model.specs.Calls.{absent, look_at};
ghost use Rattle.model.specs.Holds.{root, end_held};
ghost use Rattle.model.specs.Words.{unpack};
ghost use Rattle.goals.specs.Goals.{goal_of};
ghost use Rattle.reaching.specs.Behind.{Behind};
ghost use Rattle.rows.specs.Meets.{Meets};

use changes::takes::take_preempting;
use goals::{Reached, Walk, is_absent, node_of};
use holds::{end_held, is_root};
use model::{ABSENT, Answer, NO_HOLD_ROW};
use plans::{lacks_room, plan_holds};

fn is_missing(must_exist: bool, walk: Walk) -> bool
    ensures { result ≡ must_exist && absent (goal_of walk) }
{
    must_exist && is_absent(walk)
}

// Another user has the end hold, and the caller is not root.
fn is_seen(words: &[u32], reached: Reached) -> bool
    requires { Behind words.now reached }
    ensures { result ≡ end_held (unpack words.now) reached.caller.process (goal_of reached.walk) && not (root (unpack words.now) reached.caller.process) }
{
    !is_root(reached.caller) && end_held(words, reached)
}

pub fn look_at(words: &mut [u32], reached: Reached, must_exist: bool) -> Answer
    requires { Behind words.old reached }
    ensures { Meets words.old (look_at must_exist (unpack words.old) reached.caller.process (goal_of reached.walk)) result words.new }
{
    if is_missing(must_exist, reached.walk) {
        return Answer::Refused(ABSENT);
    }
    let node = node_of(reached.walk);
    if is_seen(words, reached) {
        return Answer::Seen(node);
    }
    let plan = plan_holds(words, reached.caller.process, reached.walk);
    if lacks_room(words, &plan) {
        return Answer::Refused(NO_HOLD_ROW);
    }
    take_preempting(words, reached, plan);
    Answer::Held(node)
}
