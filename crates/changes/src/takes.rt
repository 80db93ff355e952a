// Holds taken by a call that is granted: the drops come before the additions.
ghost use Rattle.model.specs.Tables.{with_holds};
ghost use Rattle.model.specs.Holds.{wanted, preempted, overruled, emptied, taking};
ghost use Rattle.model.specs.Words.{unpack};
ghost use Rattle.rows.specs.Stands.{Becomes};
ghost use Rattle.goals.specs.Goals.{goal_of};
ghost use Rattle.plans.specs.Plans.{PlanFor};
ghost use Rattle.reaching.specs.Behind.{Behind};

use goals::{Reached, node_of};
use holds::{drop_inside, drop_overruled, drop_preempted};
use plans::{Plan, add_planned};

// stays: no plainer: take_preempting and take_overruling differ in the call that drops; one body for both would take that call as a closure and be longer.
// Check, look and use: root drops the end holds of others.
pub fn take_preempting(words: &mut [u32], reached: Reached, plan: Plan)
    requires { (Behind words.old reached) × (PlanFor (unpack words.old).holds (wanted reached.caller.process (goal_of reached.walk)) plan) }
    ensures { Becomes words.new (with_holds (unpack words.old) (taking (unpack words.old) (wanted reached.caller.process (goal_of reached.walk)) (preempted (unpack words.old) reached.caller.process (goal_of reached.walk)))) }
{
    drop_preempted(words, reached);
    add_planned(words, &plan);
}

// Creation and removal: root drops the holds of others in either role.
pub fn take_overruling(words: &mut [u32], reached: Reached, plan: Plan)
    requires { (Behind words.old reached) × (PlanFor (unpack words.old).holds (wanted reached.caller.process (goal_of reached.walk)) plan) }
    ensures { Becomes words.new (with_holds (unpack words.old) (taking (unpack words.old) (wanted reached.caller.process (goal_of reached.walk)) (overruled (unpack words.old) reached.caller.process (goal_of reached.walk)))) }
{
    drop_overruled(words, reached);
    add_planned(words, &plan);
}

// Rmdir: the holds inside the directory go too.
pub fn take_emptying(words: &mut [u32], directory: Reached, plan: Plan)
    requires { (Behind words.old directory) × (PlanFor (unpack words.old).holds (wanted directory.caller.process (goal_of directory.walk)) plan) }
    ensures { Becomes words.new (with_holds (unpack words.old) (taking (unpack words.old) (wanted directory.caller.process (goal_of directory.walk)) (emptied (unpack words.old) directory.caller.process (goal_of directory.walk)))) }
{
    let node = node_of(directory.walk);
    drop_overruled(words, directory);
    drop_inside(words, node);
    add_planned(words, &plan);
}
