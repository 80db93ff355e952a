#![tactic(auto)]
// Where a walk stopped, as the code has it: what the walk answers and the calls go on with.
ghost use Rattle.std.specs.Prelude.{◌≡◌};
ghost use Rattle.model.specs.Calls.{absent};
ghost use Rattle.goals.specs.Goals.{node_at_end, goal_of};

use rows::{Block, ROOT};
use search::Caller;

// A directory's node and a name in it; blank by default, where no place is.
#[derive(Clone, Copy, Default)]
pub struct Place {
    pub directory: u16,
    pub name: Block,
}

// How a walk ended: refused with 7, 8 or 9; at node 1 by `/`; or at an end entry, with the node there, 0 for an absence.
// stays: what may not change: node_at_end, node_of and is_absent here, and the passes over holds, promise their answers on a refused walk too.
#[derive(Clone, Copy)]
pub enum Stop {
    Refused(u8),
    Root,
    Entry { place: Place, node: u16 },
}

// A walk's end, and its elements: the places of the links that it followed, in the order met. Unused room is blank.
// stays: no plainer: an ArrayVec is not Copy, and calls hand one walk to several functions by value.
#[derive(Clone, Copy)]
pub struct Walk {
    pub stop: Stop,
    pub count: usize,
    pub elements: [Place; 8],
}

// Who calls, and where its path leads.
#[derive(Clone, Copy)]
pub struct Reached {
    pub caller: Caller,
    pub walk: Walk,
}

// The node where a walk stopped, 0 for a refusal.
#[tactic(auto, unfolding(crate::specs::Goals::node_at_end))]
pub fn node_at_end(stop: Stop) -> u16
    ensures { result ≡ node_at_end stop }
{
    match stop {
        Stop::Refused(_) => 0,
        Stop::Root => ROOT,
        Stop::Entry { node, .. } => node,
    }
}

#[tactic(auto, unfolding(crate::specs::Goals::goal_of))]
pub fn node_of(walk: Walk) -> u16
    ensures { result ≡ (goal_of walk).node }
{
    node_at_end(walk.stop)
}

#[tactic(auto, unfolding(model::specs::Calls::absent))]
pub fn is_absent(walk: Walk) -> bool
    ensures { result ≡ absent (goal_of walk) }
{
    node_of(walk) == 0
}
