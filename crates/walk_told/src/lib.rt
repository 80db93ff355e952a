#![tactic(auto)]
// Where a path leads over lent words, without a call: any words and any path are tested first, and the goal of the walk is written as numbers.
ghost use Rattle.std.specs.Prelude.{◌≡◌, ◌+◌, ◌*◌, ◌≤◌, length, replicate};
ghost use Rattle.std.proofs.lemmas.List.Edits.{sets};
ghost use Rattle.model.specs.Lists.{joined};
ghost use Rattle.walk_told.specs.Arrivals.{walking, Arrives, goal_size, place_size, most_elements, elements_at, place_words, end_place, goal_words, arrival_at};

use goals::{Place, Stop, Walk};
use index::Index;
use model::{BAD_PATH, UNSOUND};
use paths::valid_path;
use rows::{Block, ROOT};
use soundness::sound_and_index;
use walk::walk;

// The words of a goal: how many elements there are, the end entry, and room for the elements.
pub const GOAL_WORDS: usize = 46;
// Where the end entry stands in a goal, and where the elements start.
const END_AT: usize = 1;

const ELEMENTS_AT: usize = 6;
// A walk has at most as many elements.
const MOST_ELEMENTS: usize = 8;
// The words of a place: its directory and its name block.
const PLACE_WORDS: usize = 5;

// Walks the path, to the node that it leads to, 0 for an absence; or refused with 1, 3, 7, 8 or 9. The goal is how many elements there are, the
// end entry and the elements, each as its directory and name block; zeros in the room that is left, and for a refusal.
pub fn walk_to(
    words: &[u32],
    path: &[u8],
    follow_last: bool,
    goal: &mut [u32; GOAL_WORDS],
) -> Result<u16, u8>
    ensures { Arrives (walking words.now path.now follow_last) result goal.new }
{
    *goal = [0; GOAL_WORDS];
    let mut index = Index::new();
    if !sound_and_index(words, &mut index) {
        return Err(UNSOUND);
    }
    if !valid_path(path) {
        return Err(BAD_PATH);
    }
    let walked = walk(words, &index, path, follow_last);
    put_goal(goal, walked);
    arrival_at(walked.stop)
}

// Into zeros.
fn put_goal(goal: &mut [u32; GOAL_WORDS], walk: Walk)
    requires { (goal.old ≡ replicate goal_size 0) × ((walk.count ≤ most_elements) × (length walk.elements ≡ most_elements)) }
    ensures { goal.new ≡ goal_words walk }
{
    // stays: no plainer: the count is at most 8 by contract, and u32::try_from gives a Result whose Err never comes.
    goal[0] = walk.count as u32;
    put_place(goal, END_AT, end_place(walk.stop));
    put_elements(goal, walk.elements);
}

fn put_elements(goal: &mut [u32; GOAL_WORDS], elements: [Place; MOST_ELEMENTS])
    ensures { goal.new ≡ sets goal.old elements_at (joined place_words elements) }
{
    for (i, element) in elements.iter().enumerate() {
        put_place(goal, ELEMENTS_AT + i * PLACE_WORDS, *element);
    }
}

fn put_place(goal: &mut [u32; GOAL_WORDS], at: usize, place: Place)
    requires { at + place_size ≤ goal_size }
    ensures { goal.new ≡ sets goal.old at (place_words place) }
{
    let Block {
        first,
        second,
        third,
        fourth,
    } = place.name;
    let words = [u32::from(place.directory), first, second, third, fourth];
    goal[at..at + PLACE_WORDS].copy_from_slice(&words);
}

// The end entry's place, blank where there is none.
fn end_place(stop: Stop) -> Place
    ensures { result ≡ end_place stop }
{
    match stop {
        Stop::Entry { place, .. } => place,
        Stop::Root | Stop::Refused(_) => Place::default(),
    }
}

#[tactic(auto, unfolding(crate::specs::Arrivals::arrival_at))]
fn arrival_at(stop: Stop) -> Result<u16, u8>
    ensures { result ≡ arrival_at stop }
{
    match stop {
        Stop::Refused(number) => Err(number),
        Stop::Root => Ok(ROOT),
        Stop::Entry { node, .. } => Ok(node),
    }
}
