#![tactic(auto)]
// Holds over the lent words: who is in the way, and what is dropped. Each is what the model's definition of that name gives.
ghost use Rattle.std.specs.Prelude.{◌&&◌, ◌≡◌, ◌<◌, Bool, List, ℕ, MatchOption, eqb};
ghost use Rattle.std.specs.Borrow.{Bor};
ghost use Rattle.std.proofs.Math.Option.{none, some};
ghost use Rattle.model.specs.Lists.{any};
ghost use Rattle.model.specs.Tables.{Hold, Process, hold_rows, with_holds};
ghost use Rattle.model.specs.Holds.{inside, of_process, end_held, entry_held, inside_held, drop_holds, preempted, overruled};
ghost use Rattle.model.specs.Words.{unpack};
ghost use Rattle.rows.specs.Stands.{Stands, Becomes, hold_row};
ghost use Rattle.search.specs.Callers.{Known};
ghost use Rattle.goals.specs.Goals.{PlaceNamed, ReachedNamed, WalkNamed, goal_of, place_at};
ghost use Rattle.holds.specs.Asks.{Tells, of_another, holds_on, ends_on};

use edits::clear_hold;
use goals::{Place, Reached, Stop, Walk};
use rows::{END, HOLD_ROWS, hold_directory, hold_process, hold_role};
use search::{Caller, ROOT_USER, hold_is_on, user_of_process};

pub fn is_root(caller: Caller) -> bool
    ensures { result ≡ eqb caller.user 0 }
{
    caller.user == ROOT_USER
}

// The place where a walk ended, if at an entry.
fn end_of(walk: Walk) -> Option<Place>
    requires { WalkNamed walk }
    ensures { MatchOption result ((goal_of walk).end ≡ none) (λ place. (PlaceNamed place) × ((goal_of walk).end ≡ some (place_at place))) }
{
    match walk.stop {
        Stop::Entry { place, node: _ } => Some(place),
        _ => None,
    }
}

// THE TESTS OF ONE HOLD. They stay out of the loops that ask them, which then compare little but directories: inlined, they make a loop take twice as long.

// Whether the hold of a row is of another user than this.
#[inline(never)]
fn is_of_another(words: &[u32], row: usize, user: u16) -> bool
    requires { (Stands words.now) × (row < hold_rows) }
    ensures { result ≡ of_another (unpack words.now).processes user (hold_row words.now row) }
{
    hold_directory(words, row) != 0 && user_of_process(words, hold_process(words, row)) != user
}

// Whether another user has the hold of a row on the place, as its end or as an element. The place is asked first: of the rows that are in use, few are on it.
#[inline(never)]
fn is_held(words: &[u32], row: usize, place: Place, user: u16) -> bool
    requires { (Stands words.now) × ((row < hold_rows) × (PlaceNamed place)) }
    ensures { result ≡ holds_on (unpack words.now).processes place user (hold_row words.now row) }
{
    hold_is_on(words, row, place.directory, place.name) && is_of_another(words, row, user)
}

// Whether another user has it as the end.
#[inline(never)]
fn ends_at(words: &[u32], row: usize, place: Place, user: u16) -> bool
    requires { (Stands words.now) × ((row < hold_rows) × (PlaceNamed place)) }
    ensures { result ≡ ends_on (unpack words.now).processes place user (hold_row words.now row) }
{
    hold_role(words, row) == END && is_held(words, row, place, user)
}

// WHO IS IN THE WAY

// Whether any hold inside the directory passes the test, which asks for another user. Most rows stand in another directory, and are passed over by that alone,
// two for each step of the loop: a check of few names waits for this pass more than for all else.
fn others_hold<F: Fn(&[u32], usize) -> bool>(words: &[u32], directory: u16, test: F) -> bool
    requires words_stand { Stands words.now }
    requires callable { (w : Bor (List ℕ)) (row : ℕ) → Stands w.now → row < hold_rows → F.pre test w row }
    ensures { (asks : List Process → Hold → Bool) → Tells (F.post test) asks
        → result ≡ any (λ h. inside directory h && asks (unpack words.now).processes h) (unpack words.now).holds }
{
    for pair in 0..HOLD_ROWS / 2 {
        if hold_directory(words, pair * 2) == directory && test(words, pair * 2) {
            return true;
        }
        if hold_directory(words, pair * 2 + 1) == directory && test(words, pair * 2 + 1) {
            return true;
        }
    }
    false
}

// stays: end_held and entry_held, and drop_preempted and drop_overruled, differ in the test that they pass alone: each is a public function with a clause of its own.
pub fn end_held(words: &[u32], reached: Reached) -> bool
    requires { (Stands words.now) × (ReachedNamed (unpack words.now).processes reached) }
    ensures { result ≡ end_held (unpack words.now) reached.caller.process (goal_of reached.walk) }
{
    match end_of(reached.walk) {
        Some(place) => others_hold(
            words,
            place.directory,
            |words, row| ends_at(words, row, place, reached.caller.user),
        ),
        None => false,
    }
}

pub fn entry_held(words: &[u32], reached: Reached) -> bool
    requires { (Stands words.now) × (ReachedNamed (unpack words.now).processes reached) }
    ensures { result ≡ entry_held (unpack words.now) reached.caller.process (goal_of reached.walk) }
{
    match end_of(reached.walk) {
        Some(place) => others_hold(
            words,
            place.directory,
            |words, row| is_held(words, row, place, reached.caller.user),
        ),
        None => false,
    }
}

pub fn inside_held(words: &[u32], caller: Caller, directory: u16) -> bool
    requires { (Stands words.now) × (Known (unpack words.now).processes caller) }
    ensures { result ≡ inside_held (unpack words.now) caller.process directory }
{
    others_hold(
        words,
        directory,
        |words, row| is_of_another(words, row, caller.user),
    )
}

// WHAT IS DROPPED

// Clears the rows of the holds that pass the test.
fn drop_where<F: Fn(&[u32], usize) -> bool>(words: &mut [u32], test: F)
    requires words_stand { Stands words.old }
    requires callable { (w : Bor (List ℕ)) (row : ℕ) → Stands w.now → row < hold_rows → F.pre test w row }
    ensures { (asks : List Process → Hold → Bool) → Tells (F.post test) asks
        → Becomes words.new (with_holds (unpack words.old) (drop_holds (asks (unpack words.old).processes) (unpack words.old).holds)) }
{
    for row in 0..HOLD_ROWS {
        if test(words, row) {
            clear_hold(words, row);
        }
    }
}

// Exec and exit: the holds of a process.
pub fn drop_of_process(words: &mut [u32], process: u16)
    requires { Stands words.old }
    ensures { Becomes words.new (with_holds (unpack words.old) (drop_holds (of_process process) (unpack words.old).holds)) }
{
    drop_where(words, |words, row| hold_process(words, row) == process);
}

// Rmdir: the holds on entries inside.
pub fn drop_inside(words: &mut [u32], directory: u16)
    requires { Stands words.old }
    ensures { Becomes words.new (with_holds (unpack words.old) (drop_holds (inside directory) (unpack words.old).holds)) }
{
    drop_where(words, |words, row| hold_directory(words, row) == directory);
}

// Root at calls 5 to 7: other users lose their end holds at the end of the walk.
pub fn drop_preempted(words: &mut [u32], reached: Reached)
    requires { (Stands words.old) × (ReachedNamed (unpack words.old).processes reached) }
    ensures { Becomes words.new (with_holds (unpack words.old) (drop_holds (preempted (unpack words.old) reached.caller.process (goal_of reached.walk)) (unpack words.old).holds)) }
{
    if is_root(reached.caller) {
        if let Some(place) = end_of(reached.walk) {
            drop_where(
                words,
                |words, row| ends_at(words, row, place, reached.caller.user),
            );
        }
    }
}

// Root at calls 8 to 13: they lose their holds there in either role.
pub fn drop_overruled(words: &mut [u32], reached: Reached)
    requires { (Stands words.old) × (ReachedNamed (unpack words.old).processes reached) }
    ensures { Becomes words.new (with_holds (unpack words.old) (drop_holds (overruled (unpack words.old) reached.caller.process (goal_of reached.walk)) (unpack words.old).holds)) }
{
    if is_root(reached.caller) {
        if let Some(place) = end_of(reached.walk) {
            drop_where(
                words,
                |words, row| is_held(words, row, place, reached.caller.user),
            );
        }
    }
}
