// The tests that creation and removal share, each by the name that the model has for it.
ghost use Rattle.std.specs.Prelude.{not, ◌||◌, ◌≡◌};
ghost use Rattle.model.specs.Tables.{is_directory};
ghost use Rattle.model.specs.Calls.{absent, blocked, no_free_entry, no_free_node, at_root, directory_blocked};
ghost use Rattle.model.specs.Words.{unpack};
ghost use Rattle.rows.specs.Stands.{Stands};
ghost use Rattle.goals.specs.Goals.{goal_of};
ghost use Rattle.reaching.specs.Behind.{Behind};

use goals::{Reached, Stop, Walk, is_absent, node_of};
use holds::{entry_held, inside_held, is_root};
use rows::{Kind, is_kind};
use search::{free_entry_row, free_node_row};

pub fn is_present(walk: Walk) -> bool
    ensures { result ≡ not (absent (goal_of walk)) }
{
    !is_absent(walk)
}

pub fn leads_to_directory(words: &[u32], walk: Walk) -> bool
    requires { Stands words.now }
    ensures { result ≡ is_directory (unpack words.now).nodes (goal_of walk).node }
{
    is_kind(words, node_of(walk), Kind::Directory)
}

fn stops_at_root(walk: Walk) -> bool
    ensures { result ≡ at_root (goal_of walk) }
{
    !matches!(walk.stop, Stop::Entry { .. })
}

pub fn is_no_directory(words: &[u32], walk: Walk) -> bool
    requires { Stands words.now }
    ensures { result ≡ at_root (goal_of walk) || not (is_directory (unpack words.now).nodes (goal_of walk).node) }
{
    stops_at_root(walk) || !leads_to_directory(words, walk)
}

pub fn is_blocked(words: &[u32], reached: Reached) -> bool
    requires { Behind words.now reached }
    ensures { result ≡ blocked (unpack words.now) reached.caller.process (goal_of reached.walk) }
{
    !is_root(reached.caller) && entry_held(words, reached)
}

pub fn is_directory_blocked(words: &[u32], reached: Reached) -> bool
    requires { Behind words.now reached }
    ensures { result ≡ directory_blocked (unpack words.now) reached.caller.process (goal_of reached.walk) }
{
    !is_root(reached.caller)
        && (entry_held(words, reached) || inside_held(words, reached.caller, node_of(reached.walk)))
}

pub fn lacks_entry_row(words: &[u32]) -> bool
    requires { Stands words.now }
    ensures { result ≡ no_free_entry (unpack words.now) }
{
    free_entry_row(words).is_none()
}

fn lacks_node_row(words: &[u32]) -> bool
    requires { Stands words.now }
    ensures { result ≡ no_free_node (unpack words.now) }
{
    free_node_row(words).is_none()
}

pub fn lacks_rows(words: &[u32]) -> bool
    requires { Stands words.now }
    ensures { result ≡ no_free_entry (unpack words.now) || no_free_node (unpack words.now) }
{
    lacks_entry_row(words) || lacks_node_row(words)
}
