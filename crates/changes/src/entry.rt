// The entry at the end of a walk, put in and cleared.
ghost use Rattle.std.specs.Prelude.{◌<◌};
ghost use Rattle.model.specs.Lists.{put, clear};
ghost use Rattle.model.specs.Tables.{no_entry, free_entry, at, with_entries, entry_rows};
ghost use Rattle.model.specs.Calls.{add_entry, drop_entry};
ghost use Rattle.model.specs.Words.{unpack};
ghost use Rattle.laws.specs.Clears.{clear_at};
ghost use Rattle.rows.specs.Blocks.{Named, place_of};
ghost use Rattle.rows.specs.Stands.{Stands, Becomes};
ghost use Rattle.goals.specs.Goals.{goal_of, place_at, PlaceNamed, WalkNamed};
ghost use Rattle.plans.specs.Plans.{PlaceUsed, WalkUsed};

use edits::{clear_entry, set_entry};
use goals::{Place, Stop, Walk};
use rows::{Block, ENTRY_ROWS, EntryRow};
use search::{entry_is_at, free_entry_row};

fn drop_if_at(words: &mut [u32], row: usize, directory: u16, name: Block)
    requires { (Stands words.old) × ((row < entry_rows) × (Named name)) }
    ensures { Becomes words.new (with_entries (unpack words.old) (clear_at (at (place_of directory name)) no_entry row (unpack words.old).entries)) }
{
    if entry_is_at(words, row, directory, name) {
        clear_entry(words, row);
    }
}

fn drop_at(words: &mut [u32], directory: u16, name: Block)
    requires { (Stands words.old) × (Named name) }
    ensures { Becomes words.new (with_entries (unpack words.old) (clear (at (place_of directory name)) no_entry (unpack words.old).entries)) }
{
    for row in 0..ENTRY_ROWS {
        drop_if_at(words, row, directory, name);
    }
}

pub fn drop_entry(words: &mut [u32], walk: Walk)
    requires { (Stands words.old) × (WalkNamed walk) }
    ensures { Becomes words.new (with_entries (unpack words.old) (drop_entry (goal_of walk).end (unpack words.old).entries)) }
{
    if let Stop::Entry { place, .. } = walk.stop {
        drop_at(words, place.directory, place.name);
    }
}

fn put_at(words: &mut [u32], place: Place, node: u16)
    requires { (Stands words.old) × ((PlaceNamed place) × (PlaceUsed place)) }
    ensures { Becomes words.new (with_entries (unpack words.old) (put free_entry (record { place = place_at place; node = node }) (unpack words.old).entries)) }
{
    if let Some(row) = free_entry_row(words) {
        set_entry(
            words,
            row,
            EntryRow {
                directory: place.directory,
                node,
                name: place.name,
            },
        );
    }
}

pub fn add_entry(words: &mut [u32], walk: Walk, node: u16)
    requires { (Stands words.old) × ((WalkNamed walk) × (WalkUsed walk)) }
    ensures { Becomes words.new (with_entries (unpack words.old) (add_entry (goal_of walk).end node (unpack words.old).entries)) }
{
    if let Stop::Entry { place, .. } = walk.stop {
        put_at(words, place, node);
    }
}
