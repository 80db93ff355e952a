#![tactic(auto)]
// The paths of an accepted record walked where they stand in it, for the process that calls.
ghost use Rattle.std.specs.Prelude.{◌≡◌, true, false};
ghost use Rattle.model.specs.Sound.{sound};
ghost use Rattle.model.specs.Calls.{reaching};
ghost use Rattle.model.specs.Walk.{walk};
ghost use Rattle.model.specs.Words.{unpack};
ghost use Rattle.records.specs.Reading.{part_of};
ghost use Rattle.index.specs.Indexed.{Indexed};
ghost use Rattle.goals.specs.Goals.{walked};
ghost use Rattle.reaching.specs.Ready.{PathIn, Ready, Walks, WalksTwice};
ghost use Rattle.reaching.specs.Ways.{way_behind, reached, reached_both};

use goals::{Reached, Stop, Walk};
use index::Index;
use model::NOT_LISTED;
use records::{Fields, Part};
use search::find_caller;
use walk::walk;

pub fn walk_part(words: &[u32], index: &Index, bytes: &[u8], part: Part, follow_last: bool) -> Walk
    requires { (sound words.now ≡ true) × ((Indexed words.now index.now) × (PathIn bytes.now part)) }
    ensures { result ≡ walked (walk (unpack words.now).entries (unpack words.now).nodes follow_last (part_of bytes.now part)) }
{
    let start = part.start;
    let end = start + part.length;
    walk(words, index, &bytes[start..end], follow_last)
}

// An accepted record: its fields, and the bytes that its paths stand in.
#[derive(Clone, Copy)]
pub struct Record<'a> {
    pub bytes: &'a [u8],
    pub fields: Fields,
}

// Who calls, and where both paths lead, the new one and the old one, which may be refused.
#[derive(Clone, Copy)]
pub struct ReachedBoth {
    pub new: Reached,
    pub old: Result<Walk, u8>,
}

// A walk that was refused ends the call.
fn way_behind(walk: Walk) -> Result<Walk, u8>
    ensures { result ≡ way_behind walk }
{
    match walk.stop {
        Stop::Refused(number) => Err(number),
        _ => Ok(walk),
    }
}

// How the calls that walk begin: path 1 is walked for a process that is listed.
pub fn reach(words: &[u32], index: &Index, call: Record, follow_last: bool) -> Result<Reached, u8>
    requires { (Ready words.now index.now call.bytes.now call.fields) × (Walks call.fields) }
    ensures { result ≡ reached (unpack words.now).processes call.entry.fields.process (reaching (unpack words.now) call.entry.fields.process follow_last (part_of call.entry.bytes.now call.entry.fields.path1)) }
{
    let caller = find_caller(words, call.fields.process).ok_or(NOT_LISTED)?;
    let path = call.fields.path1;
    let walk = walk_part(words, index, call.bytes, path, follow_last);
    let walk = way_behind(walk)?;
    Ok(Reached { caller, walk })
}

// How the calls with two paths begin: path 1 is walked before path 2, and neither walk follows a last link.
pub fn reach_both(words: &[u32], index: &Index, call: Record) -> Result<ReachedBoth, u8>
    requires { (Ready words.now index.now call.bytes.now call.fields) × ((Walks call.fields) × (WalksTwice call.fields)) }
    ensures { result ≡ reached_both (unpack words.now).processes call.entry.fields.process (reaching (unpack words.now) call.entry.fields.process false (part_of call.entry.bytes.now call.entry.fields.path1)) (walk (unpack words.now).entries (unpack words.now).nodes false (part_of call.entry.bytes.now call.entry.fields.path2)) }
{
    let new = reach(words, index, call, false)?;
    let old_path = call.fields.path2;
    let walk = walk_part(words, index, call.bytes, old_path, false);
    Ok(ReachedBoth {
        new,
        old: way_behind(walk),
    })
}
