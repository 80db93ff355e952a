#![tactic(auto)]
// A path walked over the lent tables: names looked up one after the other, links followed on the way. Document 01, 'Walking a path'.
// Walking names calls following a link, which walks the names of its target. Names go by a loop, in which the bytes left fall; a call comes
// with each link alone, and the links left fall, so that the stack is that of nine walks of names at the most. On the way a link is known by
// the row of its entry alone; its place is read where the walk is over.
ghost use Rattle.std.specs.Prelude.{◌≡◌, true, false, [], ◌∷◌, map, ◌<◌, eqb};
ghost use Rattle.model.specs.Paths.{names, slash, valid_names, valid_path};
ghost use Rattle.model.specs.Tables.{entry_rows, a_link, node_at};
ghost use Rattle.model.specs.Words.{unpack};
ghost use Rattle.model.specs.Refusals.{refused};
ghost use Rattle.model.specs.Sound.{sound_rows};
ghost use Rattle.model.specs.Walk.{walk};
ghost use Rattle.rows.specs.Blocks.{Named, name_of};
ghost use Rattle.rows.specs.Stands.{Stands};
ghost use Rattle.index.specs.Indexed.{Indexed};
ghost use Rattle.goals.specs.Goals.{walked};
ghost use Rattle.walk.specs.Trails.{stopped, through, followed, only_directory, walked_from, link_walked, place_in, Row, RowsKept, Ready};

use goals::{Place, Stop, Walk};
use index::{Index, find_entry, node_found};
use model::{NAME_IS_FILE, NAME_MISSING, NINTH_LINK};
use paths::{Part, SLASH, next_name};
use rows::{
    Block, Kind, ROOT, block_from, entry_directory, entry_name, is_kind, node_kind, target_in,
};

const LINKS: usize = 8;

// How far a walk has come: the node that it stands at, and the links followed so far, in the order met, each by the row of its entry.
// stays: no plainer: a trail is a Copy value that each name starts from (`..trail`); an ArrayVec for `count` and `rows` would have to be cloned there.
#[derive(Clone, Copy)]
struct Trail {
    node: u16,
    count: usize,
    rows: [Option<u16>; 8],
}

// Where some names led: the end entry's place, none where there was no name, and how far the walk has come there.
#[derive(Clone, Copy)]
struct Stretch {
    end: Option<Place>,
    trail: Trail,
}

// The walk of a valid path over sound tables, with the index of their entries.
pub fn walk(words: &[u32], index: &Index, path: &[u8], follow_last: bool) -> Walk
    requires indexed { Indexed words.now index.now }
    requires sound { sound_rows (unpack words.now) ≡ true }
    requires valid { valid_path path.now ≡ true }
    ensures { result ≡ walked (walk (unpack words.now).entries (unpack words.now).nodes follow_last path.now) }
{
    let from = Trail {
        node: ROOT,
        count: 0,
        rows: [None; 8],
    };
    match walk_names(words, index, path, follow_last, from) {
        Ok(whole) => Walk {
            stop: stop_of(whole.end, whole.trail.node),
            count: whole.trail.count,
            elements: places_in(words, whole.trail.rows),
        },
        Err(number) => refuse(number),
    }
}

fn stop_of(end: Option<Place>, node: u16) -> Stop
    ensures { result ≡ stopped end node }
{
    match end {
        Some(place) => Stop::Entry { place, node },
        None => Stop::Root,
    }
}

// The names of a path or a target, behind the links followed before.
#[cycle(follow_link_resolve_walk_names)]
fn walk_names(
    words: &[u32],
    index: &Index,
    path: &[u8],
    follow_last: bool,
    from: Trail,
) -> Result<Stretch, u8>
    requires ready { Ready words.now index.now from }
    requires valid { valid_names path.now ≡ true }
    ensures { result ≡ walked_from words.now follow_last from (names path.now) }
{
    // stays: no plainer: block_from and the contract go by where a name stands in the path; split(..).peekable() gives the names alone.
    let mut at = 0;
    let mut trail = from;
    while let Some(Part { start, length }) = next_name(path, at) {
        let name = block_from(path, start, length);
        at = start + length;
        let is_last = at == path.len();
        let follow = is_followed(is_last, follow_last);
        let met = resolve(words, index, name, follow, trail)?;
        if is_last {
            return Ok(met);
        }
        only_directory(words, met.trail.node)?;
        trail = met.trail;
    }
    Ok(Stretch { end: None, trail })
}

// A link is followed where names come behind it, and at the last name where the call does so.
#[tactic(auto, unfolding(crate::specs::Trails::followed))]
fn is_followed(is_last: bool, follow_last: bool) -> bool
    ensures { result ≡ followed is_last follow_last }
{
    !is_last || follow_last
}

// One name: a link there is followed where it may be, and else the walk stops at the entry.
#[cycle(follow_link_resolve_walk_names)]
fn resolve(
    words: &[u32],
    index: &Index,
    name: Block,
    follow: bool,
    trail: Trail,
) -> Result<Stretch, u8>
    requires ready { Ready words.now index.now trail }
    requires named { Named name }
    ensures { result ≡ walked_from words.now follow trail (name_of name ∷ []) }
{
    let directory = trail.node;
    let found = find_entry(words, index, directory, name);
    let node = node_found(words, found);
    match found {
        Some(row) if follow && is_kind(words, node, Kind::Link) => {
            follow_link(words, index, node, row, trail)
        }
        _ => Ok(Stretch {
            end: Some(Place { directory, name }),
            trail: Trail { node, ..trail },
        }),
    }
}

// Walks the target of the link that was found there, its last name too.
#[cycle(follow_link_resolve_walk_names)]
fn follow_link(
    words: &[u32],
    index: &Index,
    node: u16,
    row: usize,
    trail: Trail,
) -> Result<Stretch, u8>
    requires ready { Ready words.now index.now trail }
    requires row { row < entry_rows }
    requires link { (node_at (unpack words.now).nodes node).kind ≡ a_link }
    ensures { result ≡ link_walked words.now trail (Some row) (node_at (unpack words.now).nodes node).target }
{
    if trail.count >= LINKS {
        return Err(NINTH_LINK);
    }
    // stays: no plainer: the node is a link's by contract, so that row_of_node would give a None that never comes.
    let target = target_in(words, usize::from(node) - 1);
    let names = &target.bytes[..target.length];
    let start = start_of(target.bytes[0], trail.node);
    // stays: no plainer: the row is below 512 by contract, and try_from's Err never comes.
    let onward = through_link(trail, row as u16, start);
    walk_names(words, index, names, true, onward)
}

// Where a walk has to go on, something has to be there, and that a directory.
#[tactic(auto, unfolding(crate::specs::Trails::by_kind))]
fn only_directory(words: &[u32], node: u16) -> Result<(), u8>
    requires { Stands words.now }
    ensures { result ≡ only_directory (unpack words.now).nodes node }
{
    match node_kind(words, node) {
        None => Err(NAME_MISSING),
        Some(Kind::Directory) => Ok(()),
        Some(Kind::File) => Err(NAME_IS_FILE),
        Some(Kind::Link) => Err(NAME_IS_FILE),
    }
}

// A target is walked from node 1 where it begins with a slash, else from the link's directory.
fn start_of(first: u8, directory: u16) -> u16
    ensures { result ≡ elim (eqb first slash) [ true ↦ 1 | false ↦ directory ] }
{
    if first == SLASH { ROOT } else { directory }
}

// One more link was followed, and the walk stands where its target starts.
fn through_link(trail: Trail, row: u16, start: u16) -> Trail
    requires { trail.count < 8 }
    ensures { result ≡ through trail (Some row) start }
{
    let mut onward = trail;
    onward.rows[trail.count] = Some(row);
    onward.count += 1;
    onward.node = start;
    onward
}

// The places of these rows; for no row, a blank one.
fn places_in(words: &[u32], rows: [Option<u16>; 8]) -> [Place; 8]
    requires { (Stands words.now) × (RowsKept rows) }
    ensures { result ≡ map (place_in words.now) rows }
{
    rows.map(|found| place_in(words, found))
}

// The place of the entry of a row.
fn place_in(words: &[u32], found: Option<u16>) -> Place
    requires { (Stands words.now) × (Row found) }
    ensures { result ≡ place_in words.now found }
{
    let Some(row) = found else {
        return Place::default();
    };
    let row = usize::from(row);
    Place {
        directory: entry_directory(words, row),
        name: entry_name(words, row),
    }
}

// A walk that is refused has no elements.
pub fn refuse(number: u8) -> Walk
    ensures { result ≡ walked (refused number) }
{
    Walk {
        stop: Stop::Refused(number),
        count: 0,
        elements: [Place::default(); 8],
    }
}
