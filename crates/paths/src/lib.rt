#![tactic(auto)]
// Paths as bytes: which are valid, and where the next name stands. Document 01, 'Paths'.
// The test and the split are apart, so that a change of one leaves the other alone.
ghost use Rattle.std.specs.Prelude.{◌≡◌, ◌+◌, ◌≤◌, length, drop};
ghost use Rattle.model.specs.Lists.{all};
ghost use Rattle.model.specs.Paths.{parts, names, valid_name, valid_path, valid_target};
ghost use Rattle.paths.specs.Split.{first_part, dots, right_length, next};

pub const SLASH: u8 = b'/';

const DOT: u8 = b'.';

pub const LONGEST_NAME: usize = 14;

pub const LONGEST_PATH: usize = 255;

pub const LONGEST_TARGET: usize = 64;

// Where a part of some bytes starts, and how many it has.
#[derive(Clone, Copy)]
pub struct Part {
    pub start: usize,
    pub length: usize,
}

// The first name from a position on, if one is left. At a slash it is the name behind it, so that a walk goes on from the end of the last name.
pub fn next_name(path: &[u8], at: usize) -> Option<Part>
    ensures { result ≡ next path.now at }
{
    if path.len() <= at {
        return None;
    }
    let start = if path[at] == SLASH { at + 1 } else { at };
    if start == path.len() {
        return None;
    }
    Some(Part {
        start,
        length: name_end(path, start) - start,
    })
}

pub fn valid_path(path: &[u8]) -> bool
    ensures { result ≡ valid_path path.now }
{
    path.len() <= LONGEST_PATH && path.starts_with([SLASH].as_slice()) && valid_names(path)
}

pub fn valid_target(target: &[u8]) -> bool
    ensures { result ≡ valid_target target.now }
{
    (1..=LONGEST_TARGET).contains(&target.len()) && valid_names(target)
}

pub fn valid_name(name: &[u8]) -> bool
    ensures { result ≡ valid_name name.now }
{
    name.iter().all(|byte| *byte != 0 && *byte != SLASH) && valid_length(name)
}

// The length of a name, and the dots that no name may be.
fn valid_length(name: &[u8]) -> bool
    ensures { result ≡ right_length name.now }
{
    (1..=LONGEST_NAME).contains(&name.len()) && !is_dots(name)
}

// Each name between the slashes is valid.
fn valid_names(path: &[u8]) -> bool
    ensures { result ≡ all valid_name (names path.now) }
{
    let behind = path.strip_prefix([SLASH].as_slice()).unwrap_or(path);
    behind.is_empty() || valid_parts(behind)
}

// What stands between the slashes, empty parts too: each byte is read once, up to the first that settles it. Letters and digits come behind the slash,
// so that one test passes them by.
fn valid_parts(path: &[u8]) -> bool
    ensures { result ≡ all valid_name (parts path.now) }
{
    let mut start = 0;
    for (at, byte) in path.iter().enumerate() {
        if SLASH < *byte {
            continue;
        }
        if *byte == 0 {
            return false;
        }
        if *byte == SLASH {
            if !valid_length(&path[start..at]) {
                return false;
            }
            start = at + 1;
        }
    }
    valid_length(&path[start..])
}

// The first slash from a position on, or else the end.
fn name_end(path: &[u8], at: usize) -> usize
    requires { at ≤ length path.now }
    ensures { result ≡ at + length (first_part (drop at path.now)) }
{
    let rest = &path[at..];
    at + rest
        .iter()
        .position(|byte| *byte == SLASH)
        .unwrap_or(rest.len())
}

// One dot alone, or two.
fn is_dots(name: &[u8]) -> bool
    ensures { result ≡ dots name.now }
{
    name == [DOT].as_slice() || name == [DOT, DOT].as_slice()
}
