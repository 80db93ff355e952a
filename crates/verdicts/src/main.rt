#![tactic(auto)]
// Prints a line for each record of standard input: document 01, 'The listing'.
ghost use Rattle.std.specs.Prelude.{◌≡◌, ◌-◌, ◌≤◌, IfSome, length, take, drop};
ghost use Rattle.lines.specs.Puts.{Puts};

use listing::{Part, Stop};
use rows::WORD_COUNT;
use std::io::{Read, Write};

// Room for many records, and few enough that their lines fit the output: a record has seven bytes or more, a line at most 35.
const INPUT_BYTES: usize = 12288;

// Room for the lines of a turn.
const OUTPUT_BYTES: usize = 65536;

// What is kept from turn to turn: how many bytes at the buffer's front are unread, and the place of the next line.
#[derive(Clone, Copy)]
struct Standing {
    unread: usize,
    place: u64,
}

// Moves the bytes from `from` up to `held` to the front, and answers how many they are.
// stays: a rule of the project (no heap): one buffer of fixed size is read into behind what is unread, so that its length goes beside it.
fn keep_unread(bytes: &mut [u8], from: usize, held: usize) -> usize
    requires { (from ≤ held) × (held ≤ length bytes.old) }
    ensures puts { Puts bytes.old 0 (take (held - from) (drop from bytes.old)) result bytes.new }
    ensures upper_bound { result ≤ length bytes.new }
{
    bytes.copy_within(from..held, 0);
    held - from
}

// Says on standard error what went wrong; the listing ends.
fn say_failed(rt: &HostRuntime, message: &[u8]) {
    let _ = rt.stderr().write_all(message);
}

// The lines of the first `held` bytes.
fn list_held(
    words: &mut [u32],
    bytes: &[u8],
    held: usize,
    last: bool,
    place: u64,
    out: &mut [u8],
) -> Part
    requires { held ≤ length bytes.now }
    ensures taken { result.taken ≤ held }
    ensures fits { (result.length ≤ length out.new) × (result.length ≡ length (take result.length out.new)) }
{
    listing::list_part(words, &bytes[..held], last, place, out)
}

// Reads once, writes the lines of what came, and keeps the bytes that are too few for a record. No byte read is the end.
fn turn(
    rt: &HostRuntime,
    words: &mut [u32],
    bytes: &mut [u8],
    standing: Standing,
    out: &mut [u8],
) -> Option<Standing>
    requires { standing.unread ≤ length bytes.old }
    ensures { IfSome result (λ next. next.unread ≤ length bytes.new) }
{
    let unread = standing.unread;
    let Ok(got) = rt.stdin().read(&mut bytes[unread..]) else {
        say_failed(rt, b"verdicts: standard input cannot be read\n");
        return None;
    };
    let held = unread + got;
    let part = list_held(words, bytes, held, got == 0, standing.place, out);
    if rt.stdout().write_all(&out[..part.length]).is_err() {
        say_failed(rt, b"verdicts: standard output cannot be written\n");
        return None;
    }
    match part.stop {
        Stop::Over => None,
        Stop::More | Stop::Full => Some(Standing {
            unread: keep_unread(bytes, part.taken, held),
            place: part.place,
        }),
    }
}

// Nothing says that the input ends, so the turns are counted, up to a number that no run reaches.
// stays: no plainer: a `while let` would need a number that falls with each turn, and a count up to a bound is one.
fn list_all(rt: &HostRuntime, words: &mut [u32], bytes: &mut [u8], out: &mut [u8]) {
    let mut standing = Standing {
        unread: 0,
        place: 1,
    };
    for _ in 0..u64::MAX {
        let Some(next) = turn(rt, words, bytes, standing, out) else {
            return;
        };
        standing = next;
    }
}

fn main(rt: HostRuntime) {
    let mut words = [0u32; WORD_COUNT];
    // These words are as many as are asked for, so they are not refused.
    let _ = fresh::fresh(&mut words);
    let mut bytes = [0u8; INPUT_BYTES];
    let mut out = [0u8; OUTPUT_BYTES];
    list_all(&rt, &mut words, &mut bytes, &mut out);
}
