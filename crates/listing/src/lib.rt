#![tactic(auto)]
// The listing of document 01: a line for each record, from any parts of the input.
ghost use Rattle.std.specs.Prelude.{◌≡◌};
ghost use Rattle.runs.specs.Tested.{Tested};
ghost use Rattle.listing.specs.Steps.{stepped, next_line};

mod parts;

use index::Index;
use lines::put_line;
pub use parts::list_part;
use runs::serve_tested;

// What a step comes to.
#[derive(Clone, Copy)]
pub enum Step {
    // No byte is left and none will come.
    Over,
    // No line yet: more bytes are needed.
    More,
    // The destination is shorter than the longest line.
    Full,
    // A line was written for a record.
    Line { taken: usize, length: usize },
    // A line was written, and it is the last.
    Last { length: usize },
}

// Why no further line was written.
#[derive(Clone, Copy)]
pub enum Stop {
    // The listing is over.
    Over,
    // More bytes are needed.
    More,
    // The destination is shorter than the longest line.
    Full,
}

// What was done with a part: the bytes taken, the length of the lines, the place of the next one, and why there is none yet.
#[derive(Clone, Copy)]
pub struct Part {
    pub taken: usize,
    pub length: usize,
    pub place: u64,
    pub stop: Stop,
}

// No line is longer.
const LONGEST_LINE: usize = 35;

// What stands before a line: the test of the tables, whether no bytes will come behind those that are there, and the line's place.
#[derive(Clone, Copy)]
struct Setting {
    is_sound: bool,
    last: bool,
    place: u64,
}

// Serves the record at the front of the bytes and writes its line. The tables were tested and indexed before; the test still holds behind it.
fn next_line(
    words: &mut [u32],
    index: &mut Index,
    bytes: &[u8],
    setting: Setting,
    out: &mut [u8],
) -> Step
    requires { Tested words.old index.old setting.is_sound }
    ensures { (stepped result words.new out.new ≡ next_line words.old bytes.now setting.last setting.place out.old) × (Tested words.new index.new setting.is_sound) }
{
    if bytes.is_empty() {
        return if setting.last { Step::Over } else { Step::More };
    }
    if out.len() < LONGEST_LINE {
        return Step::Full;
    }
    let verdict = serve_tested(words, index, bytes, setting.is_sound);
    let taken = verdict.taken;
    if taken == 0 && !setting.last {
        return Step::More;
    }
    let length = put_line(out, setting.place, verdict.answer);
    if taken == 0 || setting.place == u64::MAX {
        return Step::Last { length };
    }
    Step::Line { taken, length }
}
