// The lines of a part of the input, one behind the other.
ghost use Rattle.std.specs.Prelude.{◌≡◌};
ghost use Rattle.listing.specs.Parts.{filled, list_part};

use super::{Part, Setting, Step, Stop, next_line};
use index::Index;
use soundness::sound_and_index;

// Serves record after record of the bytes and writes their lines. `last` says that no bytes will come behind these.
pub fn list_part(words: &mut [u32], bytes: &[u8], last: bool, place: u64, out: &mut [u8]) -> Part
    ensures { filled result words.new out.new ≡ list_part last words.old bytes.now place out.old }
{
    let mut index = Index::new();
    let is_sound = sound_and_index(words, &mut index);
    let mut from = 0;
    let mut at = 0;
    let mut place = place;
    // stays: no plainer: how far a step takes them is known behind it alone, so that no range or iterator counts these three.
    let (length, stop) = loop {
        let rest = &bytes[from..];
        let setting = Setting {
            is_sound,
            last,
            place,
        };
        match next_line(words, &mut index, rest, setting, &mut out[at..]) {
            Step::Line { taken, length } => {
                from += taken;
                at += length;
                place += 1;
            }
            Step::Last { length } => break (at + length, Stop::Over),
            Step::Over => break (at, Stop::Over),
            Step::More => break (at, Stop::More),
            Step::Full => break (at, Stop::Full),
        }
    };
    Part {
        taken: from,
        length,
        place,
        stop,
    }
}
