#![tactic(auto)]
// Numbers and texts written into a lent slice, and the line that they make. Document 01, 'The listing'.
ghost use Rattle.std.specs.Prelude.{[], ◌∷◌, ◌+◌, ◌≤◌, ◌<◌, length};
ghost use Rattle.model.specs.Listing.{digits, line};
ghost use Rattle.lines.specs.Puts.{Puts, line_around};

use itoa::Buffer;
use model::Answer;

// Writes one byte, and answers the place behind it.
fn put_byte(out: &mut [u8], at: usize, byte: u8) -> usize
    requires { at < length out.old }
    ensures { Puts out.old at (byte ∷ []) result out.new }
{
    out[at] = byte;
    at + 1
}

// Copies the text from `at` on, and answers the place behind it.
fn put_text(out: &mut [u8], at: usize, text: &[u8]) -> usize
    requires { at + length text.now ≤ length out.old }
    ensures { Puts out.old at text.now result out.new }
{
    let end = at + text.len();
    out[at..end].copy_from_slice(text);
    end
}

// Writes the decimal digits of the number from `at` on, and answers the place behind them.
fn put_digits(out: &mut [u8], at: usize, number: u64) -> usize
    requires { at + length (digits 19 number) ≤ length out.old }
    ensures { Puts out.old at (digits 19 number) result out.new }
{
    put_text(out, at, Buffer::new().format(number).as_bytes())
}

// Writes a line at the front: the place, the word with a space on either side, and the number.
// stays: a rule of the project (no heap): put_line's clause gives the bytes in a lent slice; a Display would need a writer over it to say them.
fn put_line_around(out: &mut [u8], place: u64, word: &[u8], number: u64) -> usize
    requires { length (line_around place word.now number) ≤ length out.old }
    ensures { Puts out.old 0 (line_around place word.now number) result out.new }
{
    let word_at = put_digits(out, 0, place);
    let number_at = put_text(out, word_at, word);
    let end = put_digits(out, number_at, number);
    put_byte(out, end, b'\n')
}

// Writes the line of an answer at the front, and answers its length.
pub fn put_line(out: &mut [u8], place: u64, answer: Answer) -> usize
    requires { length (line place answer) ≤ length out.old }
    ensures { Puts out.old 0 (line place answer) result out.new }
{
    match answer {
        Answer::Held(node) => put_line_around(out, place, b" held ", u64::from(node)),
        Answer::Seen(node) => put_line_around(out, place, b" seen ", u64::from(node)),
        Answer::Done(number) => put_line_around(out, place, b" done ", u64::from(number)),
        Answer::Refused(number) => put_line_around(out, place, b" refused ", u64::from(number)),
    }
}
