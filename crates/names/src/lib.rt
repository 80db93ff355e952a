#![tactic(auto)]
// Name blocks tested by their words.
ghost use Rattle.std.specs.Prelude.{◌≡◌, [], ◌∷◌, ◌<◌};
ghost use Rattle.model.specs.Words.{bytes};
ghost use Rattle.names.specs.Fits.{fits, good_name, number, tops, low_bits, top_bits, differing};

use rows::{Block, FIRST_BYTE_UNIT};

// A dot alone, and two, as the first word of a block.
const ONE_DOT: u32 = 0x012e0000;

const TWO_DOTS: u32 = 0x022e2e00;

// What one in the first of two words is worth where they are joined.
const WORD_UNIT: u64 = 4294967296;

// Of eight bytes the lower seven bits each, and the top bits; and eight slashes.
const LOW_BITS: u64 = 0x7f7f7f7f7f7f7f7f;

const TOP_BITS: u64 = 0x8080808080808080;

const SLASHES: u64 = 0x2f2f2f2f2f2f2f2f;

// Whether the block is the one of its name, with zeros behind it, and the name is valid.
pub fn is_good_name(name: Block) -> bool
    ensures { result ≡ good_name name }
{
    // stays: no plainer: Rust has no `From<u32>` for usize, and try_from's Err never comes.
    let length = (name.first / FIRST_BYTE_UNIT) as usize;
    // the length is not 0 and no slash, so that it passes as one byte more
    (1..=paths::LONGEST_NAME).contains(&length)
        && name.first != ONE_DOT
        && name.first != TWO_DOTS
        && words_fit(name, length + 1)
}

fn words_fit(name: Block, count: usize) -> bool
    ensures { result ≡ fits count (bytes (name.first ∷ name.second ∷ name.third ∷ name.fourth ∷ [])) }
{
    if count < 8 {
        (name.third, name.fourth) == (0, 0) && half_fits(name.first, name.second, count)
    } else {
        half_fits(name.first, name.second, count) && half_fits(name.third, name.fourth, count - 8)
    }
}

// Whether the first `count` of the eight bytes can be a name's and the others are zeros: all eight are tested at once.
fn half_fits(first: u32, second: u32, count: usize) -> bool
    ensures { result ≡ fits count (bytes (first ∷ second ∷ [])) }
{
    let half = u64::from(first) * WORD_UNIT + u64::from(second);
    differing(half, 0) == tops_of(count) && differing(half, SLASHES) == TOP_BITS
}

// The top bit of each of the eight bytes that is not the byte of `other` at its place. No byte of `other` is above 127.
fn differing(eight: u64, other: u64) -> u64
    requires { other < 9223372036854775808 }
    ensures { result ≡ differing low_bits top_bits other eight }
{
    ((((eight & LOW_BITS) ^ other) + LOW_BITS) | eight) & TOP_BITS
}

// The top bits of the first `count` of eight bytes.
fn tops_of(count: usize) -> u64
    ensures { result ≡ number 0 (tops count 8) }
{
    if count < 8 {
        TOP_BITS - (TOP_BITS >> (8 * count))
    } else {
        TOP_BITS
    }
}
