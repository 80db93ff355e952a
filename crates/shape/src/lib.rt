#![tactic(auto)]
// What each row of the lent words has to meet by itself, row after row.
ghost use Rattle.std.specs.Prelude.{[], ◌∷◌, ◌≡◌, ◌+◌, ◌*◌, ◌≤◌, ◌<◌, length, take, drop};
ghost use Rattle.model.specs.Lists.{all};
ghost use Rattle.model.specs.Paths.{longest_target};
ghost use Rattle.model.specs.Tables.{entry_rows, node_rows, hold_rows};
ghost use Rattle.model.specs.Words.{entry_words, node_words, hold_words, first_node_word, first_hold_word, word_count, bytes};
ghost use Rattle.rows.specs.Blocks.{block_words, target_words};
ghost use Rattle.shape.specs.Shaped.{entry_pieces, node_pieces, hold_pieces, process_pieces, entry_shaped, node_shaped, hold_shaped, process_shaped, role_word, zeros, link_fits, shaped};

use names::is_good_name;
use paths::valid_target;
use rows::{
    Block, COUNT_UNIT, ELEMENT, END, ENTRY_ROWS, ENTRY_WIDTH, HOLD_ROWS, HOLD_WIDTH, HOLDS_START,
    Kind, NODE_ROWS, NODE_WIDTH, NODES_START, PROCESSES_START, ROLE_PLACE, TARGET_BYTES,
    TARGET_WORDS, TOP_UNIT, UPPER_UNIT, WORD_COUNT, block_at, bytes_at, kind_of, length_bits,
    top_bits,
};

// The words of the two roles, in the top bits.
// stays: no plainer: a constant can't call u32::from.
const END_ROLE: u32 = END as u32 * TOP_UNIT;

const ELEMENT_ROLE: u32 = ELEMENT as u32 * TOP_UNIT;

// Whether there are 8,512 words, each row just the words of what it holds, with valid names, roles and targets.
pub fn is_shaped(words: &[u32]) -> bool
    ensures { result ≡ shaped words.now }
{
    words.len() == WORD_COUNT
        && entries_shaped(words)
        && nodes_shaped(words)
        && holds_shaped(words)
        && processes_shaped(words)
}

// stays: no plainer: one function for this and the next two would take the number of rows and the test as a closure, all that each of them says.
// stays: what may not change: a `&[u32; WORD_COUNT]` would have the length by its type, but leave nothing of is_shaped's test, of which an edit speaks.
fn entries_shaped(words: &[u32]) -> bool
    requires { length words.now ≡ word_count }
    ensures { result ≡ all entry_shaped (entry_pieces words.now) }
{
    (0..ENTRY_ROWS).all(|row| entry_shaped(words, row))
}

fn nodes_shaped(words: &[u32]) -> bool
    requires { length words.now ≡ word_count }
    ensures { result ≡ all node_shaped (node_pieces words.now) }
{
    (0..NODE_ROWS).all(|row| node_shaped(words, row))
}

fn holds_shaped(words: &[u32]) -> bool
    requires { length words.now ≡ word_count }
    ensures { result ≡ all hold_shaped (hold_pieces words.now) }
{
    (0..HOLD_ROWS).all(|row| hold_shaped(words, row))
}

fn processes_shaped(words: &[u32]) -> bool
    requires { length words.now ≡ word_count }
    ensures { result ≡ all process_shaped (process_pieces words.now) }
{
    words[PROCESSES_START..]
        .iter()
        .all(|word| process_shaped(*word))
}

fn entry_shaped(words: &[u32], row: usize) -> bool
    requires { (length words.now ≡ word_count) × (row < entry_rows) }
    ensures { result ≡ entry_shaped (take entry_words (drop (row * entry_words) words.now)) }
{
    let at = row * ENTRY_WIDTH;
    let head = words[at];
    let block = block_at(words, at + 1);
    if head < UPPER_UNIT {
        is_blank(head, block)
    } else {
        is_good_name(block)
    }
}

fn hold_shaped(words: &[u32], row: usize) -> bool
    requires { (length words.now ≡ word_count) × (row < hold_rows) }
    ensures { result ≡ hold_shaped (take hold_words (drop (first_hold_word + row * hold_words) words.now)) }
{
    let at = HOLDS_START + row * HOLD_WIDTH;
    let head = words[at];
    let name = block_at(words, at + 1);
    let role = words[at + ROLE_PLACE];
    if head < UPPER_UNIT {
        is_blank(head, name) && role == 0
    } else {
        is_role(role) && is_good_name(name)
    }
}

fn process_shaped(word: u32) -> bool
    ensures { result ≡ process_shaped (word ∷ []) }
{
    word == 0 || UPPER_UNIT <= word
}

// The word of an end hold, or of an element's.
fn is_role(word: u32) -> bool
    ensures { result ≡ role_word word }
{
    word == END_ROLE || word == ELEMENT_ROLE
}

fn is_blank(head: u32, name: Block) -> bool
    ensures { result ≡ zeros (head ∷ block_words name) }
{
    head == 0 && name == Block::default()
}

fn node_shaped(words: &[u32], row: usize) -> bool
    requires { (length words.now ≡ word_count) × (row < node_rows) }
    ensures { result ≡ node_shaped (take node_words (drop (first_node_word + row * node_words) words.now)) }
{
    let at = NODES_START + row * NODE_WIDTH;
    let head = words[at];
    if head % COUNT_UNIT != 0 {
        return false;
    }
    match kind_of(top_bits(head)) {
        None => head == 0 && all_zeros(words, at + 1),
        Some(Kind::Link) => link_shaped(words, at + 1, length_bits(head)),
        Some(_) => length_bits(head) == 0 && all_zeros(words, at + 1),
    }
}

// Whether the 16 words from `at` on are zeros: they are joined bit by bit, which is quicker than a test of each.
fn all_zeros(words: &[u32], at: usize) -> bool
    requires { at + target_words ≤ length words.now }
    ensures { result ≡ zeros (take target_words (drop at words.now)) }
{
    let room = &words[at..at + TARGET_WORDS];
    room.iter().fold(0, |joined, word| joined | *word) == 0
}

// Whether the 16 words from `at` on are those of a valid target of `size` bytes.
fn link_shaped(words: &[u32], at: usize, size: usize) -> bool
    requires { at + target_words ≤ length words.now }
    ensures { result ≡ link_fits (bytes (take target_words (drop at words.now))) size }
{
    if size > TARGET_BYTES {
        return false;
    }
    let target = bytes_at(words, at);
    zeros_behind(&target, size) && valid_target(&target[..size])
}

fn zeros_behind(target: &[u8; TARGET_BYTES], size: usize) -> bool
    requires { (size ≤ longest_target) × (length target.now ≡ longest_target) }
    ensures { result ≡ zeros (drop size target.now) }
{
    target[size..].iter().all(|byte| *byte == 0)
}
