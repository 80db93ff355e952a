#![tactic(auto)]
// The lent words read by row and field, and where each table, row and field stands in them; `edits`, `shape` and `fresh` take it from here.
ghost use Rattle.std.specs.Prelude.{◌≡◌, ◌⊎◌, ◌+◌, ◌*◌, ◌/◌, ◌%◌, ◌≤◌, ◌<◌, MatchOption, eqb, length, get_or, take, drop};
ghost use Rattle.model.specs.Lists.{filled};
ghost use Rattle.model.specs.Paths.{longest_name, longest_target};
ghost use Rattle.model.specs.Tables.{entry_rows, node_rows, hold_rows, process_rows, node_at};
ghost use Rattle.model.specs.Words.{bytes, unpack};
ghost use Rattle.rows.specs.Blocks.{block_in, block_of, same_block, target_words, word_from};
ghost use Rattle.rows.specs.Kinds.{kind_number, number_of};
ghost use Rattle.rows.specs.Stands.{Stands, entry_row, node_row, hold_row, process_row};

// Where the rows of each table start, the entries at the front, and how many words a row has; a process has one.
pub const NODES_START: usize = 2560;

pub const HOLDS_START: usize = 6912;

pub const PROCESSES_START: usize = 8448;

pub const WORD_COUNT: usize = 8512;

pub const ENTRY_WIDTH: usize = 5;

pub const NODE_WIDTH: usize = 17;

pub const HOLD_WIDTH: usize = 6;

// The room for a link's target behind the first word of a node, in words and in bytes.
pub const TARGET_WORDS: usize = 16;

pub const TARGET_BYTES: usize = 64;

// How many rows each table has.
// stays: no plainer: a row is the usize of a range over its table; a type for one below these numbers would be built and taken apart at every step.
pub const ENTRY_ROWS: usize = 512;

pub const NODE_ROWS: usize = 256;

pub const HOLD_ROWS: usize = 256;

pub const PROCESS_ROWS: usize = 64;

// Where the role stands in a hold.
pub const ROLE_PLACE: usize = 5;

// What one in the first byte of a word is worth.
pub const FIRST_BYTE_UNIT: u32 = 16777216;

// What one in a field is worth in its word: in the upper half of a pair, in a kind or role, in a target's length, in a count.
pub const UPPER_UNIT: u32 = 65536;

pub const TOP_UNIT: u32 = 1073741824;

pub const LENGTH_UNIT: u32 = 8388608;

pub const COUNT_UNIT: u32 = 8192;

// How many values a target's length and a count can have.
// stays: no plainer: a count is the u16 that stands in the words, and a length that of a slice; a type for less would be built and taken apart.
pub const LENGTH_VALUES: u32 = 128;

pub const COUNT_VALUES: u32 = 1024;

// The kinds of a node, each by its number in the words; a free row has 0, and no kind.
#[derive(Clone, Copy, PartialEq, Eq)]
pub enum Kind {
    File = 1,
    Directory = 2,
    Link = 3,
}

impl From<Kind> for u8 {
    ghost from_gives = { λ kind number. number ≡ number_of kind };

    fn from(kind: Kind) -> u8 {
        kind as u8
    }
}

// The node of `/`.
pub const ROOT: u16 = 1;

// The roles of a hold, 0 for a free row.
// stays: what may not change: `hold_role` promises the number for any words that stand, and `set_hold` takes any role below 4.
pub const END: u8 = 1;

pub const ELEMENT: u8 = 2;

// A name block: its four words.
// stays: what may not change: block_at gives the block of any four words and is_good_name asks of any; Named is asked where one is taken for a name.
#[derive(Clone, Copy, PartialEq, Eq, Default)]
pub struct Block {
    pub first: u32,
    pub second: u32,
    pub third: u32,
    pub fourth: u32,
}

// An entry as it is written.
#[derive(Clone, Copy)]
pub struct EntryRow {
    pub directory: u16,
    pub node: u16,
    pub name: Block,
}

// A hold as it is written.
#[derive(Clone, Copy, Default)]
pub struct HoldRow {
    pub directory: u16,
    pub process: u16,
    pub name: Block,
    pub role: u8,
}

// A link's target: its bytes, filled up with zeros, and how many they are.
// stays: what may not change: `target_in` promises the zeros behind the target too, which a list of its bytes alone would not have.
#[derive(Clone, Copy)]
pub struct Target {
    pub length: usize,
    pub bytes: [u8; TARGET_BYTES],
}

// stays: no plainer: each `as` that narrows here is shown exact by the proof, and `try_from` would bring an Err that nothing can reach.
fn upper_half(word: u32) -> u16
    ensures { result ≡ word / 65536 }
{
    (word / UPPER_UNIT) as u16
}

fn lower_half(word: u32) -> u16
    ensures { result ≡ word % 65536 }
{
    (word % UPPER_UNIT) as u16
}

pub fn top_bits(word: u32) -> u8
    ensures { result ≡ word / 1073741824 }
{
    (word / TOP_UNIT) as u8
}

fn count_bits(word: u32) -> u16
    ensures { result ≡ word / 8192 % 1024 }
{
    (word / COUNT_UNIT % COUNT_VALUES) as u16
}

pub fn length_bits(word: u32) -> usize
    ensures { result ≡ word / 8388608 % 128 }
{
    (word / LENGTH_UNIT % LENGTH_VALUES) as usize
}

// A node, or a link of a chain, as a number that rows are counted by.
pub fn wide(number: u16) -> usize
    ensures { result ≡ number }
{
    usize::from(number)
}

// NAMES

pub fn block_at(words: &[u32], at: usize) -> Block
    requires { at + 4 ≤ length words.now }
    ensures { result ≡ block_in words.now at }
{
    Block {
        first: words[at],
        second: words[at + 1],
        third: words[at + 2],
        fourth: words[at + 3],
    }
}

// Byte k of a name or a target, 0 behind its end.
fn byte_or_zero(name: &[u8], k: usize) -> u8
    ensures { result ≡ get_or name.now k 0 }
{
    name.get(k).copied().unwrap_or(0)
}

// Four of the `count` bytes from `from` on as a word, the first the most significant, and zeros behind them.
pub fn four_bytes(path: &[u8], from: usize, count: usize, k: usize) -> u32
    requires { (from + count ≤ length path.now) × (k < longest_target) }
    ensures { result ≡ word_from (take count (drop from path.now)) k }
{
    let name = &path[from..from + count];
    u32::from_be_bytes([
        byte_or_zero(name, k),
        byte_or_zero(name, k + 1),
        byte_or_zero(name, k + 2),
        byte_or_zero(name, k + 3),
    ])
}

// The block of the name that stands in the path: `count` bytes from `from` on.
// stays: no plainer: `count as u8` is shown exact by the proof, and `try_from` would bring an Err that nothing can reach.
pub fn block_from(path: &[u8], from: usize, count: usize) -> Block
    requires { (from + count ≤ length path.now) × (count ≤ longest_name) }
    ensures { result ≡ block_of (take count (drop from path.now)) }
{
    let name = &path[from..from + count];
    Block {
        first: u32::from_be_bytes([
            count as u8,
            byte_or_zero(name, 0),
            byte_or_zero(name, 1),
            byte_or_zero(name, 2),
        ]),
        second: four_bytes(path, from, count, 3),
        third: four_bytes(path, from, count, 7),
        fourth: four_bytes(path, from, count, 11),
    }
}

// The first word and the last are asked first: most names that share a chain differ there.
#[tactic(auto, unfolding(crate::specs::Blocks::same_block))]
pub fn same_blocks(a: Block, b: Block) -> bool
    ensures { result ≡ same_block a b }
{
    (a.first, a.fourth) == (b.first, b.fourth) && (a.second, a.third) == (b.second, b.third)
}

// ENTRIES

// stays: a rule of the project: document 01 wants the tables as one lent slice of words read by row and field, so that Stands is asked of the slice.
// stays: no plainer: each is one line; one generic function would take the field's place and, as a ghost, what it reads, and each caller would give both.
pub fn entry_directory(words: &[u32], row: usize) -> u16
    requires { (Stands words.now) × (row < entry_rows) }
    ensures { result ≡ (entry_row words.now row).place.directory }
{
    upper_half(words[row * ENTRY_WIDTH])
}

pub fn entry_node(words: &[u32], row: usize) -> u16
    requires { (Stands words.now) × (row < entry_rows) }
    ensures { result ≡ (entry_row words.now row).node }
{
    lower_half(words[row * ENTRY_WIDTH])
}

pub fn entry_name(words: &[u32], row: usize) -> Block
    requires { (Stands words.now) × (row < entry_rows) }
    ensures { result ≡ block_of (entry_row words.now row).place.name }
{
    block_at(words, row * ENTRY_WIDTH + 1)
}

// NODES, by row; node n is row n - 1

// The kind that two bits of a node's first word say.
pub fn kind_of(bits: u8) -> Option<Kind>
    requires { bits < 4 }
    ensures { kind_number result ≡ bits }
{
    match bits {
        1 => Some(Kind::File),
        2 => Some(Kind::Directory),
        3 => Some(Kind::Link),
        _ => None,
    }
}

pub fn kind_in(words: &[u32], row: usize) -> Option<Kind>
    requires { (Stands words.now) × (row < node_rows) }
    ensures { kind_number result ≡ (node_row words.now row).kind }
{
    kind_of(top_bits(words[NODES_START + row * NODE_WIDTH]))
}

pub fn count_in(words: &[u32], row: usize) -> u16
    requires { (Stands words.now) × (row < node_rows) }
    ensures { result ≡ (node_row words.now row).count }
{
    count_bits(words[NODES_START + row * NODE_WIDTH])
}

fn target_length_in(words: &[u32], row: usize) -> usize
    requires { (Stands words.now) × (row < node_rows) }
    ensures { result ≡ length (node_row words.now row).target }
{
    length_bits(words[NODES_START + row * NODE_WIDTH])
}

// The bytes of a target's words from `at` on.
pub fn bytes_at(words: &[u32], at: usize) -> [u8; TARGET_BYTES]
    requires { at + target_words ≤ length words.now }
    ensures { result ≡ bytes (take target_words (drop at words.now)) }
{
    let mut out = [0u8; TARGET_BYTES];
    for k in 0..TARGET_WORDS {
        out[k * 4..k * 4 + 4].copy_from_slice(&words[at + k].to_be_bytes());
    }
    out
}

pub fn target_in(words: &[u32], row: usize) -> Target
    requires { (Stands words.now) × (row < node_rows) }
    ensures { result ≡ record { length = length (node_row words.now row).target; bytes = filled longest_target (node_row words.now row).target } }
{
    Target {
        length: target_length_in(words, row),
        bytes: bytes_at(words, NODES_START + row * NODE_WIDTH + 1),
    }
}

// NODES, by number; no node has another number

// The row of a node.
pub fn row_of_node(node: u16) -> Option<usize>
    ensures { MatchOption result ((node ≡ 0) ⊎ (node_rows < node)) (λ row. (node ≡ row + 1) × (row < node_rows)) }
{
    let row = usize::from(node).checked_sub(1)?;
    if row < NODE_ROWS { Some(row) } else { None }
}

pub fn node_kind(words: &[u32], node: u16) -> Option<Kind>
    requires { Stands words.now }
    ensures { kind_number result ≡ (node_at (unpack words.now).nodes node).kind }
{
    let row = row_of_node(node)?;
    kind_in(words, row)
}

pub fn is_kind(words: &[u32], node: u16, kind: Kind) -> bool
    requires { Stands words.now }
    ensures { result ≡ eqb (node_at (unpack words.now).nodes node).kind (number_of kind) }
{
    node_kind(words, node) == Some(kind)
}

pub fn node_count(words: &[u32], node: u16) -> u16
    requires { Stands words.now }
    ensures { result ≡ (node_at (unpack words.now).nodes node).count }
{
    match row_of_node(node) {
        Some(row) => count_in(words, row),
        None => 0,
    }
}

// HOLDS

pub fn hold_directory(words: &[u32], row: usize) -> u16
    requires { (Stands words.now) × (row < hold_rows) }
    ensures { result ≡ (hold_row words.now row).place.directory }
{
    upper_half(words[HOLDS_START + row * HOLD_WIDTH])
}

pub fn hold_process(words: &[u32], row: usize) -> u16
    requires { (Stands words.now) × (row < hold_rows) }
    ensures { result ≡ (hold_row words.now row).process }
{
    lower_half(words[HOLDS_START + row * HOLD_WIDTH])
}

pub fn hold_name(words: &[u32], row: usize) -> Block
    requires { (Stands words.now) × (row < hold_rows) }
    ensures { result ≡ block_of (hold_row words.now row).place.name }
{
    block_at(words, HOLDS_START + row * HOLD_WIDTH + 1)
}

pub fn hold_role(words: &[u32], row: usize) -> u8
    requires { (Stands words.now) × (row < hold_rows) }
    ensures { result ≡ (hold_row words.now row).role }
{
    top_bits(words[HOLDS_START + row * HOLD_WIDTH + ROLE_PLACE])
}

// PROCESSES

pub fn process_number(words: &[u32], row: usize) -> u16
    requires { (Stands words.now) × (row < process_rows) }
    ensures { result ≡ (process_row words.now row).number }
{
    upper_half(words[PROCESSES_START + row])
}

pub fn process_user(words: &[u32], row: usize) -> u16
    requires { (Stands words.now) × (row < process_rows) }
    ensures { result ≡ (process_row words.now row).user }
{
    lower_half(words[PROCESSES_START + row])
}
