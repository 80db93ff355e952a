#![tactic(auto)]
// The seven bytes with which a record begins, as one number of 56 bits, and the fields in it.
ghost use Rattle.std.specs.Prelude.{◌≡◌, ◌++◌, ◌≤◌, length, drop};
ghost use Rattle.model.specs.Words.{bits};
ghost use Rattle.model.specs.Records.{head_of, head_bytes};
ghost use Rattle.fields.specs.Given.{numbers_in, HeadFits, joined_head};

use fields::Numbers;

pub const HEAD_LENGTH: usize = 7;

// What one in a field is worth in the head; the zero bits are below the length of path 2.
const CALL_UNIT: u64 = 1 << 51;

const PROCESS_UNIT: u64 = 1 << 35;

const ARGUMENT_UNIT: u64 = 1 << 19;

const LENGTH1_UNIT: u64 = 1 << 11;

const LENGTH2_UNIT: u64 = 1 << 3;

pub fn head_of(bytes: &[u8]) -> u64
    requires { 7 ≤ length bytes.now }
    ensures { result ≡ head_of bytes.now }
{
    u64::from_be_bytes([
        0, bytes[0], bytes[1], bytes[2], bytes[3], bytes[4], bytes[5], bytes[6],
    ])
}

pub fn numbers_of(head: u64) -> Numbers
    ensures { result ≡ numbers_in head }
{
    // stays: no plainer: each field fits by its remainder, and try_from's Err never comes.
    Numbers {
        call: (head / CALL_UNIT % 32) as u32,
        process: (head / PROCESS_UNIT % 65536) as u16,
        argument: (head / ARGUMENT_UNIT % 65536) as u16,
        zeros: (head % LENGTH2_UNIT) as u8,
    }
}

pub fn path1_length(head: u64) -> usize
    ensures { result ≡ bits 11 8 head }
{
    // stays: no plainer: the remainder fits a byte, Rust has no `From` between u64 and usize, and try_from's Err never comes.
    (head / LENGTH1_UNIT % 256) as usize
}

pub fn path2_length(head: u64) -> usize
    ensures { result ≡ bits 3 8 head }
{
    // stays: no plainer: the remainder fits a byte, Rust has no `From` between u64 and usize, and try_from's Err never comes.
    (head / LENGTH2_UNIT % 256) as usize
}

// The head of a record: the numbers and the lengths of its paths.
pub fn joined_head(numbers: Numbers, length1: usize, length2: usize) -> u64
    requires { HeadFits numbers length1 length2 }
    ensures { result ≡ joined_head numbers length1 length2 }
{
    let high = u64::from(numbers.call) * 65536 + u64::from(numbers.process);
    // stays: no plainer: Rust has no `From<usize>` for u64, and try_from's Err never comes.
    let lengths = (length1 as u64) * 256 + (length2 as u64);
    ((high * 65536 + u64::from(numbers.argument)) * 65536 + lengths) * LENGTH2_UNIT
        + u64::from(numbers.zeros)
}

pub fn write_head(destination: &mut [u8], head: u64)
    requires { 7 ≤ length destination.old }
    ensures { destination.new ≡ head_bytes head ++ drop 7 destination.old }
{
    let bytes = head.to_be_bytes();
    destination[..HEAD_LENGTH].copy_from_slice(&bytes[1..]);
}
