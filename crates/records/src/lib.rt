#![tactic(auto)]
// The record of a call, read and packed. Document 01, 'The thirteen calls' and 'Numbers given back'.
ghost use Rattle.std.specs.Prelude.{◌≡◌, ◌++◌, ◌+◌, ◌≤◌, ◌<◌, length, drop};
ghost use Rattle.std.proofs.Math.Seq.{paste};
ghost use Rattle.model.specs.Records.{write};
ghost use Rattle.fields.specs.Given.{given, Writes};
ghost use Rattle.records.specs.Reading.{cut_short, fields_at, reading, taken_of};
ghost use Rattle.records.specs.Packing.{called, Packs};

use fields::Numbers;
use heads::HEAD_LENGTH;
use model::{SHORT_DESTINATION, SHORT_RECORD};
pub use paths::Part;

// The fields of a record, and where its paths stand in it.
#[derive(Clone, Copy)]
pub struct Fields {
    pub call: u32,
    pub process: u16,
    pub argument: u16,
    pub path1: Part,
    pub path2: Part,
}

// A record that reading accepted, with the bytes that it took.
#[derive(Clone, Copy)]
pub struct Accepted {
    pub fields: Fields,
    pub taken: usize,
}

// The number that reading refused a record with, and the bytes that it took.
#[derive(Clone, Copy)]
pub struct Rejected {
    pub number: u8,
    pub taken: usize,
}

pub type Reading = Result<Accepted, Rejected>;

// The bytes of a record that are not all there are not taken.
const CUT_SHORT: Rejected = Rejected {
    number: SHORT_RECORD,
    taken: 0,
};

// Reads the record at the front of the bytes. What stands behind it does not count.
pub fn read(bytes: &[u8]) -> Reading
    ensures { result ≡ reading bytes.now }
{
    if bytes.len() < HEAD_LENGTH {
        return Err(CUT_SHORT);
    }
    let head = heads::head_of(bytes);
    let length1 = heads::path1_length(head);
    let length2 = heads::path2_length(head);
    let middle = HEAD_LENGTH + length1;
    let taken = middle + length2;
    if bytes.len() < taken {
        return Err(CUT_SHORT);
    }
    let numbers = heads::numbers_of(head);
    let path1 = &bytes[HEAD_LENGTH..middle];
    let path2 = &bytes[middle..taken];
    fields::fault(numbers, path1, path2).map_err(|number| Rejected { number, taken })?;
    let fields = placed(numbers, length1, length2);
    Ok(Accepted { fields, taken })
}

pub fn taken_of(found: Reading) -> usize
    ensures { result ≡ taken_of found }
{
    match found {
        Ok(accepted) => accepted.taken,
        Err(rejected) => rejected.taken,
    }
}

pub fn is_cut_short(found: Reading) -> bool
    ensures { result ≡ cut_short found }
{
    found.is_err_and(|rejected| rejected.number == SHORT_RECORD)
}

// The fields of a record, where path 1 stands behind the head and path 2 behind it.
fn placed(numbers: Numbers, length1: usize, length2: usize) -> Fields
    requires { length1 < 256 }
    ensures { result ≡ fields_at numbers.call numbers.process numbers.argument length1 length2 }
{
    let path1 = Part {
        start: HEAD_LENGTH,
        length: length1,
    };
    let path2 = Part {
        start: HEAD_LENGTH + length1,
        length: length2,
    };
    Fields {
        call: numbers.call,
        process: numbers.process,
        argument: numbers.argument,
        path1,
        path2,
    }
}

// Packs a call into the front of the destination. Refused, it writes nothing; nothing behind the record changes.
pub fn pack(
    call: u32,
    process: u16,
    argument: u16,
    path1: &[u8],
    path2: &[u8],
    destination: &mut [u8],
) -> Result<usize, u8>
    ensures { Packs (called call process argument path1.now path2.now) destination.old result destination.new }
{
    let numbers = Numbers {
        call,
        process,
        argument,
        zeros: 0,
    };
    fields::fault(numbers, path1, path2)?;
    let length = HEAD_LENGTH + path1.len() + path2.len();
    if destination.len() < length {
        return Err(SHORT_DESTINATION);
    }
    write_record(numbers, path1, path2, destination);
    Ok(length)
}

// The record of a call whose numbers fit, into a destination with room for it.
fn write_record(numbers: Numbers, path1: &[u8], path2: &[u8], destination: &mut [u8])
    requires { Writes numbers path1.now path2.now destination.old }
    ensures { destination.new ≡ write (given numbers path1.now path2.now) ++ drop (7 + length path1.now + length path2.now) destination.old }
{
    let middle = HEAD_LENGTH + path1.len();
    let head = heads::joined_head(numbers, path1.len(), path2.len());
    heads::write_head(destination, head);
    copy_to(destination, HEAD_LENGTH, path1);
    copy_to(destination, middle, path2);
}

// stays: the C interface: of this loop the compiler makes a memcpy; `copy_from_slice` becomes a memmove, which the archive would need besides.
fn copy_to(destination: &mut [u8], at: usize, source: &[u8])
    requires { at + length source.now ≤ length destination.old }
    ensures { destination.new ≡ paste destination.old at source.now (length source.now) }
{
    for (i, byte) in source.iter().enumerate() {
        destination[at + i] = *byte;
    }
}
