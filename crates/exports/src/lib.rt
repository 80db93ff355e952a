#![tactic(auto)]
// What the functions of the archive do, which `exports_c` gives to C and Rust to link: numbers and slices alone, no function requires anything,
// and each gives what the proved function below it gives, as numbers by one definition.
ghost use Rattle.records.specs.Packing.{called};
ghost use Rattle.model.specs.Sound.{sound};
ghost use Rattle.exports.specs.Numbers.{field_numbers, Small, ReadsAs, PacksAs, MakesFresh, ServesAs, soundness_number, WalksAs};
ghost use Rattle.exports.specs.Runs.{RunsAs};
ghost use Rattle.std.specs.Prelude.{◌≡◌};

use model::UNSOUND;
use records::Fields;
use runs::{DONE, REFUSED, told, told_answer};
use walk_told::GOAL_WORDS;

fn put_fields(numbers: &mut [u32; 6], fields: Fields)
    requires { Small fields }
    ensures { numbers.new ≡ field_numbers fields }
{
    let path1 = fields.path1;
    let path2 = fields.path2;
    // stays: no plainer: Rust has no `From<usize>` for u32, and by the clause that these fit try_from's Err never comes.
    *numbers = [
        u32::from(fields.process),
        u32::from(fields.argument),
        path1.start as u32,
        path1.length as u32,
        path2.start as u32,
        path2.length as u32,
    ];
}

// Reads the record at the front of the bytes: done with the call's number, or refused; the six fields are the process, the argument, and the
// start and length of path 1 and path 2, all 0 where it is refused.
pub fn tickbutton_read(bytes: &[u8], fields: &mut [u32; 6]) -> u64
    ensures { ReadsAs bytes.now result fields.new }
{
    // stays: no plainer: Rust has no `From<usize>` for u64, and try_from's Err never comes.
    match records::read(bytes) {
        Ok(found) => {
            put_fields(fields, found.fields);
            told(DONE, u64::from(found.fields.call), found.taken as u64)
        }
        Err(refusal) => {
            *fields = [0; 6];
            told(REFUSED, u64::from(refusal.number), refusal.taken as u64)
        }
    }
}

// Packs a call into the front of the destination: done with the record's length, or refused, and then nothing is written.
pub fn tickbutton_pack(
    call: u32,
    process: u16,
    argument: u16,
    path1: &[u8],
    path2: &[u8],
    destination: &mut [u8],
) -> u64
    ensures { PacksAs (called call process argument path1.now path2.now) destination.old result destination.new }
{
    match records::pack(call, process, argument, path1, path2, destination) {
        // stays: no plainer: Rust has no `From<usize>` for u64, and try_from's Err never comes.
        Ok(length) => told(DONE, length as u64, 0),
        Err(number) => told(REFUSED, u64::from(number), 0),
    }
}

// Makes the words fresh tables: done with 0, or refused with 1 where there are not 8,512 of them, and then nothing is written.
pub fn tickbutton_fresh(words: &mut [u32]) -> u64
    ensures { MakesFresh words.old result words.new }
{
    match fresh::fresh(words) {
        Ok(()) => told(DONE, 0, 0),
        Err(number) => told(REFUSED, u64::from(number), 0),
    }
}

// Serves the record at the front of the bytes: the answer, the bytes taken, and the words afterwards.
pub fn tickbutton_serve(words: &mut [u32], record: &[u8]) -> u64
    ensures { ServesAs words.old «record».now result words.new }
{
    let verdict = service::serve(words, record);
    // stays: no plainer: Rust has no `From<usize>` for u64, and try_from's Err never comes.
    told_answer(verdict.answer, verdict.taken as u64)
}

// Whether the words are sound tables: done with 0 where they are, else refused with 1.
pub fn tickbutton_sound(words: &[u32]) -> u64
    ensures { result ≡ soundness_number (sound words.now) }
{
    if soundness::sound(words) {
        return told(DONE, 0, 0);
    }
    told(REFUSED, u64::from(UNSOUND), 0)
}

// Walks a path over the words, a link at its last name too where that is asked: done with the node that it leads to, 0 for an absence, or
// refused. The goal is the number of elements, the end entry and the elements in the order met, each as its directory and name block, and zeros
// behind them; where there is no end entry its words are zeros, and all are where the walk is refused.
pub fn tickbutton_walk(
    words: &[u32],
    path: &[u8],
    follow_last: bool,
    goal: &mut [u32; GOAL_WORDS],
) -> u64
    ensures { WalksAs words.now path.now follow_last result goal.new }
{
    match walk_told::walk_to(words, path, follow_last, goal) {
        Ok(node) => told(DONE, u64::from(node), 0),
        Err(stop) => told(REFUSED, u64::from(stop), 0),
    }
}

// Serves record after record, as long as a whole one is left and a slot for its answer: how many were served, in `taken` how many bytes they are,
// and in each slot its record's answer, with no bytes told. The tables are tested once.
pub fn tickbutton_serve_run(
    words: &mut [u32],
    bytes: &[u8],
    answers: &mut [u64],
    taken: &mut [u64; 1],
) -> u64
    ensures { RunsAs words.old bytes.now answers.old result words.new answers.new taken.new }
{
    let run = runs::serve_run(words, bytes, answers);
    // stays: no plainer: Rust has no `From<usize>` for u64, and try_from's Err never comes.
    *taken = [run.taken as u64];
    run.served as u64
}
