#![tactic(auto)]
// The functions of the archive under their names in C: each is the function of `exports` of that name, and promises the same.
ghost use Rattle.std.specs.Prelude.{◌≡◌};
ghost use Rattle.records.specs.Packing.{called};
ghost use Rattle.model.specs.Sound.{sound};
ghost use Rattle.exports.specs.Numbers.{ReadsAs, PacksAs, MakesFresh, ServesAs, soundness_number, WalksAs};
ghost use Rattle.exports.specs.Runs.{RunsAs};

use walk_told::GOAL_WORDS;

// stays: the C interface: each function gives the one of exports its name in C.

// Reads the record at the front of the bytes: done with the call's number, or refused; the six fields are the process, the argument, and the
// start and length of path 1 and path 2, all 0 where it is refused.
#[unsafe(no_mangle)]
pub extern "C" fn tickbutton_read(bytes: &[u8], fields: &mut [u32; 6]) -> u64
    ensures { ReadsAs bytes.now result fields.new }
{
    exports::tickbutton_read(bytes, fields)
}

// Packs a call into the front of the destination: done with the record's length, or refused, and then nothing is written.
#[unsafe(no_mangle)]
pub extern "C" fn tickbutton_pack(
    call: u32,
    process: u16,
    argument: u16,
    path1: &[u8],
    path2: &[u8],
    destination: &mut [u8],
) -> u64
    ensures { PacksAs (called call process argument path1.now path2.now) destination.old result destination.new }
{
    exports::tickbutton_pack(call, process, argument, path1, path2, destination)
}

// Makes the words fresh tables: done with 0, or refused with 1 where there are not 8,512 of them, and then nothing is written.
#[unsafe(no_mangle)]
pub extern "C" fn tickbutton_fresh(words: &mut [u32]) -> u64
    ensures { MakesFresh words.old result words.new }
{
    exports::tickbutton_fresh(words)
}

// Serves the record at the front of the bytes: the answer, the bytes taken, and the words afterwards.
#[unsafe(no_mangle)]
pub extern "C" fn tickbutton_serve(words: &mut [u32], record: &[u8]) -> u64
    ensures { ServesAs words.old «record».now result words.new }
{
    exports::tickbutton_serve(words, record)
}

// Whether the words are sound tables: done with 0 where they are, else refused with 1.
#[unsafe(no_mangle)]
pub extern "C" fn tickbutton_sound(words: &[u32]) -> u64
    ensures { result ≡ soundness_number (sound words.now) }
{
    exports::tickbutton_sound(words)
}

// Walks a path over the words, a link at its last name too where that is asked: done with the node that it leads to, 0 for an absence, or
// refused. The goal is the number of elements, the end entry and the elements in the order met, each as its directory and name block, and zeros
// behind them; where there is no end entry its words are zeros, and all are where the walk is refused.
#[unsafe(no_mangle)]
pub extern "C" fn tickbutton_walk(
    words: &[u32],
    path: &[u8],
    follow_last: bool,
    goal: &mut [u32; GOAL_WORDS],
) -> u64
    ensures { WalksAs words.now path.now follow_last result goal.new }
{
    exports::tickbutton_walk(words, path, follow_last, goal)
}

// Serves record after record, as long as a whole one is left and a slot for its answer: how many were served, in `taken` how many bytes they are,
// and in each slot its record's answer, with no bytes told. The tables are tested once.
#[unsafe(no_mangle)]
pub extern "C" fn tickbutton_serve_run(
    words: &mut [u32],
    bytes: &[u8],
    answers: &mut [u64],
    taken: &mut [u64; 1],
) -> u64
    ensures { RunsAs words.old bytes.now answers.old result words.new answers.new taken.new }
{
    exports::tickbutton_serve_run(words, bytes, answers, taken)
}
