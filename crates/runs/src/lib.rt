#![tactic(auto)]
// Records served over lent tables, which are tested once: sound tables stay sound.
ghost use Rattle.std.specs.Prelude.{◌≡◌, true, false, ◌<◌};
ghost use Rattle.model.specs.Calls.{step};
ghost use Rattle.model.specs.Answers.{answer_number, number_of, word_number};
ghost use Rattle.model.specs.Serve.{judged, run};
ghost use Rattle.model.specs.Sound.{sound};
ghost use Rattle.model.specs.Words.{unpack};
ghost use Rattle.records.specs.Reading.{cut_short, reading};
ghost use Rattle.index.specs.Indexed.{Indexed};
ghost use Rattle.rows.specs.Meets.{Meets};
ghost use Rattle.reaching.specs.Ready.{call_in, Ready};
ghost use Rattle.service.specs.Serves.{Serves};
ghost use Rattle.runs.specs.Runs.{told_run};
ghost use Rattle.runs.specs.Tested.{ServesWhole, Tested, leaves_entries};

use dispatch::dispatch;
use fields::table::keeps_entries;
use index::{Index, index_entries};
use model::{Answer, SHORT_RECORD, UNSOUND, Verdict};
use reaching::Record;
use records::{Reading, is_cut_short, read, taken_of};
use soundness::sound_and_index;

// The words of an answer as numbers.
// stays: the C interface: include/tickbutton.h gives these four numbers to C, which reads one out of what told gives.
const HELD: u64 = 0;

const SEEN: u64 = 1;

pub const DONE: u64 = 2;

pub const REFUSED: u64 = 3;

// What one is worth in an answer's number: the word stands above the number, the bytes taken above the word.
const WORD_UNIT: u64 = 1 << 32;

const TAKEN_UNIT: u64 = 1 << 34;

// How many records were served, and how many bytes they are.
#[derive(Clone, Copy)]
pub struct Run {
    pub served: usize,
    pub taken: usize,
}

// Serves record after record, as long as a whole one is left and a slot for its answer.
pub fn serve_run(words: &mut [u32], records: &[u8], answers: &mut [u64]) -> Run
    ensures { told_run result words.new answers.new ≡ run words.old records.now answers.old }
{
    let mut index = Index::new();
    let is_sound = sound_and_index(words, &mut index);
    let mut taken = 0;
    for (served, slot) in answers.iter_mut().enumerate() {
        let bytes = &records[taken..];
        let Some(verdict) = serve_whole(words, &mut index, bytes, is_sound) else {
            return Run { served, taken };
        };
        *slot = told_answer(verdict.answer, 0);
        taken += verdict.taken;
    }
    let served = answers.len();
    Run { served, taken }
}

// stays: the C interface: exports tell by this also what is no Answer, as the length of a packed record or the bytes that reading took.
// An answer as one number: the answer's number in the lower 32 bits, its word in the two above, and the bytes taken above those.
pub fn told(word: u64, number: u64, taken: u64) -> u64
    requires { (word < 4) × (number < 4294967296) × (taken < 65536) }
    ensures { result ≡ answer_number word number taken }
{
    taken * TAKEN_UNIT + word * WORD_UNIT + number
}

pub fn told_answer(answer: Answer, taken: u64) -> u64
    requires { taken < 65536 }
    ensures { result ≡ answer_number (word_number answer) (number_of answer) taken }
{
    match answer {
        Answer::Held(node) => told(HELD, u64::from(node), taken),
        Answer::Seen(node) => told(SEEN, u64::from(node), taken),
        Answer::Done(number) => told(DONE, u64::from(number), taken),
        Answer::Refused(number) => told(REFUSED, u64::from(number), taken),
    }
}

// stays: no plainer: an Option<&mut Index> in the place of index and is_sound would be reborrowed for each record, and its None says no more than false.
// The record at the front of the bytes over tables that were tested before: what `service::serve` gives, and the test still holds.
pub fn serve_tested(words: &mut [u32], index: &mut Index, bytes: &[u8], is_sound: bool) -> Verdict
    requires { Tested words.old index.old is_sound }
    ensures { (Serves words.old bytes.now result words.new) × (Tested words.new index.new is_sound) }
{
    match serve_whole(words, index, bytes, is_sound) {
        Some(verdict) => verdict,
        None => Verdict {
            answer: Answer::Refused(SHORT_RECORD),
            taken: 0,
        },
    }
}

// The same where the record is whole, and else nothing.
fn serve_whole(
    words: &mut [u32],
    index: &mut Index,
    bytes: &[u8],
    is_sound: bool,
) -> Option<Verdict>
    requires { Tested words.old index.old is_sound }
    ensures { (ServesWhole words.old bytes.now result words.new) × (Tested words.new index.new is_sound) }
{
    let found = read(bytes);
    if is_cut_short(found) {
        return None;
    }
    let taken = taken_of(found);
    let answer = serve_found(words, index, bytes, found, is_sound);
    Some(Verdict { answer, taken })
}

// One whole record over tables that were tested before.
fn serve_found(
    words: &mut [u32],
    index: &mut Index,
    bytes: &[u8],
    found: Reading,
    is_sound: bool,
) -> Answer
    requires { (Tested words.old index.old is_sound) × ((found ≡ reading bytes.now) × (cut_short found ≡ false)) }
    ensures { (Meets words.old (judged words.old bytes.now) result words.new) × (Tested words.new index.new is_sound) }
{
    if !is_sound {
        return Answer::Refused(UNSOUND);
    }
    match found {
        Err(rejected) => Answer::Refused(rejected.number),
        Ok(accepted) => {
            let fields = accepted.fields;
            serve_call(words, index, Record { bytes, fields })
        }
    }
}

// An accepted record: its call, and then the index anew where entries were written.
fn serve_call(words: &mut [u32], index: &mut Index, call: Record) -> Answer
    requires { Ready words.old index.old call.bytes.now call.fields }
    ensures { (Meets words.old (step (unpack words.old) (call_in call.entry.bytes.now call.entry.fields)) result words.new) × (Tested words.new index.new true) }
{
    let answer = dispatch(words, index, call);
    if !leaves_entries(call.fields.call, answer) {
        index_anew(words, index);
    }
    answer
}

fn leaves_entries(call: u32, answer: Answer) -> bool
    ensures { result ≡ leaves_entries call answer }
{
    keeps_entries(call) || matches!(answer, Answer::Refused(_))
}

fn index_anew(words: &[u32], index: &mut Index)
    requires { sound words.now ≡ true }
    ensures { Indexed words.now index.new }
{
    *index = Index::new();
    index_entries(words, index);
}
