#![tactic(auto)]
// The service: one record served over lent tables. Document 01, 'Numbers given back'.
ghost use Rattle.std.specs.Prelude.{◌≡◌};
ghost use Rattle.model.specs.Serve.{judged};
ghost use Rattle.records.specs.Reading.{reading};
ghost use Rattle.rows.specs.Meets.{Meets};
ghost use Rattle.service.specs.Serves.{Serves};

use dispatch::dispatch;
use index::Index;
use model::{Answer, SHORT_RECORD, UNSOUND, Verdict};
use reaching::Record;
use records::{Reading, is_cut_short, read, taken_of};
use soundness::sound_and_index;

// Serves the record at the front of the bytes: the answer and the bytes taken. A refusal changes no word.
pub fn serve(words: &mut [u32], record: &[u8]) -> Verdict
    ensures { Serves words.old «record».now result words.new }
{
    let found = read(record);
    let taken = taken_of(found);
    let answer = judge(words, record, found);
    Verdict { answer, taken }
}

// Too few bytes come before the test of the tables, and that before all else that reading found.
fn judge(words: &mut [u32], bytes: &[u8], found: Reading) -> Answer
    requires { found ≡ reading bytes.now }
    ensures { Meets words.old (judged words.old bytes.now) result words.new }
{
    if is_cut_short(found) {
        return Answer::Refused(SHORT_RECORD);
    }
    let mut index = Index::new();
    if !sound_and_index(words, &mut index) {
        return Answer::Refused(UNSOUND);
    }
    match found {
        Err(rejected) => Answer::Refused(rejected.number),
        Ok(accepted) => {
            let fields = accepted.fields;
            dispatch(words, &index, Record { bytes, fields })
        }
    }
}
