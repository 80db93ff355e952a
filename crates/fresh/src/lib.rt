#![tactic(auto)]
// Lent words made fresh tables: zeros, but for node 1.
ghost use Rattle.std.specs.Prelude.{◌≡◌, length, replicate};
ghost use Rattle.model.specs.Serve.{made_fresh};
ghost use Rattle.fresh.specs.Prepared.{Prepares};

use model::UNSOUND;
use rows::{Kind, NODES_START, TOP_UNIT, WORD_COUNT};

// The first word of a directory to which no entry leads.
// stays: no plainer: a constant can't call `u32::from`, and written in `fresh` it would lose its name.
const EMPTY_DIRECTORY: u32 = Kind::Directory as u32 * TOP_UNIT;

fn clear_all(words: &mut [u32])
    ensures { words.new ≡ replicate (length words.old) 0 }
{
    words.fill(0);
}

// Makes the words fresh tables; a slice of another length is refused and left as it was.
pub fn fresh(words: &mut [u32]) -> Result<(), u8>
    ensures { Prepares words.old (made_fresh words.old) result words.new }
{
    if words.len() != WORD_COUNT {
        return Err(UNSOUND);
    }
    clear_all(words);
    words[NODES_START] = EMPTY_DIRECTORY;
    Ok(())
}
