#![tactic(auto)]
// The table of calls, and the tests that reading and packing make of a call's fields by it: document 01's numbers 2 and 3.
ghost use Rattle.std.specs.Prelude.{◌≡◌, ◌||◌};
ghost use Rattle.model.specs.Records.{not_blank, not_valid, well_formed};
ghost use Rattle.fields.specs.Rows.{meant};
ghost use Rattle.fields.specs.Given.{given, numbers_broken, fault_of};

pub mod table;

use model::{BAD_FIELD, BAD_PATH};
use table::{Row, Wanted};

// The numbers in a record's head but for the paths' lengths.
#[derive(Clone, Copy)]
pub struct Numbers {
    pub call: u32,
    pub process: u16,
    pub argument: u16,
    pub zeros: u8,
}

// Refuses a call's fields with the number that reading and packing give back: the numbers and blank cells before the paths.
pub fn fault(numbers: Numbers, path1: &[u8], path2: &[u8]) -> Result<(), u8>
    ensures { result ≡ fault_of (well_formed (given numbers path1.now path2.now)) }
{
    let row = table::row_of(numbers.call);
    if fields_broken(row, numbers, path1, path2) {
        return Err(BAD_FIELD);
    }
    if paths_broken(row, path1, path2) {
        return Err(BAD_PATH);
    }
    Ok(())
}

// The numbers, or a path where the row has a blank.
fn fields_broken(row: Row, numbers: Numbers, path1: &[u8], path2: &[u8]) -> bool
    ensures { result ≡ (numbers_broken numbers row || not_blank (meant row.2) path1.now || not_blank (meant row.3) path2.now) }
{
    let Row(_, _, wanted1, wanted2) = row;
    numbers_broken(numbers, row) || filled_blank(wanted1, path1) || filled_blank(wanted2, path2)
}

fn paths_broken(row: Row, path1: &[u8], path2: &[u8]) -> bool
    ensures { result ≡ (not_valid (meant row.2) path1.now || not_valid (meant row.3) path2.now) }
{
    let Row(_, _, wanted1, wanted2) = row;
    not_valid(wanted1, path1) || not_valid(wanted2, path2)
}

// What is wrong in the numbers alone, by the call's row.
fn numbers_broken(numbers: Numbers, row: Row) -> bool
    ensures { result ≡ numbers_broken numbers row }
{
    let Row(class, argument_wanted, _, _) = row;
    if !table::is_call(class) || numbers.process == 0 || numbers.zeros != 0 {
        return true;
    }
    if numbers.argument == 0 {
        return numbers.call == table::FORK;
    }
    !argument_wanted
}

fn filled_blank(wanted: Wanted, path: &[u8]) -> bool
    ensures { result ≡ not_blank (meant wanted) path.now }
{
    matches!(wanted, Wanted::Blank) && !path.is_empty()
}

fn not_valid(wanted: Wanted, path: &[u8]) -> bool
    ensures { result ≡ not_valid (meant wanted) path.now }
{
    match wanted {
        Wanted::Blank => false,
        Wanted::Path => !paths::valid_path(path),
        Wanted::Target => !paths::valid_target(path),
    }
}
