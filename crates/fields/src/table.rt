// The table of the thirteen calls. Document 01, 'The thirteen calls'.
ghost use Rattle.std.specs.Prelude.{◌≡◌};
ghost use Rattle.model.specs.Records.{keeps_entries, row_of};
ghost use Rattle.fields.specs.Rows.{coded_row, is_call};

// The class of a call; `Unknown` is for a number that is no call's.
// stays: what may not change: row_of can't fail, and its clause gives every number a row, as the model's table does.
#[derive(Clone, Copy)]
pub enum Class {
    Unknown,
    Process,
    Check,
    Use,
    Creation,
    Removal,
}

// What a path's cell asks for.
#[derive(Clone, Copy)]
pub enum Wanted {
    Blank,
    Path,
    Target,
}

// A row: the class, whether the argument is wanted, what path 1 and path 2 are to be.
// stays: no plainer: with named fields each of the thirteen rows below, which stand as document 01 has them, would take six lines.
#[derive(Clone, Copy)]
pub struct Row(pub Class, pub bool, pub Wanted, pub Wanted);

const CALLS: usize = 13;

// stays: what may not change: `fault` and `pack` take any u32 as a call, so that a call is a number and this one's has a name.
pub(crate) const FORK: u32 = 2;

const ROWS: [Row; CALLS] = [
    Row(Class::Process, true, Wanted::Blank, Wanted::Blank), // 1 enter: user
    Row(Class::Process, true, Wanted::Blank, Wanted::Blank), // 2 fork: child
    Row(Class::Process, false, Wanted::Blank, Wanted::Blank), // 3 exec
    Row(Class::Process, false, Wanted::Blank, Wanted::Blank), // 4 exit
    Row(Class::Check, false, Wanted::Path, Wanted::Blank), // 5 check
    Row(Class::Check, false, Wanted::Path, Wanted::Blank), // 6 look
    Row(Class::Use, false, Wanted::Path, Wanted::Blank), // 7 use
    Row(Class::Creation, false, Wanted::Path, Wanted::Blank), // 8 create
    Row(Class::Creation, false, Wanted::Path, Wanted::Blank), // 9 mkdir
    Row(Class::Creation, false, Wanted::Path, Wanted::Target), // 10 symlink
    Row(Class::Creation, false, Wanted::Path, Wanted::Path), // 11 link: new path, old path
    Row(Class::Removal, false, Wanted::Path, Wanted::Blank), // 12 unlink
    Row(Class::Removal, false, Wanted::Path, Wanted::Blank), // 13 rmdir
];

// The row of a number that is no call's.
const NO_ROW: Row = Row(Class::Unknown, false, Wanted::Blank, Wanted::Blank);

// A call's row. A number that is no call's has blanks alone.
pub fn row_of(call: u32) -> Row
    ensures { result ≡ coded_row (row_of call) }
{
    // stays: no plainer: Rust has no `From<u32>` for usize, and try_from's Err never comes.
    let place = call as usize;
    // stays: tried as `ROWS.get(place).copied().unwrap_or(NO_ROW)`: that what `get` looks up is the row of the table stayed open.
    if place < 1 || CALLS < place {
        return NO_ROW;
    }
    ROWS[place - 1]
}

pub(crate) fn is_call(class: Class) -> bool
    ensures { result ≡ is_call class }
{
    !matches!(class, Class::Unknown)
}

// Whether a call leaves the entries as they were, accepted or not: creation and removal do not.
pub fn keeps_entries(call: u32) -> bool
    ensures { result ≡ keeps_entries (row_of call).effect }
{
    let Row(class, _, _, _) = row_of(call);
    !matches!(class, Class::Creation | Class::Removal)
}
