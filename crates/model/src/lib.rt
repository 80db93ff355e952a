#![tactic(auto)]
// What a call answers: document 01, 'Numbers given back' and 'Forms by place in the code'.
#[derive(Clone, Copy)]
pub enum Answer {
    Held(u16),
    Seen(u16),
    Done(u16),
    Refused(u8),
}

// What serving one record answers, and how many bytes of the record it took.
#[derive(Clone, Copy)]
pub struct Verdict {
    pub answer: Answer,
    pub taken: usize,
}

// The numbers that refusals give: document 01, 'Numbers given back'.
// stays: a rule of the project: document 01's form is Refused(number), and public functions (holds::end_held, say) take a `goals::Stop` refused with any number.
pub const UNSOUND: u8 = 1;

pub const BAD_FIELD: u8 = 2;

pub const BAD_PATH: u8 = 3;

pub const NOT_LISTED: u8 = 4;

pub const ALREADY_LISTED: u8 = 5;

pub const NO_PROCESS_ROW: u8 = 6;

pub const NINTH_LINK: u8 = 7;

pub const NAME_MISSING: u8 = 8;

pub const NAME_IS_FILE: u8 = 9;

pub const ABSENT: u8 = 10;

pub const PRESENT: u8 = 11;

pub const WRONG_KIND: u8 = 12;

pub const NOT_EMPTY: u8 = 13;

pub const HELD_BY_ANOTHER: u8 = 14;

pub const NO_NAME_ROW: u8 = 15;

pub const NO_HOLD_ROW: u8 = 16;

pub const SHORT_RECORD: u8 = 17;

pub const SHORT_DESTINATION: u8 = 18;
