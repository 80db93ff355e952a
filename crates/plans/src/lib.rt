#![tactic(auto)]
// Holds taken over the lent words: planned before anything is written, and fork's copies. Each is what the model's definition of that name gives.
ghost use Rattle.std.specs.Prelude.{[], ◌∷◌, ◌++◌, ◌≢◌, ◌≡◌, ◌≤◌, ◌<◌, length};
ghost use Rattle.model.specs.Lists.{any, count, put};
ghost use Rattle.model.specs.Tables.{hold_rows, free_hold, with_holds};
ghost use Rattle.model.specs.Sound.{same_hold};
ghost use Rattle.model.specs.Holds.{of_process, wanted, no_room, add_holds, copies};
ghost use Rattle.model.specs.Words.{unpack};
ghost use Rattle.rows.specs.Blocks.{Named};
ghost use Rattle.rows.specs.Rows.{hold_of};
ghost use Rattle.rows.specs.Stands.{Stands, Becomes};
ghost use Rattle.goals.specs.Goals.{goal_of, WalkNamed};
ghost use Rattle.plans.specs.Plans.{Fine, plan_room, Planned, same_rows, planned_holds, wanted_row, element_holds, Wished, WalkUsed, PlanFor, copied_at};

use edits::set_hold;
use goals::{Place, Stop, Walk};
use rows::{
    ELEMENT, END, HOLD_ROWS, HoldRow, hold_directory, hold_name, hold_process, hold_role,
    same_blocks,
};
use search::{free_hold_row, free_hold_rows, has_hold};
use std::marker::Model;

// How many holds one call can lack: those on eight elements and on the end.
pub const PLAN_ROOM: usize = 9;

// Holds to be taken, in their order, which is the list that a clause sees. Unused room is blank.
// stays: what may not change: a plan may hold any rows, as it could; Planned is asked where they are compared and written.
#[derive(Clone, Copy)]
pub struct Plan {
    pub count: usize,
    pub rows: [HoldRow; PLAN_ROOM],
}

impl Model for Plan {
    ghost use Rattle.std.specs.Prelude.{List};
    ghost use Rattle.rows.specs.declared.HoldRow.{HoldRow};

    ghost Value = { List HoldRow };

    ghost use Rattle.plans.specs.Room.{used_rows, Padded, padded, padded_back};

    ghost view = { used_rows };

    ghost invariant = { Padded };

    ghost inverse = { padded };

    ghost inverse_ok = { padded_back };
}

impl Plan {
    fn new() -> Plan
        ensures { result ≡ [] }
    {
        Plan {
            count: 0,
            rows: [HoldRow::default(); PLAN_ROOM],
        }
    }

    fn as_slice(&self) -> &[HoldRow]
        ensures { result.now ≡ self.now }
    {
        &self.rows[..self.count]
    }

    fn push(&mut self, hold: HoldRow)
        requires { length self.old < plan_room }
        ensures { self.new ≡ self.old ++ hold ∷ [] }
    {
        self.rows[self.count] = hold;
        self.count += 1;
    }
}

// Every row of a hold is built here.
fn hold_row(place: Place, process: u16, role: u8) -> HoldRow
    ensures { result ≡ wanted_row process role place }
{
    HoldRow {
        directory: place.directory,
        process,
        name: place.name,
        role,
    }
}

// stays: a rule of the project (docs/DECISIONS.md): sameness is by process, role and place alone, so that a hold may get a further field.
fn same_holds(a: HoldRow, b: HoldRow) -> bool
    ensures { result ≡ same_rows a b }
{
    a.process == b.process
        && a.role == b.role
        && a.directory == b.directory
        && same_blocks(a.name, b.name)
}

fn is_planned(plan: &Plan, hold: HoldRow) -> bool
    requires { (Planned plan.now) × (Named hold.name) }
    ensures { result ≡ any (same_hold (hold_of hold)) (planned_holds plan.now) }
{
    plan.as_slice().iter().any(|row| same_holds(hold, *row))
}

// Plans one hold more, where it is lacking.
fn wish(words: &[u32], plan: &mut Plan, hold: HoldRow)
    requires { (Stands words.now) × ((Planned plan.old) × ((length plan.old < plan_room) × (Fine hold))) }
    ensures { Wished (unpack words.now).holds plan.old hold plan.new }
{
    if !has_hold(words, hold) && !is_planned(plan, hold) {
        plan.push(hold);
    }
}

fn plan_elements(words: &[u32], process: u16, walk: Walk) -> Plan
    requires { (Stands words.now) × ((WalkNamed walk) × (WalkUsed walk)) }
    ensures { PlanFor (unpack words.now).holds (element_holds process walk.count walk.elements) result }
{
    let mut plan = Plan::new();
    for place in &walk.elements[..walk.count] {
        wish(words, &mut plan, hold_row(*place, process, ELEMENT));
    }
    plan
}

// The holds that the process lacks at the end of a walk.
pub fn plan_holds(words: &[u32], process: u16, walk: Walk) -> Plan
    requires { (Stands words.now) × ((WalkNamed walk) × (WalkUsed walk)) }
    ensures { PlanFor (unpack words.now).holds (wanted process (goal_of walk)) result }
{
    let mut plan = plan_elements(words, process, walk);
    if let Stop::Entry { place, node: _ } = walk.stop {
        wish(words, &mut plan, hold_row(place, process, END));
    }
    plan
}

pub fn lacks_room(words: &[u32], plan: &Plan) -> bool
    requires { (Stands words.now) × (Planned plan.now) }
    ensures { result ≡ no_room (unpack words.now) (planned_holds plan.now) }
{
    let lacking = plan.as_slice();
    !lacking.is_empty() && free_hold_rows(words) < lacking.len()
}

fn add_hold(words: &mut [u32], hold: HoldRow)
    requires { (Stands words.old) × (Fine hold) }
    ensures { Becomes words.new (with_holds (unpack words.old) (put free_hold (hold_of hold) (unpack words.old).holds)) }
{
    if let Some(row) = free_hold_row(words) {
        set_hold(words, row, hold);
    }
}

pub fn add_planned(words: &mut [u32], plan: &Plan)
    requires { (Stands words.old) × (Planned plan.now) }
    ensures { Becomes words.new (with_holds (unpack words.old) (add_holds (planned_holds plan.now) (unpack words.old).holds)) }
{
    for row in plan.as_slice() {
        add_hold(words, *row);
    }
}

// FORK'S COPIES

// stays: tried, and it misses a bar of speed: `filter(..).count()` here and in search::free_hold_rows jumps at each row, and took 1.6 times as long.
pub fn count_of_process(words: &[u32], process: u16) -> usize
    requires { Stands words.now }
    ensures { result ≡ count (of_process process) (unpack words.now).holds }
{
    let mut count = 0;
    for row in 0..HOLD_ROWS {
        if hold_process(words, row) == process {
            count += 1;
        }
    }
    count
}

fn copy_row(words: &mut [u32], row: usize, parent: u16, child: u16)
    requires { (Stands words.old) × ((row < hold_rows) × (1 ≤ parent)) }
    ensures { Becomes words.new (with_holds (unpack words.old) (copied_at parent child row (unpack words.old).holds)) }
{
    if hold_process(words, row) == parent {
        let place = Place {
            directory: hold_directory(words, row),
            name: hold_name(words, row),
        };
        let role = hold_role(words, row);
        add_hold(words, hold_row(place, child, role));
    }
}

// What is added goes to free rows and is the child's, so that it does not change what is still to be read.
pub fn copy_holds(words: &mut [u32], parent: u16, child: u16)
    requires { (Stands words.old) × ((1 ≤ parent) × (parent ≢ child)) }
    ensures { Becomes words.new (with_holds (unpack words.old) (add_holds (copies parent child (unpack words.old).holds) (unpack words.old).holds)) }
{
    for row in 0..HOLD_ROWS {
        copy_row(words, row, parent, child);
    }
}
