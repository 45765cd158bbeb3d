// One process's record, and what is told and done on one or two records: the fifteen rules, and whether a record fits into a table.
#![tactic(auto)]

ghost use Rattle.process.specs.Places.{PlaceTable};
ghost use Rattle.process.specs.Naps.{OldRule2};

use alternative::{Guard, Message};

mod fits;
mod moving;
mod places;
mod record;
mod rules;

pub use fits::{partner_fits, process_fits};
pub use moving::would_change;
pub use record::{fresh_process, guard_at};
pub use rules::rule;

// Document 01's ticket: the number of one offer. It is no process number, and priority goes by it alone.
#[derive(Clone, Copy)]
pub struct TransactionId(pub u32);

// Document 01's signal: absent, or a guard index with a message.
pub type Signal = Option<(u8, Message)>;

// Document 01's place, a word for each letter: I E A T C P O H S W M. A guard's index goes with A, T and C; with C also the kept
// index of the partner's guard; with S the own steps made there (document 02, request 3); with M the outcome, a guard index and a
// message.
#[derive(Clone, Copy)]
pub enum Place {
    Idle,
    Entering,
    Scanning(u8),
    Trying(u8),
    Committed(u8, u8),
    Posting,
    Opening,
    Showing,
    Asleep(u8),
    Waiting,
    Met(u8, Message),
}

// Document 01's word: what others read of a place.
#[derive(Clone, Copy)]
pub enum State {
    Running,
    Alt,
    Sleeping,
    Waiting,
}

// Document 01's party. `guards` with `count` is its own list, `altlist` with `altcount` the posted one; `accepting` is true where
// the wake count is 0. Arrays and counts, since there is no heap, and a count of damaged bytes may be above eight.
#[derive(Clone, Copy)]
pub struct Process {
    pub place: Place,
    pub signal: Signal,
    pub transaction: TransactionId,
    pub accepting: bool,
    pub count: u8,
    pub altcount: u8,
    pub guards: [Guard; 8],
    pub altlist: [Guard; 8],
}

// What a process tells its partner: the partner's wake count and signal.
#[derive(Clone, Copy)]
pub struct Told {
    pub accepting: bool,
    pub signal: Signal,
}

// What a rule changes, where it changes anything: the own record, and what the partner is told, if anything.
#[derive(Clone, Copy)]
pub struct Change {
    pub own: Process,
    pub told: Option<Told>,
}

// Carries document 01's table of places, so that the verdict has a line for it: the letter and the word of each, and where an offer is
// open.
pub fn place_table()
    ensures { PlaceTable }
{}

// Carries the claim that a nap of one step is document 01's rule 2, and that no other rule reads the length of a nap.
pub fn old_rule_2()
    ensures { OldRule2 }
{}
