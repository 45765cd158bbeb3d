// The script program of documents 01 and 02, from all input bytes to all output bytes: its lines, commands, calls and printed lines.
#![tactic(auto)]

ghost use Rattle.script.specs.Examples.{MarkedSession, CarriedMessages, MalformedLines, ClosedSlots, TwoSensors, Naps, AlarmFirst};
ghost use Rattle.script.specs.Feeding.{Pieces};
ghost use Rattle.script.specs.WithoutRanks.{WithoutRanks};

use rendezvous::ProcessTable;

mod acting;
mod feeding;
mod lines;
mod output;
mod printing;

pub use feeding::{feed, finish, start};
pub use lines::BEGUN_BYTES;

// A session between two pieces of its input: the begun line, which is the first `length` bytes of `bytes`, and the table, once one was
// made. One byte more than a line may have tells an overlong one. An array and its length, since there is no heap.
#[derive(Clone, Copy)]
pub struct Session {
    pub length: usize,
    pub bytes: [u8; BEGUN_BYTES],
    pub table: Option<ProcessTable>,
}

// How many bytes of a piece were taken, how many bytes of the lent output were filled, and the session after them.
#[derive(Clone, Copy)]
pub struct Fed {
    pub taken: usize,
    pub filled: usize,
    pub session: Session,
}

// Carries the claim that the way in which the input is cut into pieces does not matter, so that the verdict has a line for it.
pub fn pieces()
    ensures { Pieces }
{}

// Carries the marked session of document 01, byte for byte.
pub fn marked_session()
    ensures { MarkedSession }
{}

// Carries a limit and a whole number from offer to collection, byte for byte.
pub fn carried_messages()
    ensures { CarriedMessages }
{}

// Carries an example of each line that gives 8.
pub fn malformed_lines()
    ensures { MalformedLines }
{}

// Carries withdrawals before and after a commit, byte for byte.
pub fn closed_slots()
    ensures { ClosedSlots }
{}

// Carries two sensors whose whole numbers would cross without kinds, byte for byte.
pub fn two_sensors()
    ensures { TwoSensors }
{}

// Carries naps of three own steps and of one, and how they are written, byte for byte.
pub fn naps()
    ensures { Naps }
{}

// Carries an alarm that beats a trend line by its rank, and how ranks are written, byte for byte.
pub fn alarm_first()
    ensures { AlarmFirst }
{}

// Carries the claim that in a script without a `^` rule 7 keeps the first guard that matches, as in document 01.
pub fn without_ranks()
    ensures { WithoutRanks }
{}
