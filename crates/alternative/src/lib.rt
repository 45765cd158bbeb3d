// Messages and guards of an alternative: when two guards match, the searches in a list of guards, and what a rendezvous hands over.
#![tactic(auto)]

ghost use Rattle.std.specs.Prelude.{◌≡◌};
ghost use Rattle.alternative.specs.Guards.{blank, of_kind, of_rank};
ghost use Rattle.alternative.specs.Kinds.{KindsRefine};
ghost use Rattle.alternative.specs.Ranks.{RanksDecide};

mod exchange;
mod floats;
mod lists;
mod matching;

pub use exchange::{received, sent};
pub use floats::{action_holds_nan, bits_of, float_of};
pub use lists::blanked;
pub use matching::{any_enabled, kept_match, next_enabled};

// Document 01's message: nothing, a whole number, one reading, or a limit of two readings, low and high.
#[derive(Clone, Copy)]
pub enum Message {
    Nothing,
    Whole(i32),
    Reading(f32),
    Limit(f32, f32),
}

// What a guard does: it receives a message, or it sends the one it holds.
#[derive(Clone, Copy)]
pub enum Action {
    Receive,
    Send(Message),
}

// Document 01's guard, with the kind and the rank that document 02 gives it. `partner` is the number of the process that it names.
#[derive(Clone, Copy)]
pub struct Guard {
    pub enabled: bool,
    pub partner: u8,
    pub kind: u8,
    pub rank: u8,
    pub action: Action,
}

// A list of guards as a task offers it: how many there are, and the first eight. An array and a count, since there is no heap, and the
// count may be above eight.
#[derive(Clone, Copy)]
pub struct GuardList {
    pub count: usize,
    pub guards: [Guard; 8],
}

// What stands in a slot past a list's end.
pub fn blank_guard() -> Guard
    ensures { result ≡ blank }
{
    Guard {
        enabled: false,
        partner: 0,
        kind: 0,
        rank: 0,
        action: Action::Receive,
    }
}

// The guard with a kind. This and the next differ in the field that they set, which no parameter could name.
pub fn of_kind(guard: Guard, kind: u8) -> Guard
    ensures { result ≡ of_kind kind guard }
{
    Guard { kind, ..guard }
}

// The guard with a rank.
pub fn of_rank(guard: Guard, rank: u8) -> Guard
    ensures { result ≡ of_rank rank guard }
{
    Guard { rank, ..guard }
}

// Carries that guards match only within a kind, and there as document 01 says.
pub fn kinds_refine()
    ensures { KindsRefine }
{}

// Carries which guard rule 7 keeps: of those that match the one of greatest rank, the first among equals.
pub fn ranks_decide()
    ensures { RanksDecide }
{}
