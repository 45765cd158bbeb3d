// The process table: the calls on it, and what they answer.
#![tactic(auto)]

ghost use Rattle.rendezvous.specs.Forms.{FormsAreWellFormed};
ghost use Rattle.rendezvous.specs.Acts.{AllActsAreCalls};
ghost use Rattle.rendezvous.specs.Movers.{MoversChange};
ghost use Rattle.rendezvous.specs.Withdrawals.{WithdrawsOpen};
ghost use Rattle.rendezvous.specs.WithoutRanks.{CallsWithoutRanks};

use alternative::Message;
use process::{Place, Process, Told, TransactionId};

mod acts;
mod carrying_out;
mod collect;
mod create;
mod lending;
mod numbers;
mod offer;
mod open_count;
mod refusals;
mod runnable;
mod step;
mod well_formed;
mod withdraw;

pub use acts::{alone, collect_act, offer_act, step_act, withdraw_act};
pub use create::fresh_head;
pub use refusals::{create_verdict, list_verdict};
pub use well_formed::{form_end, form_more, form_start, totals_fit};

// The most processes that a table holds, and the transaction number that is never given out.
pub const MOST_PROCESSES: u8 = 32;

pub const LAST_TRANSACTION: u32 = 4294967295;

// What a table holds beside its records: the number of processes, how many own steps a nap takes, the next ticket, and the totals of the
// day sheet, how many rendezvous were committed and how many offers withdrawn.
#[derive(Clone, Copy)]
pub struct Head {
    pub n: u8,
    pub nap: u8,
    pub next: TransactionId,
    pub meetings: u64,
    pub withdrawn: u64,
}

// Document 01's desk: its head, and a record for each process.
#[derive(Clone, Copy)]
pub struct ProcessTable {
    pub head: Head,
    pub processes: [Process; MOST_PROCESSES as usize],
}

// A set of processes: bit p for process p.
pub type ProcessSet = u32;

// What is known of a table's form where some of its records are tested: while its head and these fit, how many of the tickets given out
// their open offers have left.
pub type Form = Option<u32>;

// Why a call is turned away, each by the documents' number.
#[derive(Clone, Copy)]
pub enum Refusal {
    ProcessCount = 1,
    NoSuchProcess = 2,
    GuardCount = 3,
    Partner = 4,
    NotANumber = 5,
    NoneEnabled = 6,
    NotWellFormed = 7,
    NotIdle = 11,
    LastTransaction = 12,
    NotMet = 13,
    NothingToWithdraw = 14,
    NapLength = 15,
}

// What a call says: a table was made; the ticket of an offer; the new place of a step, or that nothing changed; the guard index,
// partner and message of a collection; that an offer is withdrawn, or that a commit came first; the set of processes that can move.
#[derive(Clone, Copy)]
pub enum Answer {
    Made,
    Offered(TransactionId),
    Moved(Place),
    Unchanged,
    Collected(u8, u8, Message),
    Withdrawn,
    TooLate,
    Runnable(ProcessSet),
}

// What a call of one process does: its answer, the table's head, the record of the process, and what it tells its partner, if anything.
#[derive(Clone, Copy)]
pub struct Act {
    pub answer: Result<Answer, Refusal>,
    pub head: Head,
    pub own: Process,
    pub told: Option<Told>,
}

// An answer, and the table that the call hands back.
#[derive(Clone, Copy)]
pub struct Reply {
    pub answer: Result<Answer, Refusal>,
    pub table: ProcessTable,
}

// Carries the claim that the set of `runnable` tells which steps change the table, so that the verdict has a line for it.
pub fn movers_change()
    ensures { MoversChange }
{}

// Carries the claim that the three parts of the form test, over all records, are the test.
pub fn forms_are_well_formed()
    ensures { FormsAreWellFormed }
{}

// Carries the claim that an act, carried out on the table that was read, is the call.
pub fn acts_are_calls()
    ensures { AllActsAreCalls }
{}

// Carries the claim that a withdrawal is answered "withdrawn" exactly where an offer is open, and that it is open no more.
pub fn withdraws_open()
    ensures { WithdrawsOpen }
{}

// Carries the claim that where no guard that is offered has a rank, rule 7 keeps the first guard that matches, as in document 01.
pub fn calls_without_ranks()
    ensures { CallsWithoutRanks }
{}
