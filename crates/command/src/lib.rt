// One line of a script: the command that its bytes write, or malformed.
#![tactic(auto)]

ghost use Rattle.command.specs.Cases.{LineCases};
ghost use Rattle.command.specs.KindLeftOut.{KindLeftOut};
ghost use Rattle.command.specs.RankLeftOut.{RankLeftOut};

use alternative::GuardList;

mod commands;
mod fields;
mod guards;
mod lists;
mod messages;
mod offers;
mod tables;

pub use commands::parse;

// A call of process p.
#[derive(Clone, Copy)]
pub enum Call {
    Offer { p: u8, list: GuardList },
    Step(u8),
    Collect(u8),
    Withdraw(u8),
}

// A command: a new table of n processes with naps of `nap` steps, a call of one process, or the question which can move.
#[derive(Clone, Copy)]
pub enum Command {
    New { n: u8, nap: u8 },
    Do(Call),
    Movers,
}

// Carries the cases: of some lines the definitions say what the documents say.
pub fn line_cases()
    ensures { LineCases }
{}

// Carries that what stands before a guard's rank, without a `:`, is read as document 01 has it, with kind 0.
pub fn kind_left_out()
    ensures { KindLeftOut }
{}

// Carries that guards without a `^` are read as document 01 and CR 2 have them, and that a line without one offers guards of rank 0 alone.
pub fn rank_left_out()
    ensures { RankLeftOut }
{}
