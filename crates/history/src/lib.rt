// Demand 3: what every list of calls leaves behind, stated and proved over the definitions of the calls.
#![tactic(auto)]

ghost use Rattle.history.specs.Demand3.{Demand3};
ghost use Rattle.history.specs.StaysWellFormed.{StaysWellFormed};
ghost use Rattle.history.specs.NothingLost.{NothingLost};
ghost use Rattle.history.specs.Cases.{Starred};
ghost use Rattle.history.specs.Further.{Further, Demand3AtEnds};
ghost use Rattle.history.specs.Withdrawals.{Withdrawals};
ghost use Rattle.history.specs.KindsNeverCross.{KindsNeverCross};
ghost use Rattle.history.specs.KindCases.{KindCases};
ghost use Rattle.history.specs.GreatestRankKept.{GreatestRankKept};
ghost use Rattle.history.specs.RankCases.{RankCases};
ghost use Rattle.history.specs.DaySheet.{DaySheet};
ghost use Rattle.history.specs.SheetCases.{SheetCases};
ghost use Rattle.history.specs.NapsLast.{NapsLast};
ghost use Rattle.history.specs.NapCases.{NapCases};

// Carries demand 3, so that the verdict has a line for it: the claim about every list of calls from any fresh table.
pub fn demand3()
    ensures { Demand3 }
{}

// Carries demand 3 for tables of 2 and of 32 processes, with naps of 1 and of 255 steps: a claim that leaves out an end of either range would not give it.
pub fn demand3_at_ends()
    ensures { Demand3AtEnds }
{}

// Carries the claim that no list of calls damages a table, so that none of them is refused by 7.
pub fn stays_well_formed()
    ensures { StaysWellFormed }
{}

// Carries the claim that nothing committed is lost: what a commit made due stays due until it is collected, and can be collected once nothing can move.
pub fn nothing_lost()
    ensures { NothingLost }
{}

// Carries the starred cases of document 01: in each of them the definitions say what the document says.
pub fn starred_cases()
    ensures { Starred }
{}

// Carries the cases beside the starred ones.
pub fn further_cases()
    ensures { Further }
{}

// Carries the cases of withdrawals: in each of them the definitions say what document 02 says.
pub fn withdrawal_cases()
    ensures { Withdrawals }
{}

// Carries the claim that no list of calls crosses kinds: each rendezvous joins guards of one kind.
pub fn kinds_never_cross()
    ensures { KindsNeverCross }
{}

// Carries the cases of kinds: in each of them the definitions say what document 02 says.
pub fn kind_cases()
    ensures { KindCases }
{}

// Carries the claim that in every list of calls each rendezvous keeps, of the guards that match, the one of greatest rank, the first among equals.
pub fn greatest_rank_kept()
    ensures { GreatestRankKept }
{}

// Carries the cases of ranks: in each of them the definitions say what document 02 says.
pub fn rank_cases()
    ensures { RankCases }
{}

// Carries the claim that in every list of calls a nap lasts its length: d steps in a row are answered S, and the next is not, unless the
// process withdraws.
pub fn naps_last()
    ensures { NapsLast }
{}

// Carries the cases of naps: in each of them the definitions say what document 02 says.
pub fn nap_cases()
    ensures { NapCases }
{}

// Carries the claim that the day sheet adds up: after every list of calls offers = 2 × meetings + withdrawn + open, with the totals of the run and of the accepted offers.
pub fn day_sheet()
    ensures { DaySheet }
{}

// Carries the cases of the day sheet: in each of them the definitions say what document 02 says.
pub fn sheet_cases()
    ensures { SheetCases }
{}
