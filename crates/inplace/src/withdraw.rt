// The call that withdraws an offer.
ghost use Rattle.std.specs.Prelude.{◌≤◌, ◌<◌, ◌≡◌, length, eqb};
ghost use Rattle.rendezvous.specs.Calls.{withdraw};
ghost use Rattle.inplace.specs.Layout.{table_length};
ghost use Rattle.inplace.specs.Reading.{table_of};
ghost use Rattle.inplace.specs.Leaves.{Leaves};
ghost use Rattle.inplace.specs.Private.{Ready, late_by};

use crate::form::admitted;
use crate::layout;
use crate::numbers::long_at;
use records::{ACCEPTING_AT, COMMITTED, MET, PLACE_AT, RECORD_BYTES, SHOWING, WAITING, given_up};
use rendezvous::{Answer, Refusal};
use wire::{long_bytes, put_bytes};

// Whether a commit came first: at C, or at H or W with wake count 1.
fn is_late(tag: u8, accepting: u8) -> bool
    ensures { result ≡ late_by tag accepting }
{
    (tag == COMMITTED) | (((tag == SHOWING) | (tag == WAITING)) & (accepting == 0))
}

// A withdrawal that 7 and 2 do not turn away.
fn given_up_in(t: &mut [u8], p: u8) -> Result<Answer, Refusal>
    requires { (p < 32) × Ready t.old p }
    ensures { Leaves (withdraw (table_of t.old) p) (λ r. eqb r p) t.old t.new result }
{
    let a = layout::HEAD_BYTES + RECORD_BYTES * p as usize;
    let tag = t[a + PLACE_AT];
    if (tag == 0) | (MET <= tag) {
        return Err(Refusal::NothingToWithdraw);
    }
    if is_late(tag, t[a + ACCEPTING_AT]) {
        return Ok(Answer::TooLate);
    }
    let withdrawn = long_at(t, layout::WITHDRAWN_AT) + 1;
    put_bytes(t, layout::WITHDRAWN_AT, &long_bytes(withdrawn));
    given_up(&mut t[a..a + RECORD_BYTES]);
    Ok(Answer::Withdrawn)
}

// Withdraws the offer of process p, if no commit came first.
pub fn withdraw_in(t: &mut [u8], p: u8) -> Result<Answer, Refusal>
    requires { table_length ≤ length t.old }
    ensures { Leaves (withdraw (table_of t.old) p) (λ r. eqb r p) t.old t.new result }
{
    admitted(t, p)?;
    given_up_in(t, p)
}
