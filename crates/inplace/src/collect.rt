// The call that collects an outcome.
ghost use Rattle.std.specs.Prelude.{◌≤◌, ◌<◌, length, eqb};
ghost use Rattle.rendezvous.specs.Calls.{collect};
ghost use Rattle.inplace.specs.Layout.{table_length};
ghost use Rattle.inplace.specs.Reading.{table_of};
ghost use Rattle.inplace.specs.Leaves.{Leaves};
ghost use Rattle.inplace.specs.Private.{Ready};

use crate::form::admitted;
use crate::layout;
use records::{INDEX_AT, MET, OUTCOME_AT, PARTNERS_AT, PLACE_AT, RECORD_BYTES, idle};
use rendezvous::{Answer, Refusal};
use wire::{MESSAGE_BYTES, message_of};

// A collection that 7 and 2 do not turn away.
fn collected_in(t: &mut [u8], p: u8) -> Result<Answer, Refusal>
    requires { (p < 32) × Ready t.old p }
    ensures { Leaves (collect (table_of t.old) p) (λ r. eqb r p) t.old t.new result }
{
    let a = layout::HEAD_BYTES + RECORD_BYTES * p as usize;
    if t[a + PLACE_AT] < MET {
        return Err(Refusal::NotMet);
    }
    let i = t[a + INDEX_AT];
    let q = t[a + PARTNERS_AT + i as usize];
    let o = a + OUTCOME_AT;
    let m = message_of(&t[o..o + MESSAGE_BYTES]);
    idle(&mut t[a..a + RECORD_BYTES]);
    Ok(Answer::Collected(i, q, m))
}

// Takes the outcome of process p: guard index, partner and message.
pub fn collect_in(t: &mut [u8], p: u8) -> Result<Answer, Refusal>
    requires { table_length ≤ length t.old }
    ensures { Leaves (collect (table_of t.old) p) (λ r. eqb r p) t.old t.new result }
{
    admitted(t, p)?;
    collected_in(t, p)
}
