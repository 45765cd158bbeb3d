// The call that offers a list.
ghost use Rattle.std.specs.Prelude.{◌≤◌, ◌<◌, ◌≡◌, length, eqb};
ghost use Rattle.wire.specs.Reading.{byte};
ghost use Rattle.rendezvous.specs.Refusals.{list_verdict};
ghost use Rattle.rendezvous.specs.Calls.{offer_list};
ghost use Rattle.inplace.specs.Layout.{table_length, count_at};
ghost use Rattle.inplace.specs.Reading.{table_of};
ghost use Rattle.inplace.specs.Leaves.{Leaves};
ghost use Rattle.inplace.specs.Private.{Ready};

use crate::form::admitted;
use crate::layout;
use crate::numbers::word_at;
use alternative::GuardList;
use process::TransactionId;
use records::{PLACE_AT, RECORD_BYTES, entered};
use rendezvous::{Answer, LAST_TRANSACTION, Refusal, list_verdict};
use wire::{put_bytes, word_bytes};

// An offer that is turned away by nothing but the state, 11 and 12.
fn entered_in(t: &mut [u8], p: u8, list: GuardList) -> Result<Answer, Refusal>
    requires { (p < 32) × Ready t.old p × (list_verdict (byte t.old count_at) p list (Ok tt) ≡ Ok tt) }
    ensures { Leaves (offer_list (table_of t.old) p list) (λ r. eqb r p) t.old t.new result }
{
    let a = layout::HEAD_BYTES + RECORD_BYTES * p as usize;
    if t[a + PLACE_AT] != 0 {
        return Err(Refusal::NotIdle);
    }
    let next = word_at(t, layout::NEXT_AT);
    if next == LAST_TRANSACTION {
        return Err(Refusal::LastTransaction);
    }
    put_bytes(t, layout::NEXT_AT, &word_bytes(next + 1));
    entered(&mut t[a..a + RECORD_BYTES], TransactionId(next), list);
    Ok(Answer::Offered(TransactionId(next)))
}

// Offers a list for process p, and gives the offer's ticket.
pub fn offer_in(t: &mut [u8], p: u8, list: GuardList) -> Result<Answer, Refusal>
    requires { table_length ≤ length t.old }
    ensures { Leaves (offer_list (table_of t.old) p list) (λ r. eqb r p) t.old t.new result }
{
    admitted(t, p)?;
    list_verdict(t[layout::COUNT_AT], p, list)?;
    entered_in(t, p, list)
}
