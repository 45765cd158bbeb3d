// What turns a call away, a new table or a call of one process: the tests in their order, on what the call reads of the table.
ghost use Rattle.std.specs.Prelude.{◌≡◌};
ghost use Rattle.rendezvous.specs.Refusals.{create_verdict, process_tests, require_guards, list_verdict, state_verdict, offer_tests, withdraw_tests};

use crate::well_formed::{count_fits, nap_fits};
use crate::{Head, LAST_TRANSACTION, Refusal};
use alternative::{Guard, GuardList, action_holds_nan, any_enabled};
use process::{Place, TransactionId, partner_fits};

// A new table: 1, then 15.
#[tactic(auto, unfolding(crate::specs::Refusals::create_verdict))]
pub fn create_verdict(n: u8, nap: u8) -> Result<(), Refusal>
    ensures { result ≡ create_verdict n nap }
{
    if !count_fits(n) {
        return Err(Refusal::ProcessCount);
    }
    if nap_fits(nap) {
        Ok(())
    } else {
        Err(Refusal::NapLength)
    }
}

// 7, then 2: `formed` says whether the table of n is well-formed.
pub fn process_verdict(formed: bool, n: u8, p: u8) -> Result<(), Refusal>
    ensures { result ≡ process_tests formed n p (Ok tt) }
{
    if !formed {
        return Err(Refusal::NotWellFormed);
    }
    if p < n {
        Ok(())
    } else {
        Err(Refusal::NoSuchProcess)
    }
}

// 4, then 5, guard by guard.
fn guards_verdict(n: u8, p: u8, guards: &[Guard]) -> Result<(), Refusal>
    ensures { result ≡ require_guards n p guards.now (Ok tt) }
{
    for g in guards {
        if !partner_fits(n, p, *g) {
            return Err(Refusal::Partner);
        }
        if action_holds_nan(g.action) {
            return Err(Refusal::NotANumber);
        }
    }
    Ok(())
}

// 3, then 4 and 5, then 6.
pub fn list_verdict(n: u8, p: u8, list: GuardList) -> Result<(), Refusal>
    ensures { result ≡ list_verdict n p list (Ok tt) }
{
    if list.count < 1 || 8 < list.count {
        return Err(Refusal::GuardCount);
    }
    let guards = list.as_slice();
    guards_verdict(n, p, guards)?;
    if any_enabled(guards) {
        Ok(())
    } else {
        Err(Refusal::NoneEnabled)
    }
}

// From the state: 11, then 12.
#[tactic(auto, unfolding(crate::specs::Refusals::state_verdict))]
fn state_verdict(place: Place, next: TransactionId) -> Result<(), Refusal>
    ensures { result ≡ state_verdict place next }
{
    if !place.is_idle() {
        return Err(Refusal::NotIdle);
    }
    if next.0 < LAST_TRANSACTION {
        Ok(())
    } else {
        Err(Refusal::LastTransaction)
    }
}

// Every refusal of an offer, in its order: `formed` says whether the table is well-formed, `place` is the process's.
pub fn offer_verdict(
    formed: bool,
    head: Head,
    p: u8,
    list: GuardList,
    place: Place,
) -> Result<(), Refusal>
    ensures { result ≡ offer_tests formed head p list place }
{
    process_verdict(formed, head.n, p)?;
    list_verdict(head.n, p, list)?;
    state_verdict(place, head.next)
}

// Every refusal of a withdrawal, in its order: 7, 2, and 14 at I or M.
pub fn withdraw_verdict(formed: bool, n: u8, p: u8, place: Place) -> Result<(), Refusal>
    ensures { result ≡ withdraw_tests formed n p place }
{
    process_verdict(formed, n, p)?;
    if matches!(place, Place::Idle | Place::Met(_, _)) {
        Err(Refusal::NothingToWithdraw)
    } else {
        Ok(())
    }
}
