// What each call of one process does, from what it reads of the table: what the form test has found of its records, its head, the
// record x of process p, and for a step the record y of the partner q. The calls carry it out on their table, and so does who keeps a
// table in its place: a call by value copies it. The end of the form test is here, since it is by that test that no total overflows.
ghost use Rattle.std.specs.Prelude.{◌≤◌, ◌<◌, ◌≡◌, cond};
ghost use Rattle.rendezvous.specs.Calls.{entering, head_after, commit_came_first, given_up};
ghost use Rattle.rendezvous.specs.Acts.{alone, offer_act, step_act, collect_act, withdraw_act};

use crate::refusals::{offer_verdict, process_verdict, withdraw_verdict};
use crate::well_formed::form_end;
use crate::{Act, Answer, Form, Head, Refusal};
use alternative::{GuardList, blanked};
use process::{Place, Process, TransactionId, guard_at, rule};

// The partner is told nothing.
pub fn alone(answer: Result<Answer, Refusal>, head: Head, own: Process) -> Act
    ensures { result ≡ alone answer head own }
{
    Act {
        answer,
        head,
        own,
        told: None,
    }
}

// The record of a process whose offer is accepted.
#[tactic(auto, unfolding(crate::specs::Calls::entering))]
fn entered(x: &Process, ticket: TransactionId, list: GuardList) -> Process
    requires { list.count ≤ 8 }
    ensures { result ≡ entering x.now ticket list }
{
    Process {
        place: Place::Entering,
        transaction: ticket,
        count: list.count as u8,
        guards: blanked(list.guards, list.count),
        ..*x
    }
}

pub fn offer_act(form: Form, head: Head, p: u8, x: &Process, list: GuardList) -> Act
    ensures { result ≡ offer_act form head p x.now list }
{
    match offer_verdict(form_end(form, head), head, p, list, x.place) {
        Err(refusal) => alone(Err(refusal), head, *x),
        Ok(()) => {
            let ticket = head.next;
            let following = TransactionId(ticket.0 + 1);
            let after = Head {
                next: following,
                ..head
            };
            alone(Ok(Answer::Offered(ticket)), after, entered(x, ticket, list))
        }
    }
}

// The head after a step to this place: the commit, which tells the partner and leads to C, counts.
fn head_after(head: Head, told: bool, place: Place) -> Head
    requires { head.meetings < 18446744073709551615 }
    ensures { result ≡ cond told (head_after head place) head }
{
    if told && matches!(place, Place::Committed(..)) {
        Head {
            meetings: head.meetings + 1,
            ..head
        }
    } else {
        head
    }
}

pub fn step_act(form: Form, head: Head, p: u8, x: &Process, q: u8, y: &Process) -> Act
    ensures { result ≡ step_act form head p x.now q y.now }
{
    if let Err(refusal) = process_verdict(form_end(form, head), head.n, p) {
        return alone(Err(refusal), head, *x);
    }
    let Some(change) = rule(head.nap, p, x, q, y) else {
        return alone(Ok(Answer::Unchanged), head, *x);
    };
    Act {
        answer: Ok(Answer::Moved(change.own.place)),
        head: head_after(head, change.told.is_some(), change.own.place),
        own: change.own,
        told: change.told,
    }
}

pub fn collect_act(form: Form, head: Head, p: u8, x: &Process) -> Act
    ensures { result ≡ collect_act form head p x.now }
{
    match process_verdict(form_end(form, head), head.n, p) {
        Err(refusal) => alone(Err(refusal), head, *x),
        Ok(()) => match x.place.outcome() {
            None => alone(Err(Refusal::NotMet), head, *x),
            Some((index, m)) => {
                let g = guard_at(x.own_list(), index);
                let answer = Ok(Answer::Collected(index, g.partner, m));
                alone(answer, head, x.at_place(Place::Idle))
            }
        },
    }
}

// At C, or at H or W with wake count 1.
fn commit_came_first(place: Place, accepting: bool) -> bool
    ensures { result ≡ commit_came_first place accepting }
{
    match place {
        Place::Committed(..) => true,
        Place::Showing | Place::Waiting => !accepting,
        _ => false,
    }
}

// The record of a process whose offer is withdrawn.
fn given_up(x: &Process) -> Process
    ensures { result ≡ given_up x.now }
{
    x.told(false, x.signal).at_place(Place::Idle)
}

pub fn withdraw_act(form: Form, head: Head, p: u8, x: &Process) -> Act
    ensures { result ≡ withdraw_act form head p x.now }
{
    match withdraw_verdict(form_end(form, head), head.n, p, x.place) {
        Err(refusal) => alone(Err(refusal), head, *x),
        Ok(()) => {
            let after = Head {
                withdrawn: head.withdrawn + 1,
                ..head
            };
            if commit_came_first(x.place, x.accepting) {
                alone(Ok(Answer::TooLate), head, *x)
            } else {
                alone(Ok(Answer::Withdrawn), after, given_up(x))
            }
        }
    }
}
