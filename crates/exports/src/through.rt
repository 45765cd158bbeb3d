// f32 values by way of calls on a table that holds them: a refused offer, steps, a collection. The logic has one NaN; that the machine
// keeps a NaN's bits is tested over these.
ghost use Rattle.std.specs.Prelude.{◌≡◌};
ghost use Rattle.rendezvous.specs.Calls.{step};
ghost use Rattle.exports.specs.Private.{facing, on_other, collected_of};

use crate::Pair;
use alternative::{Action, Guard, GuardList, Message, blank_guard};
use process::{Place, Process, TransactionId, fresh_process};
use rendezvous::{Answer, Head, MOST_PROCESSES, ProcessTable, Refusal, fresh_head};
use wire::SLOTS;

// A process that accepts, with one guard on the other of two, in both of its lists.
fn on_other(partner: u8, action: Action, place: Place) -> Process
    ensures { result ≡ on_other partner action place }
{
    let mut guards = [blank_guard(); SLOTS];
    guards[0] = Guard {
        enabled: true,
        partner,
        kind: 0,
        rank: 0,
        action,
    };
    Process {
        place,
        signal: None,
        transaction: TransactionId(0),
        accepting: true,
        count: 1,
        altcount: 1,
        guards,
        altlist: guards,
    }
}

// Process 0 at a place, and process 1, which tries its guard on 0. No run of calls makes this table: no message of one is a NaN. It has
// three tickets for two offers: where 0 is to post its list it accepts already, and its offer counts as open after the commit too.
fn facing_table(place: Place, first: Action, second: Action) -> ProcessTable
    ensures { result ≡ facing place first second }
{
    let mut processes = [fresh_process(); MOST_PROCESSES as usize];
    processes[0] = on_other(1, first, place);
    processes[1] = on_other(0, second, Place::Trying(0));
    let head = Head {
        next: TransactionId(3),
        ..fresh_head(2, 1)
    };
    ProcessTable { head, processes }
}

// The message of a collection.
fn collected_of(answer: Result<Answer, Refusal>) -> Message
    ensures { result ≡ collected_of answer }
{
    match answer {
        Ok(Answer::Collected(_, _, m)) => m,
        _ => Message::Nothing,
    }
}

// The table that an offer of no guards, which is refused, hands back.
fn refused_to(table: ProcessTable) -> ProcessTable
    ensures { result ≡ table }
{
    let none = GuardList {
        count: 0,
        guards: [blank_guard(); SLOTS],
    };
    table.offer_list(0, none).table
}

fn stepped(table: ProcessTable, p: u8) -> ProcessTable
    ensures { result ≡ (step table p).table }
{
    table.step(p).table
}

// A message that process 0 sends: it posts it (rule 10), and process 1 commits (7), takes it (9) and collects it.
fn received(m: Message) -> Message
    ensures { result ≡ m }
{
    let table = refused_to(facing_table(Place::Posting, Action::Send(m), Action::Receive));
    let met = stepped(stepped(stepped(table, 0), 1), 1);
    collected_of(met.collect(1).answer)
}

// A message that process 1 sends: it commits (7) and signals it (9), and process 0 absorbs it (13) and collects it.
fn sent(m: Message) -> Message
    ensures { result ≡ m }
{
    let table = refused_to(facing_table(Place::Waiting, Action::Receive, Action::Send(m)));
    let met = stepped(stepped(stepped(table, 1), 1), 0);
    collected_of(met.collect(0).answer)
}

pub fn reading_through(x: f32) -> f32
    ensures { result ≡ x }
{
    match received(sent(Message::Reading(x))) {
        Message::Reading(y) => y,
        _ => 0.0,
    }
}

pub fn limit_through(low: f32, high: f32) -> Pair
    ensures { (result.0 ≡ low) × (result.1 ≡ high) }
{
    match received(sent(Message::Limit(low, high))) {
        Message::Limit(a, b) => Pair(a, b),
        _ => Pair(0.0, 0.0),
    }
}
