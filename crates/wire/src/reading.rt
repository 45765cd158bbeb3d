// What the bytes at the front of a slice are read as. A variant's number is the one that C reads and writes (docs/BYTES.md).
ghost use Rattle.std.specs.Prelude.{◌≡◌};
ghost use Rattle.alternative.specs.Guards.{lent};
ghost use Rattle.wire.specs.Reading.{message_of, action_of, guard_of, place_of, signal_of, guards_of, offer_of, process_of, head_of};

use crate::bytes::{byte_at, from, long_of, word_of};
use crate::layout;
use alternative::{Action, Guard, GuardList, Message, blank_guard, blanked, float_of};
use process::{Place, Process, Signal, TransactionId};
use rendezvous::Head;

#[tactic(auto, unfolding(crate::specs::Reading::message_of))]
pub fn message_of(bytes: &[u8]) -> Message
    ensures { result ≡ message_of bytes.now }
{
    let first = word_of(from(bytes, layout::FIRST_AT));
    match byte_at(bytes, 0) {
        0 => Message::Nothing,
        1 => Message::Whole(first.cast_signed()),
        2 => Message::Reading(float_of(first)),
        _ => Message::Limit(
            float_of(first),
            float_of(word_of(from(bytes, layout::SECOND_AT))),
        ),
    }
}

#[tactic(auto, unfolding(crate::specs::Reading::action_of))]
fn action_of(bytes: &[u8]) -> Action
    ensures { result ≡ action_of bytes.now }
{
    match byte_at(bytes, 0) {
        0 => Action::Receive,
        _ => Action::Send(message_of(from(bytes, layout::SENT_AT))),
    }
}

#[tactic(auto, unfolding(crate::specs::Reading::guard_of))]
fn guard_of(bytes: &[u8]) -> Guard
    ensures { result ≡ guard_of bytes.now }
{
    Guard {
        enabled: byte_at(bytes, 0) != 0,
        partner: byte_at(bytes, 1),
        kind: byte_at(bytes, 2),
        rank: byte_at(bytes, 3),
        action: action_of(from(bytes, layout::ACTION_AT)),
    }
}

#[tactic(auto, unfolding(crate::specs::Reading::place_of))]
fn place_of(bytes: &[u8]) -> Place
    ensures { result ≡ place_of bytes.now }
{
    let i = byte_at(bytes, 1);
    match byte_at(bytes, 0) {
        0 => Place::Idle,
        1 => Place::Entering,
        2 => Place::Scanning(i),
        3 => Place::Trying(i),
        4 => Place::Committed(i, byte_at(bytes, 2)),
        5 => Place::Posting,
        6 => Place::Opening,
        7 => Place::Showing,
        8 => Place::Asleep(i),
        9 => Place::Waiting,
        _ => Place::Met(i, message_of(from(bytes, layout::OUTCOME_AT))),
    }
}

#[tactic(auto, unfolding(crate::specs::Reading::signal_of))]
fn signal_of(bytes: &[u8]) -> Signal
    ensures { result ≡ signal_of bytes.now }
{
    match byte_at(bytes, 0) {
        0 => None,
        _ => Some((
            byte_at(bytes, 1),
            message_of(from(bytes, layout::SIGNALLED_AT)),
        )),
    }
}

fn guards_of(bytes: &[u8]) -> [Guard; layout::SLOTS]
    ensures { result ≡ guards_of bytes.now }
{
    let mut guards = [blank_guard(); layout::SLOTS];
    for (k, g) in guards.iter_mut().enumerate() {
        *g = guard_of(from(bytes, layout::GUARD_BYTES * k));
    }
    guards
}

// The guards of an offer as a list by value: how many there are bytes for, and the first eight.
pub fn offer_of(bytes: &[u8]) -> GuardList
    ensures { result ≡ lent (offer_of bytes.now) }
{
    let count = bytes.len() / layout::GUARD_BYTES;
    GuardList {
        count,
        guards: blanked(guards_of(bytes), count),
    }
}

#[tactic(auto, unfolding(crate::specs::Reading::process_of))]
pub fn process_of(bytes: &[u8]) -> Process
    ensures { result ≡ process_of bytes.now }
{
    Process {
        place: place_of(bytes),
        signal: signal_of(from(bytes, layout::SIGNAL_AT)),
        transaction: TransactionId(word_of(from(bytes, layout::TICKET_AT))),
        accepting: byte_at(bytes, layout::ACCEPTING_AT) != 0,
        count: byte_at(bytes, layout::COUNT_AT),
        altcount: byte_at(bytes, layout::ALTCOUNT_AT),
        guards: guards_of(from(bytes, layout::GUARDS_AT)),
        altlist: guards_of(from(bytes, layout::ALTLIST_AT)),
    }
}

#[tactic(auto, unfolding(crate::specs::Reading::head_of))]
pub fn head_of(bytes: &[u8]) -> Head
    ensures { result ≡ head_of bytes.now }
{
    Head {
        n: byte_at(bytes, 0),
        nap: byte_at(bytes, 1),
        next: TransactionId(word_of(from(bytes, layout::NEXT_AT))),
        meetings: long_of(from(bytes, layout::MEETINGS_AT)),
        withdrawn: long_of(from(bytes, layout::WITHDRAWN_AT)),
    }
}
