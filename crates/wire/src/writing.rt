// The bytes of what a table holds.
ghost use Rattle.std.specs.Prelude.{◌≡◌, ◌+◌, ◌∷◌, ◌++◌, length};
ghost use Rattle.wire.specs.Layout.{message_length};
ghost use Rattle.wire.specs.Writing.{flag, word_bytes, message_bytes, guard_bytes, place_bytes, signal_bytes, guards_bytes, process_bytes, head_bytes};

use crate::bytes::{long_bytes, put_bytes, word_bytes};
use crate::layout;
use alternative::{Action, Guard, Message, bits_of};
use process::{Place, Process, Signal};
use rendezvous::Head;

pub fn flag_byte(b: bool) -> u8
    ensures { result ≡ flag b }
{
    u8::from(b)
}

#[tactic(auto, unfolding(crate::specs::Writing::word_bytes))]
fn tag_and_words(tag: u8, first: u32, second: u32) -> [u8; layout::MESSAGE_BYTES]
    ensures { result ≡ tag ∷ word_bytes first ++ word_bytes second }
{
    let [a, b, c, d] = word_bytes(first);
    let [e, f, g, h] = word_bytes(second);
    [tag, a, b, c, d, e, f, g, h]
}

#[tactic(auto, unfolding(crate::specs::Writing::message_bytes))]
pub fn message_bytes(m: Message) -> [u8; layout::MESSAGE_BYTES]
    ensures { result ≡ message_bytes m }
{
    match m {
        Message::Nothing => tag_and_words(0, 0, 0),
        Message::Whole(x) => tag_and_words(1, x.cast_unsigned(), 0),
        Message::Reading(x) => tag_and_words(2, bits_of(x), 0),
        Message::Limit(low, high) => tag_and_words(3, bits_of(low), bits_of(high)),
    }
}

// The bytes of a part that ends in a message: those of its head, and the message's.
fn with_message<const N: usize>(head: &[u8], m: Message) -> [u8; N]
    requires { length head.now + message_length ≡ N }
    ensures { result ≡ head.now ++ message_bytes m }
{
    let mut out = [0; N];
    put_bytes(&mut out, 0, head);
    put_bytes(&mut out, head.len(), &message_bytes(m));
    out
}

// A guard: enabled, the partner, the kind, the rank, the action's variant, its message.
#[tactic(auto, unfolding(crate::specs::Writing::guard_bytes, crate::specs::Writing::action_bytes))]
fn guard_bytes(g: &Guard) -> [u8; layout::GUARD_BYTES]
    ensures { result ≡ guard_bytes g.now }
{
    let enabled = flag_byte(g.enabled);
    match g.action {
        Action::Receive => with_message(&[enabled, g.partner, g.kind, g.rank, 0], Message::Nothing),
        Action::Send(m) => with_message(&[enabled, g.partner, g.kind, g.rank, 1], m),
    }
}

// A place: its variant, its index or its steps, the kept index, its message.
#[tactic(auto, unfolding(crate::specs::Writing::place_bytes))]
fn place_bytes(place: Place) -> [u8; layout::PLACE_BYTES]
    ensures { result ≡ place_bytes place }
{
    match place {
        Place::Idle => with_message(&[0, 0, 0], Message::Nothing),
        Place::Entering => with_message(&[1, 0, 0], Message::Nothing),
        Place::Scanning(i) => with_message(&[2, i, 0], Message::Nothing),
        Place::Trying(i) => with_message(&[3, i, 0], Message::Nothing),
        Place::Committed(i, kept) => with_message(&[4, i, kept], Message::Nothing),
        Place::Posting => with_message(&[5, 0, 0], Message::Nothing),
        Place::Opening => with_message(&[6, 0, 0], Message::Nothing),
        Place::Showing => with_message(&[7, 0, 0], Message::Nothing),
        Place::Asleep(steps) => with_message(&[8, steps, 0], Message::Nothing),
        Place::Waiting => with_message(&[9, 0, 0], Message::Nothing),
        Place::Met(i, m) => with_message(&[10, i, 0], m),
    }
}

// A signal: its variant, the index, its message.
#[tactic(auto, unfolding(crate::specs::Writing::signal_bytes))]
fn signal_bytes(signal: Signal) -> [u8; layout::SIGNAL_BYTES]
    ensures { result ≡ signal_bytes signal }
{
    match signal {
        None => with_message(&[0, 0], Message::Nothing),
        Some((i, m)) => with_message(&[1, i], m),
    }
}

fn guards_bytes(guards: &[Guard; layout::SLOTS]) -> [u8; layout::GUARDS_BYTES]
    ensures { result ≡ guards_bytes guards.now }
{
    let mut out = [0; layout::GUARDS_BYTES];
    for (k, g) in guards.iter().enumerate() {
        put_bytes(&mut out, layout::GUARD_BYTES * k, &guard_bytes(g));
    }
    out
}

pub fn process_bytes(x: &Process) -> [u8; layout::RECORD_BYTES]
    ensures { result ≡ process_bytes x.now }
{
    let mut out = [0; layout::RECORD_BYTES];
    put_bytes(&mut out, 0, &place_bytes(x.place));
    put_bytes(&mut out, layout::SIGNAL_AT, &signal_bytes(x.signal));
    put_bytes(&mut out, layout::TICKET_AT, &word_bytes(x.transaction.0));
    put_bytes(
        &mut out,
        layout::ACCEPTING_AT,
        &[flag_byte(x.accepting), x.count, x.altcount],
    );
    put_bytes(&mut out, layout::GUARDS_AT, &guards_bytes(&x.guards));
    put_bytes(&mut out, layout::ALTLIST_AT, &guards_bytes(&x.altlist));
    out
}

#[tactic(auto, unfolding(crate::specs::Writing::head_bytes, crate::specs::Writing::word_bytes, crate::specs::Writing::long_bytes))]
pub fn head_bytes(h: &Head) -> [u8; layout::HEAD_BYTES]
    ensures { result ≡ head_bytes h.now }
{
    let mut out = [0; layout::HEAD_BYTES];
    put_bytes(&mut out, 0, &[h.n, h.nap]);
    put_bytes(&mut out, layout::NEXT_AT, &word_bytes(h.next.0));
    put_bytes(&mut out, layout::MEETINGS_AT, &long_bytes(h.meetings));
    put_bytes(&mut out, layout::WITHDRAWN_AT, &long_bytes(h.withdrawn));
    out
}
