// What is written into one record, which is lent: each changes what it names and no other part of the record. Each place that a record goes to
// has a function of its own: one over the place's tag would say in its contract, tag by tag, what the place carries, for two shared lines.
ghost use Rattle.std.specs.Prelude.{◌+◌, ◌≤◌, ◌≡◌, true, false, length};
ghost use Rattle.std.proofs.lemmas.List.Edits.{sets};
ghost use Rattle.process.specs.Rules.{at_place, with_signal, with_accepting, with_own_posted};
ghost use Rattle.rendezvous.specs.Calls.{given_up};
ghost use Rattle.wire.specs.Layout.{message_length};
ghost use Rattle.wire.specs.Reading.{byte, message_of};
ghost use Rattle.records.specs.Types.{Place};
ghost use Rattle.records.specs.Layout.{part, record_length, index_at, signal_index_at, signalled_at};
ghost use Rattle.records.specs.Reading.{process_of};

use crate::layout;
use wire::MESSAGE_BYTES;

// Writes a message's bytes from byte `at` on. Unlike `put_bytes` it tests no byte for the end.
pub fn put_message(r: &mut [u8], at: usize, m: [u8; MESSAGE_BYTES])
    requires { at + message_length ≤ length r.old }
    ensures { r.new ≡ sets r.old at m }
{
    r[at..at + MESSAGE_BYTES].copy_from_slice(&m);
}

// The place becomes I.
#[tactic(auto, using(crate::proofs::Records::idle_is))]
pub fn idle(r: &mut [u8])
    requires { record_length ≤ length r.old }
    ensures { process_of r.new ≡ at_place (process_of r.old) Place.Idle }
{
    r[layout::PLACE_AT] = layout::IDLE;
}

// To A at guard i.
#[tactic(auto, using(crate::proofs::Records::scanning_is))]
pub fn scanning(r: &mut [u8], i: u8)
    requires { record_length ≤ length r.old }
    ensures { process_of r.new ≡ at_place (process_of r.old) (Place.Scanning i) }
{
    r[layout::PLACE_AT] = layout::SCANNING;
    r[layout::INDEX_AT] = i;
}

#[tactic(auto, using(crate::proofs::Records::posting_is))]
pub fn posting(r: &mut [u8])
    requires { record_length ≤ length r.old }
    ensures { process_of r.new ≡ at_place (process_of r.old) Place.Posting }
{
    r[layout::PLACE_AT] = layout::POSTING;
}

// To S, with so many own steps made there.
#[tactic(auto, using(crate::proofs::Records::asleep_is))]
pub fn asleep(r: &mut [u8], steps: u8)
    requires { record_length ≤ length r.old }
    ensures { process_of r.new ≡ at_place (process_of r.old) (Place.Asleep steps) }
{
    r[layout::PLACE_AT] = layout::ASLEEP;
    r[layout::INDEX_AT] = steps;
}

// Rule 4: to T, same guard.
#[tactic(auto, using(crate::proofs::Records::trying_is))]
pub fn trying(r: &mut [u8])
    requires { record_length ≤ length r.old }
    ensures { process_of r.new ≡ at_place (process_of r.old) (Place.Trying (byte r.old index_at)) }
{
    r[layout::PLACE_AT] = layout::TRYING;
}

// Rule 7, the own record: to C, same guard.
#[tactic(auto, using(crate::proofs::Records::committed_is))]
pub fn committed(r: &mut [u8], kept: u8)
    requires { record_length ≤ length r.old }
    ensures { process_of r.new ≡ at_place (process_of r.old) (Place.Committed (byte r.old index_at) kept) }
{
    r[layout::PLACE_AT] = layout::COMMITTED;
    r[layout::KEPT_AT] = kept;
}

// Rule 7, the partner's record: its wake count becomes 1.
#[tactic(auto, using(crate::proofs::Records::closed_is))]
pub fn closed(r: &mut [u8])
    requires { record_length ≤ length r.old }
    ensures { process_of r.new ≡ with_accepting (process_of r.old) false }
{
    r[layout::ACCEPTING_AT] = 0;
}

// Rule 9, the own record: to M, same guard.
pub fn met(r: &mut [u8], m: [u8; MESSAGE_BYTES])
    requires { record_length ≤ length r.old }
    ensures { process_of r.new ≡ at_place (process_of r.old) (Place.Met (byte r.old index_at) (message_of m)) }
{
    put_message(r, layout::OUTCOME_AT, m);
    r[layout::PLACE_AT] = layout::MET;
}

// Rule 9, the partner's record: its signal becomes the kept index with a message.
pub fn signalled(r: &mut [u8], kept: u8, m: [u8; MESSAGE_BYTES])
    requires { record_length ≤ length r.old }
    ensures { process_of r.new ≡ with_signal (process_of r.old) (Some (kept, message_of m)) }
{
    put_message(r, layout::SIGNALLED_AT, m);
    r[layout::SIGNAL_AT] = 1;
    r[layout::SIGNAL_INDEX_AT] = kept;
}

// Rule 10.
pub fn posted(r: &mut [u8])
    requires { record_length ≤ length r.old }
    ensures { process_of r.new ≡ at_place (with_own_posted (process_of r.old)) Place.Opening }
{
    r.copy_within(
        layout::PARTNERS_AT..layout::PARTNERS_AT + 8,
        layout::POSTED_PARTNERS_AT,
    );
    r.copy_within(
        layout::OWN_AT..layout::OWN_AT + layout::REST_BYTES,
        layout::POSTED_AT,
    );
    r[layout::ALTCOUNT_AT] = r[layout::COUNT_AT];
    r[layout::PLACE_AT] = layout::OPENING;
}

// Rule 11.
#[tactic(auto, using(crate::proofs::Records::showing_is))]
pub fn showing(r: &mut [u8])
    requires { record_length ≤ length r.old }
    ensures { process_of r.new ≡ at_place (with_accepting (process_of r.old) true) Place.Showing }
{
    r[layout::ACCEPTING_AT] = 1;
    r[layout::PLACE_AT] = layout::SHOWING;
}

// Rule 12.
#[tactic(auto, using(crate::proofs::Records::waiting_is))]
pub fn waiting(r: &mut [u8])
    requires { record_length ≤ length r.old }
    ensures { process_of r.new ≡ at_place (process_of r.old) Place.Waiting }
{
    r[layout::PLACE_AT] = layout::WAITING;
}

// Rule 13, of a signal that is present.
pub fn absorbed(r: &mut [u8])
    requires { record_length ≤ length r.old }
    ensures { process_of r.new ≡ at_place (with_signal (process_of r.old) None) (Place.Met (byte r.old signal_index_at) (message_of (part r.old signalled_at 9))) }
{
    r.copy_within(
        layout::SIGNALLED_AT..layout::SIGNALLED_AT + MESSAGE_BYTES,
        layout::OUTCOME_AT,
    );
    r[layout::INDEX_AT] = r[layout::SIGNAL_INDEX_AT];
    r[layout::SIGNAL_AT] = 0;
    r[layout::PLACE_AT] = layout::MET;
}

// A withdrawal: the wake count becomes 1, the place I.
#[tactic(auto, using(crate::proofs::Records::given_up_is))]
pub fn given_up(r: &mut [u8])
    requires { record_length ≤ length r.old }
    ensures { process_of r.new ≡ given_up (process_of r.old) }
{
    r[layout::ACCEPTING_AT] = 0;
    r[layout::PLACE_AT] = layout::IDLE;
}
