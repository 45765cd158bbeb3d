// The place in a record's bytes.
ghost use Rattle.std.specs.Prelude.{◌≤◌, ◌≡◌, length};
ghost use Rattle.records.specs.Layout.{record_length};
ghost use Rattle.records.specs.Reading.{place_of};

use crate::layout;
use process::Place;
use wire::{MESSAGE_BYTES, message_of};

#[tactic(auto, unfolding(crate::specs::Reading::place_of), using(crate::proofs::Tags::last_place))]
pub fn place_in(r: &[u8]) -> Place
    requires { record_length ≤ length r.now }
    ensures { result ≡ place_of r.now }
{
    let i = r[layout::INDEX_AT];
    match r[layout::PLACE_AT] {
        layout::IDLE => Place::Idle,
        layout::ENTERING => Place::Entering,
        layout::SCANNING => Place::Scanning(i),
        layout::TRYING => Place::Trying(i),
        layout::COMMITTED => Place::Committed(i, r[layout::KEPT_AT]),
        layout::POSTING => Place::Posting,
        layout::OPENING => Place::Opening,
        layout::SHOWING => Place::Showing,
        layout::ASLEEP => Place::Asleep(i),
        layout::WAITING => Place::Waiting,
        _ => Place::Met(
            i,
            message_of(&r[layout::OUTCOME_AT..layout::OUTCOME_AT + MESSAGE_BYTES]),
        ),
    }
}
