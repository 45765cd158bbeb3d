// The call that moves one process by one rule.
ghost use Rattle.std.specs.Prelude.{◌≤◌, ◌<◌, true, length};
ghost use Rattle.rendezvous.specs.Calls.{step};
ghost use Rattle.inplace.specs.Layout.{table_length};
ghost use Rattle.inplace.specs.Reading.{table_of};
ghost use Rattle.inplace.specs.Calls.{stepped_by};
ghost use Rattle.inplace.specs.Leaves.{Leaves};
ghost use Rattle.inplace.specs.Private.{Ready, Paired, Steps, Keeps};

use crate::form::admitted;
use crate::layout;
use crate::numbers::{long_at, word_at};
use records::{
    ACCEPTING_AT, COMMITTED, INDEX_AT, KEPT_AT, OWN_AT, PARTNERS_AT, PLACE_AT, RECORD_BYTES,
    SCANNING, TICKET_AT, closed, committed, kept_in, met, own_rule, place_in, received_bytes,
    scan_rule, scanned, sent_bytes, signalled,
};
use rendezvous::{Answer, Refusal};
use wire::{long_bytes, put_bytes};

// Rules 3 to 6, at A; q is the partner.
fn scan_in(t: &mut [u8], p: u8, q: u8) -> bool
    requires { Paired t.old p q 2 }
    ensures { Steps t.old p t.new result }
{
    let a = layout::HEAD_BYTES + RECORD_BYTES * p as usize;
    let b = layout::HEAD_BYTES + RECORD_BYTES * q as usize;
    let other = t[b + PLACE_AT];
    let older = word_at(t, b + TICKET_AT) < word_at(t, a + TICKET_AT);
    scan_rule(&mut t[a..a + RECORD_BYTES], other, older)
}

// Rule 7: what is written where posted guard `kept` of q is kept.
fn commit_in(t: &mut [u8], p: u8, q: u8, kept: u8)
    requires { Paired t.old p q 3 × Keeps t.old p q kept }
    ensures { Steps t.old p t.new true }
{
    let a = layout::HEAD_BYTES + RECORD_BYTES * p as usize;
    let b = layout::HEAD_BYTES + RECORD_BYTES * q as usize;
    let meetings = long_at(t, layout::MEETINGS_AT) + 1;
    put_bytes(t, layout::MEETINGS_AT, &long_bytes(meetings));
    closed(&mut t[b..b + RECORD_BYTES]);
    committed(&mut t[a..a + RECORD_BYTES], kept);
}

// Rules 7 and 8, at T; q is the partner.
fn try_in(t: &mut [u8], p: u8, q: u8) -> bool
    requires { Paired t.old p q 3 }
    ensures { Steps t.old p t.new result }
{
    let a = layout::HEAD_BYTES + RECORD_BYTES * p as usize;
    let b = layout::HEAD_BYTES + RECORD_BYTES * q as usize;
    let i = t[a + INDEX_AT];
    if t[b + ACCEPTING_AT] != 0 {
        let kept = kept_in(&t[a..a + RECORD_BYTES], &t[b..b + RECORD_BYTES], p, q, i);
        if let Some(kept) = kept {
            commit_in(t, p, q, kept);
            return true;
        }
    }
    scanned(&mut t[a..a + RECORD_BYTES], i + 1);
    true
}

// Rule 9, at C; q is the partner.
fn hand_over_in(t: &mut [u8], p: u8, q: u8) -> bool
    requires { Paired t.old p q 4 }
    ensures { Steps t.old p t.new result }
{
    let a = layout::HEAD_BYTES + RECORD_BYTES * p as usize;
    let b = layout::HEAD_BYTES + RECORD_BYTES * q as usize;
    let i = t[a + INDEX_AT];
    let kept = t[a + KEPT_AT];
    let sent = sent_bytes(&t[a..a + RECORD_BYTES], OWN_AT, i);
    let received = received_bytes(&t[a..a + RECORD_BYTES], &t[b..b + RECORD_BYTES], i, kept);
    signalled(&mut t[b..b + RECORD_BYTES], kept, sent);
    met(&mut t[a..a + RECORD_BYTES], received);
    true
}

// A step that is not turned away: whether it changed anything.
fn stepped_in(t: &mut [u8], p: u8) -> bool
    requires { (p < 32) × Ready t.old p }
    ensures { Steps t.old p t.new result }
{
    let a = layout::HEAD_BYTES + RECORD_BYTES * p as usize;
    let tag = t[a + PLACE_AT];
    if (tag < SCANNING) | (COMMITTED < tag) {
        let nap = t[layout::NAP_AT];
        return own_rule(&mut t[a..a + RECORD_BYTES], nap);
    }
    let i = t[a + INDEX_AT];
    let q = t[a + PARTNERS_AT + i as usize];
    if tag == SCANNING {
        return scan_in(t, p, q);
    }
    if tag == COMMITTED {
        return hand_over_in(t, p, q);
    }
    try_in(t, p, q)
}

// Moves process p by one rule, and says its new place or that nothing changed.
pub fn step_in(t: &mut [u8], p: u8) -> Result<Answer, Refusal>
    requires { table_length ≤ length t.old }
    ensures { Leaves (step (table_of t.old) p) (stepped_by (table_of t.old) p) t.old t.new result }
{
    admitted(t, p)?;
    if !stepped_in(t, p) {
        return Ok(Answer::Unchanged);
    }
    let a = layout::HEAD_BYTES + RECORD_BYTES * p as usize;
    Ok(Answer::Moved(place_in(&t[a..a + RECORD_BYTES])))
}
