// The question which processes can move. It writes nothing.
ghost use Rattle.std.specs.Prelude.{◌+◌, ◌≤◌, ◌≡◌, length};
ghost use Rattle.wire.specs.Reading.{byte};
ghost use Rattle.process.specs.Rules.{changes, partner_of};
ghost use Rattle.rendezvous.specs.Table.{process};
ghost use Rattle.rendezvous.specs.Calls.{effect_on};
ghost use Rattle.rendezvous.specs.Movers.{runnable};
ghost use Rattle.records.specs.Layout.{place_at};
ghost use Rattle.inplace.specs.Layout.{table_length, record_start};
ghost use Rattle.inplace.specs.Reading.{table_of};
ghost use Rattle.inplace.specs.Private.{Ready};

use crate::form::formed_in;
use crate::layout;
use crate::numbers::word_at;
use records::{
    INDEX_AT, MET, PARTNERS_AT, PLACE_AT, RECORD_BYTES, SCANNING, SIGNAL_AT, TICKET_AT, WAITING,
    passes,
};
use rendezvous::{Answer, ProcessSet, Refusal};

// At A: whether the partner q lets process p go on.
fn goes_on(t: &[u8], p: u8, q: u8) -> bool
    requires { Ready t.now p × (byte t.now (record_start p + place_at) ≡ 2) × (q ≡ partner_of (process (table_of t.now) p)) }
    ensures { result ≡ changes (effect_on (table_of t.now) p) }
{
    let a = layout::HEAD_BYTES + RECORD_BYTES * p as usize;
    let b = layout::HEAD_BYTES + RECORD_BYTES * q as usize;
    let other = t[b + PLACE_AT];
    let older = word_at(t, b + TICKET_AT) < word_at(t, a + TICKET_AT);
    passes(other) | ((other == WAITING) | older)
}

// Whether a step of process p would change anything.
fn moves(t: &[u8], p: u8) -> bool
    requires { Ready t.now p }
    ensures { result ≡ changes (effect_on (table_of t.now) p) }
{
    let a = layout::HEAD_BYTES + RECORD_BYTES * p as usize;
    let tag = t[a + PLACE_AT];
    if tag == SCANNING {
        let i = t[a + INDEX_AT];
        return goes_on(t, p, t[a + PARTNERS_AT + i as usize]);
    }
    if tag == WAITING {
        return t[a + SIGNAL_AT] != 0;
    }
    !((tag == 0) | (MET <= tag))
}

// The set of processes that a step would change.
pub fn runnable_in(t: &[u8]) -> Result<Answer, Refusal>
    requires { table_length ≤ length t.now }
    ensures { result ≡ (runnable (table_of t.now)).answer }
{
    if !formed_in(t) {
        return Err(Refusal::NotWellFormed);
    }
    let mut set: ProcessSet = 0;
    for p in (0..t[layout::COUNT_AT]).rev() {
        set = set * 2 + ProcessSet::from(moves(t, p));
    }
    Ok(Answer::Runnable(set))
}
