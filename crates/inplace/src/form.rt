// Refusal 7, on the bytes of a table. It reads tags, indexes, counts, partners and the head, and copies nothing.
ghost use Rattle.std.specs.Prelude.{◌+◌, ◌*◌, ◌≤◌, ◌≡◌, cond, length, leb};
ghost use Rattle.wire.specs.Reading.{byte};
ghost use Rattle.rendezvous.specs.Table.{open_offers};
ghost use Rattle.rendezvous.specs.WellFormed.{all_below, fits_at, well_formed};
ghost use Rattle.rendezvous.specs.Refusals.{process_verdict};
ghost use Rattle.records.specs.Layout.{record_length};
ghost use Rattle.inplace.specs.Layout.{table_length, count_at, nap_at};
ghost use Rattle.inplace.specs.Reading.{head_of, table_of};
ghost use Rattle.inplace.specs.Private.{kept_fits};

use crate::layout;
use crate::numbers::{long_at, word_at};
use records::{
    ALTCOUNT_AT, COMMITTED, INDEX_AT, KEPT_AT, PARTNERS_AT, PLACE_AT, RECORD_BYTES, is_open,
    record_fits,
};
use rendezvous::{MOST_PROCESSES, Refusal, totals_fit};

// Whether the kept index at C has a guard in the posted list of the process that the guard names.
#[tactic(auto, unfolding(crate::specs::Private::kept_fits))]
fn kept_fits(t: &[u8], r: &[u8]) -> bool
    requires { (table_length ≤ length t.now) × (record_length ≤ length r.now) }
    ensures { result ≡ kept_fits t.now r.now }
{
    if r[PLACE_AT] != COMMITTED {
        return true;
    }
    let q = r[PARTNERS_AT + (r[INDEX_AT] % 8) as usize];
    let b = layout::HEAD_BYTES + RECORD_BYTES * (q % MOST_PROCESSES) as usize;
    r[KEPT_AT] < t[b + ALTCOUNT_AT]
}

// How many of the records have an open offer, if each fits. One way out a record: without it the compiler would go across records, byte by byte.
fn records_in(t: &[u8], n: u8, nap: u8) -> Option<u32>
    requires { (table_length ≤ length t.now) × (n ≤ 32) × (n ≡ byte t.now count_at) × (nap ≡ byte t.now nap_at) }
    ensures { result ≡ cond (all_below (fits_at (table_of t.now)) n) (Some (open_offers (table_of t.now))) None }
{
    // of another width than p, or the compiler would count both in one vector, which goes by way of memory
    let mut pending: u32 = 0;
    for p in 0..n {
        let a = layout::HEAD_BYTES + RECORD_BYTES * p as usize;
        let r = &t[a..a + RECORD_BYTES];
        if !(record_fits(r, p, n, nap) & kept_fits(t, r)) {
            return None;
        }
        if is_open(r) {
            pending += 1;
        }
    }
    Some(pending)
}

// Whether 2 × meetings + withdrawn + open is at most the next ticket.
fn head_fits(t: &[u8], pending: u32) -> bool
    requires { table_length ≤ length t.now }
    ensures { result ≡ leb (2 * (head_of t.now).meetings + (head_of t.now).withdrawn + pending) (head_of t.now).next.0 }
{
    let next = word_at(t, layout::NEXT_AT);
    if next < pending {
        return false;
    }
    totals_fit(
        long_at(t, layout::MEETINGS_AT),
        long_at(t, layout::WITHDRAWN_AT),
        next - pending,
    )
}

// Whether a table is well-formed, whatever it holds.
pub fn formed_in(t: &[u8]) -> bool
    requires { table_length ≤ length t.now }
    ensures { result ≡ well_formed (table_of t.now) }
{
    let n = t[layout::COUNT_AT];
    let nap = t[layout::NAP_AT];
    if (n < 2) | (MOST_PROCESSES < n) | (nap == 0) {
        return false;
    }
    match records_in(t, n, nap) {
        Some(pending) => head_fits(t, pending),
        None => false,
    }
}

// Refusals 7 and 2, with which every call of process p begins.
pub fn admitted(t: &[u8], p: u8) -> Result<(), Refusal>
    requires { table_length ≤ length t.now }
    ensures { result ≡ process_verdict (table_of t.now) p }
{
    if !formed_in(t) {
        return Err(Refusal::NotWellFormed);
    }
    if t[layout::COUNT_AT] <= p {
        return Err(Refusal::NoSuchProcess);
    }
    Ok(())
}
