// Whether the bytes of a record fit into a table of n processes with naps of `nap` own steps, whatever they hold. The tests are joined by `&` and `|`,
// not by `&&` and `||`: no jump stands between comparisons of single bytes.
ghost use Rattle.std.specs.Prelude.{ℕ, ◌+◌, ◌≤◌, ◌≡◌, length};
ghost use Rattle.process.specs.Process.{is_open};
ghost use Rattle.process.specs.Fits.{list_fits};
ghost use Rattle.records.specs.Layout.{record_length};
ghost use Rattle.records.specs.Reading.{guards_at, process_of};
ghost use Rattle.records.specs.Private.{indexes_fit, lists_fit, record_fits};

use crate::layout;

// Whether the first `count` of the eight partners from byte `at` on are other processes below n. It goes through all eight, without a way
// out, so that the compiler compares them at once.
fn partners_fit(r: &[u8], at: usize, count: u8, p: u8, n: u8) -> bool
    requires { at + 8 ≤ length r.now }
    ensures { (b : ℕ) → result ≡ list_fits n p count (guards_at r.now at b) }
{
    let mut ok = count <= 8;
    for k in 0..8u8 {
        let q = r[at + k as usize];
        ok = ok & ((count <= k) | ((q != p) & (q < n)));
    }
    ok
}

// Whether the indexes of place and signal have a guard, and a sleeper has not slept its nap.
#[tactic(auto, unfolding(crate::specs::Private::indexes_fit), using(crate::proofs::Tags::resting_fits))]
fn indexes_fit(r: &[u8], nap: u8) -> bool
    requires { record_length ≤ length r.now }
    ensures { result ≡ indexes_fit nap r.now }
{
    let tag = r[layout::PLACE_AT];
    let count = r[layout::COUNT_AT];
    let signal = (r[layout::SIGNAL_AT] == 0) | (r[layout::SIGNAL_INDEX_AT] < count);
    // most processes of a table are here most of the time
    if (tag == layout::WAITING) | (tag == layout::IDLE) {
        return signal;
    }
    let i = r[layout::INDEX_AT];
    let indexed = ((layout::SCANNING <= tag) & (tag <= layout::COMMITTED)) | (layout::MET <= tag);
    (!indexed | (i < count)) & (((tag != layout::ASLEEP) | (i < nap)) & signal)
}

// Whether both lists fit. Empty ones, of a process that has offered nothing yet, are not looked through.
fn lists_fit(r: &[u8], p: u8, n: u8) -> bool
    requires { record_length ≤ length r.now }
    ensures { result ≡ lists_fit n p r.now }
{
    let count = r[layout::COUNT_AT];
    let altcount = r[layout::ALTCOUNT_AT];
    if (count == 0) & (altcount == 0) {
        return true;
    }
    partners_fit(r, layout::PARTNERS_AT, count, p, n)
        & partners_fit(r, layout::POSTED_PARTNERS_AT, altcount, p, n)
}

// All that refusal 7 asks of the record of process p but the kept index.
#[tactic(auto, unfolding(crate::specs::Private::record_fits))]
pub fn record_fits(r: &[u8], p: u8, n: u8, nap: u8) -> bool
    requires { record_length ≤ length r.now }
    ensures { result ≡ record_fits n nap p r.now }
{
    lists_fit(r, p, n) & indexes_fit(r, nap)
}

// Whether the offer of a process with these bytes is open.
pub fn is_open(r: &[u8]) -> bool
    requires { record_length ≤ length r.now }
    ensures { result ≡ is_open (process_of r.now) }
{
    let tag = r[layout::PLACE_AT];
    let accepting = r[layout::ACCEPTING_AT] != 0;
    if tag == layout::WAITING {
        return accepting;
    }
    ((layout::ENTERING <= tag) & (tag <= layout::TRYING))
        | (((layout::POSTING <= tag) & (tag <= layout::OPENING))
            | ((tag == layout::ASLEEP)
                | (((tag == layout::SHOWING) | (tag == layout::WAITING)) & accepting)))
}
