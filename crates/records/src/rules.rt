// The rules that change one record alone, on its bytes. What they read of a partner is handed over.
ghost use Rattle.std.specs.Prelude.{ℕ, ◌+◌, ◌≤◌, ◌<◌, ◌≡◌, Bool, false, ◌⊎◌, length};
ghost use Rattle.alternative.specs.Guards.{next_enabled};
ghost use Rattle.process.specs.Process.{state_of, own_list};
ghost use Rattle.process.specs.Rules.{Own, at_place, scan_at, sleep, scan, rule};
ghost use Rattle.wire.specs.Reading.{byte};
ghost use Rattle.records.specs.Types.{Message, Process};
ghost use Rattle.records.specs.Layout.{record_length, place_at, index_at, count_at};
ghost use Rattle.records.specs.Reading.{place_by, process_of};
ghost use Rattle.records.specs.Private.{own_effect, passes_by};

use crate::layout;
use crate::lists::next_own;
use crate::writes::{absorbed, asleep, posted, posting, scanning, showing, trying, waiting};

// To A at the first enabled guard at or after guard `from`, or to P.
pub fn scanned(r: &mut [u8], from: u8)
    requires { (record_length ≤ length r.old) × (byte r.old count_at ≤ 8) }
    ensures { process_of r.new ≡ at_place (process_of r.old) (scan_at (next_enabled (own_list (process_of r.old)) from)) }
{
    match next_own(r, from) {
        Some(i) => scanning(r, i),
        None => posting(r),
    }
}

// Rule 2, after so many own steps at S.
fn slept(r: &mut [u8], steps: u8, nap: u8)
    requires { (record_length ≤ length r.old) × (byte r.old count_at ≤ 8) }
    ensures { sleep nap (process_of r.old) steps ≡ Own (process_of r.new) }
{
    if (steps as usize) + 1 < nap as usize {
        asleep(r, steps + 1);
    } else {
        scanned(r, 0);
    }
}

// Every rule but those of A, T and C: whether it changes anything.
pub fn own_rule(r: &mut [u8], nap: u8) -> bool
    requires { (record_length ≤ length r.old) × (byte r.old count_at ≤ 8) × ((byte r.old place_at < 2) ⊎ (4 < byte r.old place_at)) }
    ensures rule { (p q : ℕ) (y : Process) → rule nap p (process_of r.old) q y ≡ own_effect result r.new }
    ensures still { result ≡ false → r.new ≡ r.old }
{
    match r[layout::PLACE_AT] {
        layout::ENTERING => scanned(r, 0),
        layout::ASLEEP => {
            let steps = r[layout::INDEX_AT];
            slept(r, steps, nap);
        }
        layout::POSTING => posted(r),
        layout::OPENING => showing(r),
        layout::SHOWING => waiting(r),
        layout::WAITING if r[layout::SIGNAL_AT] != 0 => absorbed(r),
        _ => return false,
    }
    true
}

// Whether a tag's word is RUNNING or SLEEPING: I, E, S and M.
pub fn passes(tag: u8) -> bool
    ensures { result ≡ passes_by tag }
{
    (tag <= layout::ENTERING) | ((tag == layout::ASLEEP) | (layout::MET <= tag))
}

// Rules 3 to 6, at A: `other` is the tag of the partner's place, `older` whether its ticket is smaller.
pub fn scan_rule(r: &mut [u8], other: u8, older: bool) -> bool
    requires { (record_length ≤ length r.old) × (byte r.old count_at ≤ 8) × (byte r.old index_at < 8) }
    ensures rule { (i j : ℕ) (m : Message) → scan (process_of r.old) (byte r.old index_at) (state_of (place_by other i j m)) older ≡ own_effect result r.new }
    ensures still { result ≡ false → r.new ≡ r.old }
{
    if passes(other) {
        let i = r[layout::INDEX_AT];
        scanned(r, i + 1);
        return true;
    }
    if other == layout::WAITING {
        trying(r);
        return true;
    }
    if older {
        asleep(r, 0);
        return true;
    }
    false
}
