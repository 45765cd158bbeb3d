// The two searches in a list of guards, on bytes.
ghost use Rattle.std.specs.Prelude.{◌≤◌, ◌<◌, ◌≡◌, length};
ghost use Rattle.alternative.specs.Guards.{kept_match, next_enabled};
ghost use Rattle.process.specs.Process.{own_list, own_guard, posted_list};
ghost use Rattle.wire.specs.Reading.{byte};
ghost use Rattle.records.specs.Layout.{record_length, count_at, altcount_at};
ghost use Rattle.records.specs.Reading.{process_of};
ghost use Rattle.records.specs.Private.{match_by};

use crate::layout;

// The first enabled guard of the own list at or after guard `from`.
pub fn next_own(r: &[u8], from: u8) -> Option<u8>
    requires { (record_length ≤ length r.now) × (byte r.now count_at ≤ 8) }
    ensures { result ≡ next_enabled (own_list (process_of r.now)) from }
{
    for k in from..r[layout::COUNT_AT] {
        if r[layout::OWN_AT + k as usize] != 0 {
            return Some(k);
        }
    }
    None
}

// Whether a posted guard matches an own one that names its process: from what is enabled, whether it sends and the kind of the own guard, and the same
// and the partner of the posted one.
#[tactic(auto, unfolding(crate::specs::Private::match_by))]
fn matches(mine: u8, act: u8, own: u8, enabled: u8, partner: u8, sends: u8, kind: u8, p: u8) -> bool
    ensures { result ≡ match_by mine act own enabled partner sends kind p }
{
    let receives = act == 0;
    let other = sends == 0;
    let plain = (mine != 0)
        & ((enabled != 0) & ((partner == p) & ((receives & !other) | (!receives & other))));
    plain & (own == kind)
}

// The guard that rule 7 keeps of the posted list in y, for own guard i in x, the record of process p; y is the record of process q, which that guard
// names.
pub fn kept_in(x: &[u8], y: &[u8], p: u8, q: u8, i: u8) -> Option<u8>
    requires { (record_length ≤ length x.now) × (record_length ≤ length y.now) × (i < byte x.now count_at) × (byte x.now count_at ≤ 8) × (byte y.now altcount_at ≤ 8) × (q ≡ (own_guard (process_of x.now) i).partner) }
    ensures { result ≡ kept_match p (own_guard (process_of x.now) i) q (posted_list (process_of y.now)) }
{
    let at = i as usize;
    let mine = x[layout::OWN_AT + at];
    let act = x[layout::OWN_AT + layout::SENDS_IN + at];
    let own = x[layout::OWN_AT + layout::KINDS_IN + at];
    let mut kept = None;
    // a guard that matches takes the place of the kept one if its rank is at least this
    let mut least: u16 = 0;
    for k in 0..y[layout::ALTCOUNT_AT] {
        let o = k as usize;
        let enabled = y[layout::POSTED_AT + o];
        let sends = y[layout::POSTED_AT + layout::SENDS_IN + o];
        let kind = y[layout::POSTED_AT + layout::KINDS_IN + o];
        let rank = y[layout::POSTED_AT + layout::RANKS_IN + o] as u16;
        let partner = y[layout::POSTED_PARTNERS_AT + o];
        if matches(mine, act, own, enabled, partner, sends, kind, p) & (least <= rank) {
            kept = Some(k);
            least = rank + 1;
        }
    }
    kept
}
