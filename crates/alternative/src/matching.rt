// When two guards match, and the searches in a list of guards.
ghost use Rattle.std.specs.Prelude.{◌≡◌, take};
ghost use Rattle.alternative.specs.Guards.{opposite, guards_match, any_guard, kept_match, next_enabled};

use crate::{Action, Guard};

fn are_opposite(a: Action, b: Action) -> bool
    ensures { result ≡ opposite a b }
{
    matches!(
        (a, b),
        (Action::Receive, Action::Send(_)) | (Action::Send(_), Action::Receive)
    )
}

// Whether guard g of process p matches guard h of process q.
fn guards_match(p: u8, g: Guard, q: u8, h: Guard) -> bool
    ensures { result ≡ guards_match p g q h }
{
    g.enabled
        && h.enabled
        && g.partner == q
        && h.partner == p
        && are_opposite(g.action, h.action)
        && g.kind == h.kind
}

// The guards of a list that are searched, so that an index fits a byte: a list has at most eight.
fn first_eight(list: &[Guard]) -> &[Guard]
    ensures { result.now ≡ take 8 list.now }
{
    &list[..list.len().min(8)]
}

// The guard that rule 7 keeps of the list of process q: of all that match guard g of process p the one of greatest rank, the first
// among equals.
pub fn kept_match(p: u8, g: Guard, q: u8, list: &[Guard]) -> Option<u8>
    ensures { result ≡ kept_match p g q (take 8 list.now) }
{
    let searched = first_eight(list);
    let mut kept = None;
    // a guard that matches takes the place of the kept one if its rank is at least this
    let mut least: u16 = 0;
    for (k, h) in searched.iter().enumerate() {
        // `&`: with `&&`, which was tried, the proof of a turn does not close by itself
        if guards_match(p, g, q, *h) & (least <= h.rank as u16) {
            kept = Some(k as u8);
            least = h.rank as u16 + 1;
        }
    }
    kept
}

// The first enabled guard of a list at or after index `from`.
pub fn next_enabled(list: &[Guard], from: usize) -> Option<u8>
    ensures { result ≡ next_enabled (take 8 list.now) from }
{
    let searched = first_eight(list);
    // by index: an iterator that skips would count from 0, and `from` be added again
    for k in from..searched.len() {
        if searched[k].enabled {
            return Some(k as u8);
        }
    }
    None
}

// Whether a list has an enabled guard.
#[tactic(auto, unfolding(crate::specs::Guards::any_guard))]
pub fn any_enabled(list: &[Guard]) -> bool
    ensures { result ≡ any_guard (λ g. g.enabled) list.now }
{
    list.iter().any(|h| h.enabled)
}
