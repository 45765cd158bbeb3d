// The fifteen step rules, on two records: that of the process that steps, and that of its partner.
ghost use Rattle.std.specs.Prelude.{◌≡◌, true, ltb};
ghost use Rattle.alternative.specs.Guards.{kept_match};
ghost use Rattle.process.specs.Process.{state_of, posted_list, own_guard};
ghost use Rattle.process.specs.Rules.{Own, at_place, with_accepting, with_own_posted, scan_from, sleep, scan, try, hand_over, absorb, rule};
ghost use Rattle.process.specs.InCode.{change_of};

use crate::record::guard_at;
use crate::{Change, Place, Process, State, Told};
use alternative::{kept_match, next_enabled, received, sent};

// The own record alone changes.
fn go(own: Process) -> Option<Change>
    ensures { result ≡ change_of (Own own) }
{
    Some(Change { own, told: None })
}

// To A at the first enabled guard at or after index k, or to P.
#[tactic(auto, unfolding(crate::specs::Rules::scan_from))]
fn scan_from(x: &Process, k: usize) -> Option<Change>
    ensures { result ≡ change_of (scan_from x.now k) }
{
    match next_enabled(x.own_list(), k) {
        Some(i) => go(x.at_place(Place::Scanning(i))),
        None => go(x.at_place(Place::Posting)),
    }
}

// Rule 2, at S after `steps` own steps there: it is left at the nap-th, and those before that are counted.
fn sleep(nap: u8, x: &Process, steps: u8) -> Option<Change>
    ensures { result ≡ change_of (sleep nap x.now steps) }
{
    if (steps as usize) + 1 < nap as usize {
        go(x.at_place(Place::Asleep(steps + 1)))
    } else {
        scan_from(x, 0)
    }
}

// Rules 3 to 6.
fn scan(x: &Process, y: &Process, i: u8) -> Option<Change>
    ensures { result ≡ change_of (scan x.now i (state_of y.now.place) (ltb y.now.transaction.0 x.now.transaction.0)) }
{
    match y.place.state() {
        State::Running | State::Sleeping => scan_from(x, i as usize + 1),
        State::Waiting => go(x.at_place(Place::Trying(i))),
        State::Alt => {
            if y.transaction.0 < x.transaction.0 {
                go(x.at_place(Place::Asleep(0)))
            } else {
                None
            }
        }
    }
}

// Rules 7 and 8. Process p is at T at guard i, which names q.
fn try_guard(p: u8, x: &Process, q: u8, y: &Process, i: u8) -> Option<Change>
    ensures { result ≡ change_of (try x.now i y.now y.now.accepting (kept_match p (own_guard x.now i) q (posted_list y.now))) }
{
    if !y.accepting {
        return scan_from(x, i as usize + 1);
    }
    match kept_match(p, guard_at(x.own_list(), i), q, y.posted_list()) {
        None => scan_from(x, i as usize + 1),
        Some(j) => Some(Change {
            own: x.at_place(Place::Committed(i, j)),
            told: Some(Told {
                accepting: false,
                signal: y.signal,
            }),
        }),
    }
}

// Rule 9.
#[tactic(auto, unfolding(crate::specs::Rules::hand_over))]
fn hand_over(x: &Process, y: &Process, i: u8, j: u8) -> Option<Change>
    ensures { result ≡ change_of (hand_over x.now i j y.now) }
{
    let own = guard_at(x.own_list(), i).action;
    let kept = guard_at(y.posted_list(), j).action;
    Some(Change {
        own: x.at_place(Place::Met(i, received(own, kept))),
        told: Some(Told {
            accepting: y.accepting,
            signal: Some((j, sent(own))),
        }),
    })
}

// Rule 10.
fn post(x: &Process) -> Option<Change>
    ensures { result ≡ change_of (Own (at_place (with_own_posted x.now) Place.Opening)) }
{
    // a variable, since no proof is made for an array field that goes straight into another
    let altlist = x.guards;
    let own = Process {
        place: Place::Opening,
        altcount: x.count,
        altlist,
        ..*x
    };
    go(own)
}

// Rule 11.
fn start_accepting(x: &Process) -> Option<Change>
    ensures { result ≡ change_of (Own (at_place (with_accepting x.now true) Place.Showing)) }
{
    go(Process {
        place: Place::Showing,
        accepting: true,
        ..*x
    })
}

// Rules 13 and 14.
fn absorb(x: &Process) -> Option<Change>
    ensures { result ≡ change_of (absorb x.now x.now.signal) }
{
    let (j, m) = x.signal?;
    go(Process {
        place: Place::Met(j, m),
        signal: None,
        ..*x
    })
}

// All fifteen, for process p with record x, in a table with naps of `nap` own steps; q with record y is its partner at A, T and C.
#[tactic(auto, unfolding(crate::specs::Rules::rule))]
pub fn rule(nap: u8, p: u8, x: &Process, q: u8, y: &Process) -> Option<Change>
    ensures { result ≡ change_of (rule nap p x.now q y.now) }
{
    match x.place {
        Place::Entering => scan_from(x, 0),
        Place::Asleep(steps) => sleep(nap, x, steps),
        Place::Scanning(i) => scan(x, y, i),
        Place::Trying(i) => try_guard(p, x, q, y, i),
        Place::Committed(i, j) => hand_over(x, y, i, j),
        Place::Posting => post(x),
        Place::Opening => start_accepting(x),
        Place::Showing => go(x.at_place(Place::Waiting)),
        Place::Waiting => absorb(x),
        Place::Idle | Place::Met(_, _) => None,
    }
}
