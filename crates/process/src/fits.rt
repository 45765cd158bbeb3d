// Whether a record fits into a table of n processes with naps of `nap` own steps, whatever it holds.
ghost use Rattle.std.specs.Prelude.{◌≡◌};
ghost use Rattle.process.specs.Fits.{partner_fits, all_guards, list_fits, signal_fits, place_fits, process_fits};

use crate::{Place, Process, Signal};
use alternative::Guard;

// Whether a guard of process p, in a table of n, names another process of it.
#[tactic(auto, unfolding(crate::specs::Fits::partner_fits))]
pub fn partner_fits(n: u8, p: u8, g: Guard) -> bool
    ensures { result ≡ partner_fits n p g }
{
    g.partner != p && g.partner < n
}

#[tactic(auto, unfolding(crate::specs::Fits::all_guards))]
fn all_fit(n: u8, p: u8, list: &[Guard]) -> bool
    ensures { result ≡ all_guards (partner_fits n p) list.now }
{
    list.iter().all(|g| partner_fits(n, p, *g))
}

#[tactic(auto, unfolding(crate::specs::Fits::list_fits))]
fn list_fits(n: u8, p: u8, count: u8, guards: &[Guard; 8]) -> bool
    ensures { result ≡ list_fits n p count guards.now }
{
    count <= 8 && all_fit(n, p, &guards[..count as usize])
}

fn signal_fits(count: u8, signal: Signal) -> bool
    ensures { result ≡ signal_fits count signal }
{
    match signal {
        None => true,
        Some((j, _)) => j < count,
    }
}

fn place_fits(nap: u8, count: u8, altcount: u8, place: Place) -> bool
    ensures { result ≡ place_fits nap count altcount place }
{
    match place {
        Place::Scanning(i) | Place::Trying(i) | Place::Met(i, _) => i < count,
        Place::Committed(i, j) => i < count && j < altcount,
        Place::Asleep(steps) => steps < nap,
        Place::Idle
        | Place::Entering
        | Place::Posting
        | Place::Opening
        | Place::Showing
        | Place::Waiting => true,
    }
}

#[tactic(auto, unfolding(crate::specs::Fits::process_fits))]
pub fn process_fits(n: u8, nap: u8, p: u8, x: &Process, altcount: u8) -> bool
    ensures { result ≡ process_fits n nap p x.now altcount }
{
    list_fits(n, p, x.count, &x.guards)
        && list_fits(n, p, x.altcount, &x.altlist)
        && signal_fits(x.count, x.signal)
        && place_fits(nap, x.count, altcount, x.place)
}
