// Reading and renewing one record.
ghost use Rattle.std.specs.Prelude.{◌≡◌, ◌≤◌, take, get_or, length};
ghost use Rattle.alternative.specs.Guards.{blank};
ghost use Rattle.process.specs.Process.{fresh_process, own_list, posted_list};
ghost use Rattle.process.specs.Rules.{changed, at_place, partner_of};
ghost use Rattle.process.specs.InCode.{committed_at};

use crate::{Place, Process, Signal, TransactionId};
use alternative::{Guard, blank_guard};

// Guard i of a list, or a blank one past its end.
pub fn guard_at(list: &[Guard], i: u8) -> Guard
    ensures { result ≡ get_or list.now i blank }
{
    match list.get(i as usize) {
        Some(guard) => *guard,
        None => blank_guard(),
    }
}

// A process that has offered nothing yet.
pub fn fresh_process() -> Process
    ensures { result ≡ fresh_process }
{
    Process {
        place: Place::Idle,
        signal: None,
        transaction: TransactionId(0),
        accepting: false,
        count: 0,
        altcount: 0,
        guards: [blank_guard(); 8],
        altlist: [blank_guard(); 8],
    }
}

// The first `count` of eight guards, and all where it counts more.
fn first(guards: &[Guard; 8], count: u8) -> &[Guard]
    ensures value { result.now ≡ take count guards.now }
    ensures few { length result.now ≤ 8 }
{
    &guards[..(count as usize).min(8)]
}

impl Process {
    // The own list.
    pub fn own_list(&self) -> &[Guard]
        ensures value { result.now ≡ own_list self.now }
        ensures few { length result.now ≤ 8 }
    {
        first(&self.guards, self.count)
    }

    // The posted list.
    pub fn posted_list(&self) -> &[Guard]
        ensures value { result.now ≡ posted_list self.now }
        ensures few { length result.now ≤ 8 }
    {
        first(&self.altlist, self.altcount)
    }

    // The process that the guard at A, T or C names, and 0 elsewhere.
    pub fn partner(&self) -> u8
        ensures { result ≡ partner_of self.now }
    {
        match self.place.index() {
            Some(i) => guard_at(self.own_list(), i).partner,
            None => 0,
        }
    }

    // The process that the guard at C names, and 0 elsewhere: its posted list is the one that the kept index is held against. At A and T
    // no test of a record needs the partner, and so its list is not read there.
    pub fn committed_to(&self) -> u8
        ensures { result ≡ committed_at self.now self.now.place }
    {
        match self.place {
            Place::Committed(i, _) => guard_at(self.own_list(), i).partner,
            _ => 0,
        }
    }

    pub fn at_place(self, place: Place) -> Process
        ensures { result ≡ at_place self place }
    {
        Process { place, ..self }
    }

    // The record after its partner's rule, which can change the wake count and the signal.
    pub fn told(self, accepting: bool, signal: Signal) -> Process
        ensures { result ≡ changed self self.place signal accepting }
    {
        Process {
            accepting,
            signal,
            ..self
        }
    }
}
