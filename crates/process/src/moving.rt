// Whether a step would change anything.
ghost use Rattle.std.specs.Prelude.{ℕ, ◌≡◌};
ghost use Rattle.process.specs.Rules.{rule, changes};
ghost use Rattle.process.specs.Private.{is_held};

use crate::{Place, Process, State};

// Whether a partner with record y makes process x wait where it scans: it is busy, and not older (rule 6).
fn is_held(x: &Process, y: &Process) -> bool
    ensures { result ≡ is_held x.now y.now }
{
    matches!(y.place.state(), State::Alt) && x.transaction.0 <= y.transaction.0
}

// Whether a rule changes anything for a process with record x and partner y: every rule but 6, 14 and 15 does.
pub fn would_change(x: &Process, y: &Process) -> bool
    ensures { (d p q : ℕ) → result ≡ changes (rule d p x.now q y.now) }
{
    match x.place {
        Place::Scanning(_) => !is_held(x, y),
        Place::Waiting => x.signal.is_some(),
        Place::Idle | Place::Met(_, _) => false,
        Place::Entering
        | Place::Trying(_)
        | Place::Committed(_, _)
        | Place::Posting
        | Place::Opening
        | Place::Showing
        | Place::Asleep(_) => true,
    }
}
