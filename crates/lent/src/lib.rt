// A list of guards lent as a slice, copied into a list by value: the one place where a lent slice of guards is read.
#![tactic(auto)]

ghost use Rattle.std.specs.Prelude.{◌≡◌};
ghost use Rattle.alternative.specs.Guards.{lent};

use alternative::{Guard, GuardList, blank_guard};

// The lent list by value: how many guards it has, and its first eight, blank past its end.
pub fn copied(guards: &[Guard]) -> GuardList
    ensures { result ≡ lent guards.now }
{
    let count = guards.len();
    let read = count.min(8);
    let mut slots = [blank_guard(); 8];
    slots[..read].copy_from_slice(&guards[..read]);
    GuardList {
        count,
        guards: slots,
    }
}
