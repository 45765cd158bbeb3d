// Offers of a list that the task lends from its own memory.
ghost use Rattle.std.specs.Prelude.{◌≡◌};
ghost use Rattle.rendezvous.specs.Calls.{offer};

use crate::{ProcessTable, Reply};
use alternative::Guard;
use lent::copied;

impl ProcessTable {
    // Offers a lent list for process p, and gives the offer's ticket. The list is copied; all else is `offer_list`'s.
    pub fn offer(self, p: u8, guards: &[Guard]) -> Reply
        ensures { result ≡ offer self p guards.now }
    {
        self.offer_list(p, copied(guards))
    }
}
