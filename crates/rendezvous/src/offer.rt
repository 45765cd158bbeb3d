// Offers of a list that is given by value.
ghost use Rattle.std.specs.Prelude.{◌≡◌};
ghost use Rattle.rendezvous.specs.Calls.{offer_list};

use crate::acts::offer_act;
use crate::{ProcessTable, Reply};
use alternative::GuardList;

impl ProcessTable {
    // Offers a list for process p, and gives the offer's ticket.
    pub fn offer_list(mut self, p: u8, list: GuardList) -> Reply
        ensures { result ≡ offer_list self p list }
    {
        let act = offer_act(self.form(), self.head, p, self.record(p), list);
        let answer = self.carry_out(p, p, &act);
        Reply {
            answer,
            table: self,
        }
    }
}
