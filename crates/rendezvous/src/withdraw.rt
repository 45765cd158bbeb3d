// The call that withdraws an offer.
ghost use Rattle.std.specs.Prelude.{◌≡◌};
ghost use Rattle.rendezvous.specs.Calls.{withdraw};

use crate::acts::withdraw_act;
use crate::carrying_out::place_of;
use crate::{ProcessTable, Reply};

impl ProcessTable {
    // Withdraws the offer of process p, if no commit came first. What changes is written here, in a copy that no one borrows: so a caller
    // that names p by a constant copies the other records once, and not three times.
    pub fn withdraw(self, p: u8) -> Reply
        ensures { result ≡ withdraw self p }
    {
        let act = withdraw_act(self.form(), self.head, p, self.record(p));
        let mut t = self;
        t.processes[place_of(p)] = act.own;
        t.head = act.head;
        Reply {
            answer: act.answer,
            table: t,
        }
    }
}
