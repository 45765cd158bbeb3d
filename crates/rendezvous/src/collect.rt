// The call that collects an outcome.
ghost use Rattle.std.specs.Prelude.{◌≡◌};
ghost use Rattle.rendezvous.specs.Calls.{collect};

use crate::acts::collect_act;
use crate::{ProcessTable, Reply};

impl ProcessTable {
    // Takes the outcome of process p: guard index, partner and message.
    pub fn collect(mut self, p: u8) -> Reply
        ensures { result ≡ collect self p }
    {
        let act = collect_act(self.form(), self.head, p, self.record(p));
        let answer = self.carry_out(p, p, &act);
        Reply {
            answer,
            table: self,
        }
    }
}
