// The call that moves one process by one rule.
ghost use Rattle.std.specs.Prelude.{◌≡◌};
ghost use Rattle.rendezvous.specs.Calls.{step};

use crate::acts::step_act;
use crate::{ProcessTable, Reply};

impl ProcessTable {
    // Moves process p by one rule, and says its new place or that nothing changed.
    pub fn step(mut self, p: u8) -> Reply
        ensures { result ≡ step self p }
    {
        let x = self.record(p);
        let q = x.partner();
        let act = step_act(self.form(), self.head, p, x, q, self.record(q));
        let answer = self.carry_out(p, q, &act);
        Reply {
            answer,
            table: self,
        }
    }
}
