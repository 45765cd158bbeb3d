// The call that gives the set of processes that can move.
ghost use Rattle.std.specs.Prelude.{◌≡◌, cond};
ghost use Rattle.rendezvous.specs.Movers.{runnable};

use crate::well_formed::form_end;
use crate::{Answer, ProcessSet, ProcessTable, Refusal, Reply};
use process::would_change;

// The set of process 0 alone, or of none.
fn lowest(is: bool) -> ProcessSet
    ensures { result ≡ cond is 1 0 }
{
    ProcessSet::from(is)
}

impl ProcessTable {
    // The set of processes that a step would change. It is put together from its last bit down, so that no number on the way
    // needs more bits than a set has.
    pub fn runnable(self) -> Reply
        ensures { result ≡ runnable self }
    {
        let formed = form_end(self.form(), self.head);
        let answer = if formed {
            let mut set: ProcessSet = 0;
            for p in (0..self.head.n).rev() {
                let x = self.record(p);
                let y = self.record(x.partner());
                set = set * 2 + lowest(would_change(x, y));
            }
            Ok(Answer::Runnable(set))
        } else {
            Err(Refusal::NotWellFormed)
        };
        Reply {
            answer,
            table: self,
        }
    }
}
