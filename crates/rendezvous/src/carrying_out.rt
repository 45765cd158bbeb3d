// Reading the records that a call looks at, and writing what it does.
ghost use Rattle.std.specs.Prelude.{◌%◌, ◌≡◌};
ghost use Rattle.rendezvous.specs.Table.{most_processes, process};
ghost use Rattle.rendezvous.specs.Acts.{done};

use crate::{Act, Answer, MOST_PROCESSES, ProcessTable, Refusal};
use process::Process;

// Where the record of process p stands. A process that a table has no record of is refused, whatever record is read for it.
pub fn place_of(p: u8) -> usize
    ensures { result ≡ p % most_processes }
{
    (p % MOST_PROCESSES) as usize
}

impl ProcessTable {
    pub fn record(&self, p: u8) -> &Process
        ensures { result.now ≡ process self.now (p % most_processes) }
    {
        &self.processes[place_of(p)]
    }

    // Carries out an act of process p, whose partner is q, and gives its answer. Who tells no partner may name any.
    pub fn carry_out(&mut self, p: u8, q: u8, act: &Act) -> Result<Answer, Refusal>
        ensures { record { answer = result; table = self.new } ≡ done self.old (p % most_processes) (q % most_processes) act.now }
    {
        if let Some(told) = act.told {
            let partner = self.processes[place_of(q)];
            self.processes[place_of(q)] = partner.told(told.accepting, told.signal);
        }
        self.processes[place_of(p)] = act.own;
        self.head = act.head;
        act.answer
    }
}
