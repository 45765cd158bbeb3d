// How many offers of a table are open, for the day sheet.
ghost use Rattle.std.specs.Prelude.{◌≡◌, count_by};
ghost use Rattle.process.specs.Process.{is_open};
ghost use Rattle.rendezvous.specs.Table.{open_offers};

use crate::{MOST_PROCESSES, ProcessTable};
use process::Process;

fn open_among(records: &[Process]) -> usize
    ensures { result ≡ count_by is_open records.now }
{
    records
        .iter()
        .filter(|x| x.place.is_open(x.accepting))
        .count()
}

impl ProcessTable {
    // Whatever n says, there are no records from `MOST_PROCESSES` on, and so no offers.
    pub fn open_count(self) -> u8
        ensures { result ≡ open_offers self }
    {
        let n = self.head.n.min(MOST_PROCESSES) as usize;
        open_among(&self.processes[..n]) as u8
    }
}
