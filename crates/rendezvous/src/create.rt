// New tables.
ghost use Rattle.std.specs.Prelude.{◌≡◌};
ghost use Rattle.rendezvous.specs.Table.{fresh_head, fresh_table};
ghost use Rattle.rendezvous.specs.Calls.{create};

use crate::refusals::create_verdict;
use crate::{Answer, Head, MOST_PROCESSES, ProcessTable, Reply};
use process::{TransactionId, fresh_process};

// The head of a fresh table of n processes with naps of `nap` own steps.
pub fn fresh_head(n: u8, nap: u8) -> Head
    ensures { result ≡ fresh_head n nap }
{
    Head {
        n,
        nap,
        next: TransactionId(0),
        meetings: 0,
        withdrawn: 0,
    }
}

fn fresh_table(n: u8, nap: u8) -> ProcessTable
    ensures { result ≡ fresh_table n nap }
{
    ProcessTable {
        head: fresh_head(n, nap),
        processes: [fresh_process(); MOST_PROCESSES as usize],
    }
}

impl ProcessTable {
    // A fresh table of n processes with naps of `nap` own steps, or refusal 1 or 15. The table is made at one place, or it would be copied.
    pub fn create(n: u8, nap: u8) -> Reply
        ensures { result ≡ create n nap }
    {
        let mut table = fresh_table(n, nap);
        let answer = match create_verdict(n, nap) {
            Ok(()) => Ok(Answer::Made),
            Err(refusal) => {
                table.head = fresh_head(0, 0);
                Err(refusal)
            }
        };
        Reply { answer, table }
    }
}
