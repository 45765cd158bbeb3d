// New tables.
ghost use Rattle.std.specs.Prelude.{◌≤◌, true, length};
ghost use Rattle.inplace.specs.Layout.{table_length};
ghost use Rattle.inplace.specs.Reading.{table_of};
ghost use Rattle.inplace.specs.Calls.{remake};
ghost use Rattle.inplace.specs.Leaves.{Leaves};

use crate::layout;
use rendezvous::{Answer, Refusal, create_verdict};

// A fresh table of n processes with naps of `nap` own steps, in the place of what stood there, or refusal 1 or 15.
pub fn create_in(t: &mut [u8], n: u8, nap: u8) -> Result<Answer, Refusal>
    requires { table_length ≤ length t.old }
    ensures { Leaves (remake (table_of t.old) n nap) (λ r. true) t.old t.new result }
{
    create_verdict(n, nap)?;
    t[..layout::TABLE_BYTES].fill(0);
    t[layout::COUNT_AT] = n;
    t[layout::NAP_AT] = nap;
    Ok(Answer::Made)
}
