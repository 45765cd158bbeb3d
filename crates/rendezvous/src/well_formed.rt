// Refusal 7: whether a table is well-formed, whatever it holds.
ghost use Rattle.std.specs.Prelude.{◌≡◌, ◌*◌, ◌+◌, cond, leb};
ghost use Rattle.process.specs.Process.{is_open};
ghost use Rattle.rendezvous.specs.WellFormed.{count_fits, nap_fits};
ghost use Rattle.rendezvous.specs.Forms.{form_start, form_more, form_end};
ghost use Rattle.rendezvous.specs.Acts.{FormOf};

use crate::{Form, Head, MOST_PROCESSES, ProcessTable};
use process::{Process, process_fits};

#[tactic(auto, unfolding(crate::specs::WellFormed::count_fits))]
pub fn count_fits(n: u8) -> bool
    ensures { result ≡ count_fits n }
{
    2 <= n && n <= MOST_PROCESSES
}

#[tactic(auto, unfolding(crate::specs::WellFormed::nap_fits))]
pub fn nap_fits(nap: u8) -> bool
    ensures { result ≡ nap_fits nap }
{
    1 <= nap
}

// The test begins with the head. It has three parts, so that code which keeps a table in another place goes through its records by itself.
pub fn form_start(head: Head) -> Form
    ensures { result ≡ form_start head }
{
    (count_fits(head.n) && nap_fits(head.nap)).then_some(head.next.0)
}

// How many open offers a process has.
fn open_offers(x: &Process) -> u32
    ensures { result ≡ cond (is_open x.now) 1 0 }
{
    u32::from(x.place.is_open(x.accepting))
}

// It goes on with process k; the process that its guard names at C has posted so many. (Where it names none below n, it does not fit, whatever is read.)
pub fn form_more(form: Form, head: Head, k: u8, x: &Process, posted: u8) -> Form
    ensures { result ≡ form_more form head k x.now posted }
{
    let left = form?;
    if !process_fits(head.n, head.nap, k, x, posted) {
        return None;
    }
    left.checked_sub(open_offers(x))
}

// Whether 2 × meetings + withdrawn is at most `left`: by a half and a difference, since 64 bits do not hold every such sum.
pub fn totals_fit(meetings: u64, withdrawn: u64, left: u32) -> bool
    ensures { result ≡ leb (2 * meetings + withdrawn) left }
{
    let left = left as u64;
    if left / 2 < meetings {
        return false;
    }
    withdrawn <= left - 2 * meetings
}

// It ends once every process is tested.
pub fn form_end(form: Form, head: Head) -> bool
    ensures { result ≡ form_end form head }
{
    form.is_some_and(|left| totals_fit(head.meetings, head.withdrawn, left))
}

impl ProcessTable {
    // What the test finds of the whole table: the one loop of it, which every call and a session go by.
    pub fn form(&self) -> Form
        ensures { FormOf self.now result }
    {
        let mut form = form_start(self.head);
        for k in 0..self.head.n {
            let x = self.record(k);
            let posted = self.record(x.committed_to()).altcount;
            form = form_more(form, self.head, k, x, posted);
        }
        form
    }
}
