// A loop that ./bench times. It makes calls on one local table, each call at one place, as a program does that reads what to
// call, and gives back a sum of what they answer, so that none can be left out. It promises nothing but to be safe and to end.
#![tactic(auto)]

mod answers;
mod plans;
mod tables;

use answers::added;
use plans::{Plan, Planned};
use rendezvous::{Answer, Reply};
use tables::{offered, start};

// Makes `calls` calls by a plan, from a table of n processes, where those past 1 wait with lists of `load` guards. An answer is added
// at the next turn: where it is told apart right after the call, the compiler parts refused calls from others there, and copies the
// table once more. The order of the arms decides where in memory a reply's table lies, and so how fast it is copied
// (docs/DESIGN-PASS.md). The plan is a number, since C calls this.
#[unsafe(no_mangle)]
pub extern "C" fn meter_calls(plan: u8, n: u8, load: u8, calls: u64) -> u64 {
    let plan = Plan::from(plan);
    let mut said = Reply {
        answer: Ok(Answer::Made),
        table: start(plan, n, load),
    };
    let first = said.table.processes[0];
    let mut sum: u64 = 0;
    let mut turn: u8 = 0;
    for _ in 0..calls {
        sum = added(sum, said.answer);
        match plan.next_call(turn) {
            Planned::Offer(p) => said = said.table.offer_list(p, offered(p)),
            Planned::Step(p) => said = said.table.step(p),
            Planned::Collect(p) => said = said.table.collect(p),
            Planned::Withdraw(p) => said = said.table.withdraw(p),
            Planned::Runnable => said = said.table.runnable(),
        }
        if plan.resets() {
            said.table.processes[0] = first;
        }
        turn = (turn + 1) % 14;
    }
    added(sum, said.answer)
}
