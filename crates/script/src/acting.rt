// What a line's command does to the table. The table is as long as most of a line's work, so it is changed in its place and not copied.
ghost use Rattle.std.specs.Prelude.{◌≡◌, Some, cond, is_err};
ghost use Rattle.rendezvous.specs.Calls.{create};
ghost use Rattle.rendezvous.specs.Movers.{runnable};
ghost use Rattle.script.specs.Private.{answer_of, called_by, goes_on_with, line_act, process_of, reply_in_code};

use command::{Call, Command};
use process::Process;
use rendezvous::{
    Act, Answer, Form, Head, ProcessTable, Refusal, collect_act, offer_act, step_act, withdraw_act,
};

// The process that a call is of.
fn process_of(call: Call) -> u8
    ensures { result ≡ process_of call }
{
    match call {
        Call::Offer { p, .. } | Call::Step(p) | Call::Collect(p) | Call::Withdraw(p) => p,
    }
}

// A call's act, from what was read of the table.
fn line_act(call: Call, form: Form, head: Head, x: &Process, q: u8, y: &Process) -> Act
    ensures { result ≡ line_act call form head x.now q y.now }
{
    match call {
        Call::Offer { p, list } => offer_act(form, head, p, x, list),
        Call::Step(p) => step_act(form, head, p, x, q, y),
        Call::Collect(p) => collect_act(form, head, p, x),
        Call::Withdraw(p) => withdraw_act(form, head, p, x),
    }
}

// A call of one process.
fn called(table: &mut ProcessTable, call: Call) -> Result<Answer, Refusal>
    ensures { record { answer = result; table = table.new } ≡ called_by table.old call }
{
    let p = process_of(call);
    let x = table.record(p);
    let q = x.partner();
    let act = line_act(call, table.form(), table.head, x, q, table.record(q));
    table.carry_out(p, q, &act)
}

// `n`: a refused one keeps the old table.
fn created(table: &mut Option<ProcessTable>, n: u8, nap: u8) -> Result<Answer, Refusal>
    ensures answer { result ≡ (create n nap).answer }
    ensures table { table.new ≡ cond (is_err (create n nap).answer) table.old (Some (create n nap).table) }
{
    let reply = ProcessTable::create(n, nap);
    if reply.answer.is_ok() {
        *table = Some(reply.table);
    }
    reply.answer
}

// `m`, kept apart from `answer`, since it makes room for the table that `runnable` hands back.
#[inline(never)]
fn movers(table: &ProcessTable) -> Result<Answer, Refusal>
    ensures { result ≡ (runnable table.now).answer }
{
    table.runnable().answer
}

// The answer to a command, and the table with which reading goes on; before an accepted `n` all but `n` have none.
pub fn answer(table: &mut Option<ProcessTable>, command: Command) -> Option<Result<Answer, Refusal>>
    ensures answer { result ≡ answer_of (reply_in_code table.old command) }
    ensures table { table.new ≡ goes_on_with table.old (reply_in_code table.old command) }
{
    match command {
        Command::New { n, nap } => Some(created(table, n, nap)),
        Command::Do(call) => Some(called(table.as_mut()?, call)),
        Command::Movers => Some(movers(table.as_ref()?)),
    }
}
