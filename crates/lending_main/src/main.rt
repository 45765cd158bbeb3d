// Offers of lists that this program lends from its own memory: of no guards, of one, of eight and of nine.
#![tactic(auto)]

ghost use Rattle.std.specs.Prelude.{◌≤◌, ◌≡◌, take};
ghost use Rattle.rendezvous.specs.Calls.{offer};

use alternative::{Action, Guard, Message};
use rendezvous::{Answer, ProcessTable, Refusal, Reply};
use std::fmt::Display;
use std::io::Stdout;

// Offers the first guards of an array, lent as a slice.
fn lend(table: ProcessTable, p: u8, guards: [Guard; 9], count: usize) -> Reply
    requires { count ≤ 9 }
    ensures { result ≡ offer table p (take count guards) }
{
    table.offer(p, &guards[..count])
}

// Nine guards on process 3, which each send 4.72.
fn nine_guards() -> [Guard; 9] {
    let guard = Guard {
        enabled: true,
        partner: 3,
        kind: 0,
        rank: 0,
        action: Action::Send(Message::Reading(4.72)),
    };
    [guard; 9]
}

// Prints a part of a line. One that cannot be printed is left out, and those after it are tried all the same.
fn print<D: Display + Drop>(part: D, stdout: Stdout) {
    let _ = print!(stdout; "{part}");
}

fn print_answer(answer: Result<Answer, Refusal>, stdout: Stdout) {
    match answer {
        Ok(Answer::Offered(ticket)) => {
            print("ticket ", stdout);
            print(ticket.0, stdout);
        }
        Err(refusal) => {
            print("refused by ", stdout);
            print(refusal.number(), stdout);
        }
        Ok(Answer::Made) => print("made", stdout),
        Ok(Answer::Moved(_)) => print("moved", stdout),
        Ok(Answer::Unchanged) => print("unchanged", stdout),
        Ok(Answer::Collected(_, _, _)) => print("collected", stdout),
        Ok(Answer::Withdrawn) => print("withdrawn", stdout),
        Ok(Answer::TooLate) => print("too late", stdout),
        Ok(Answer::Runnable(_)) => print("runnable", stdout),
    }
}

// Offers so many guards for process p, and prints what is answered.
fn offered(table: ProcessTable, p: u8, count: usize, stdout: Stdout) -> ProcessTable
    requires { count ≤ 9 }
{
    let reply = lend(table, p, nine_guards(), count);
    print("guards ", stdout);
    print(count, stdout);
    print(": ", stdout);
    print_answer(reply.answer, stdout);
    print("\n", stdout);
    reply.table
}

fn main(rt: HostRuntime) {
    let stdout = rt.stdout();
    let fresh = ProcessTable::create(4, 1).table;
    let one = offered(offered(fresh, 0, 0, stdout), 0, 1, stdout);
    offered(offered(one, 1, 8, stdout), 2, 9, stdout);
}
