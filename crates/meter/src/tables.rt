// The tables that the plans start from.
use crate::plans::Plan;
use alternative::{Action, Guard, GuardList, Message, blank_guard};
use process::{Place, Process, TransactionId, fresh_process};
use rendezvous::{Head, MOST_PROCESSES, ProcessTable, fresh_head};

// What process 0 offers, and what 1 offers: one guard each, on the other.
fn guard_by(p: u8) -> Guard {
    let (partner, action) = if p == 0 {
        (1, Action::Send(Message::Reading(4.72)))
    } else {
        (0, Action::Receive)
    };
    Guard {
        enabled: true,
        partner,
        kind: 0,
        rank: 0,
        action,
    }
}

pub fn offered(p: u8) -> GuardList {
    let mut guards = [blank_guard(); 8];
    guards[0] = guard_by(p);
    GuardList { count: 1, guards }
}

// Process p with its offer, at a place.
fn placed(p: u8, place: Place) -> Process {
    let guards = offered(p).guards;
    let altlist = [blank_guard(); 8];
    Process {
        place,
        signal: None,
        transaction: TransactionId(p as u32),
        accepting: false,
        count: 1,
        altcount: 0,
        guards,
        altlist,
    }
}

// A process that waits to receive from process 0, with `load` guards in its own list and in its posted one.
fn waiter(load: u8) -> Process {
    let guards = [guard_by(1); 8];
    Process {
        place: Place::Waiting,
        signal: None,
        transaction: TransactionId(0),
        accepting: true,
        count: load,
        altcount: load,
        guards,
        altlist: guards,
    }
}

// How process p, 0 or 1, starts: fresh for meetings and offers, at M for collections, at A on the other for the rest.
fn starter(plan: Plan, p: u8) -> Process {
    match plan {
        Plan::Meeting | Plan::Offer => fresh_process(),
        Plan::Collect => placed(p, Place::Met(0, Message::Nothing)),
        _ => placed(p, Place::Scanning(0)),
    }
}

// Half of all tickets are given out. So a table has tickets for its open offers and for each withdrawal of a run, although process 0
// withdraws the same offer over and over; and a run's own offers find as many left.
const NEXT_TICKET: u32 = 2147483648;

pub fn start(plan: Plan, n: u8, load: u8) -> ProcessTable {
    let mut processes = [waiter(load); MOST_PROCESSES as usize];
    processes[0] = starter(plan, 0);
    processes[1] = starter(plan, 1);
    ProcessTable {
        head: Head {
            next: TransactionId(NEXT_TICKET),
            ..fresh_head(n, 1)
        },
        processes,
    }
}
