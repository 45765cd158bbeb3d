// What is called, in turn: whole meetings of processes 0 and 1, or one call over and over.
#[derive(Clone, Copy)]
pub enum Plan {
    Meeting,
    // a step that changes the table, and one that does not
    Step,
    StepSame,
    Offer,
    Collect,
    Movers,
    Withdraw,
    // meetings, from where the steps start: what a number past the last gives
    Other,
}

// The numbers that C gives.
impl From<u8> for Plan {
    fn from(number: u8) -> Plan {
        match number {
            0 => Plan::Meeting,
            1 => Plan::Step,
            2 => Plan::StepSame,
            3 => Plan::Offer,
            4 => Plan::Collect,
            5 => Plan::Movers,
            6 => Plan::Withdraw,
            _ => Plan::Other,
        }
    }
}

#[derive(Clone, Copy)]
pub enum Planned {
    Offer(u8),
    Step(u8),
    Collect(u8),
    Withdraw(u8),
    Runnable,
}

// Document 01's session: two offers, ten steps, two collections.
fn meeting_call(turn: u8) -> Planned {
    match turn {
        0 => Planned::Offer(0),
        1 => Planned::Offer(1),
        2..=6 | 11 => Planned::Step(0),
        7..=10 => Planned::Step(1),
        12 => Planned::Collect(1),
        _ => Planned::Collect(0),
    }
}

impl Plan {
    // The call at this turn of fourteen.
    pub fn next_call(self, turn: u8) -> Planned {
        match self {
            Plan::Meeting | Plan::Other => meeting_call(turn),
            Plan::Step => Planned::Step(1),
            Plan::StepSame => Planned::Step(0),
            Plan::Offer => Planned::Offer(0),
            Plan::Collect => Planned::Collect(0),
            Plan::Movers => Planned::Runnable,
            Plan::Withdraw => Planned::Withdraw(0),
        }
    }

    // Whether process 0 is put back after each call: its offers, collections and withdrawals are accepted only once in a row.
    pub fn resets(self) -> bool {
        matches!(self, Plan::Offer | Plan::Collect | Plan::Withdraw)
    }
}
