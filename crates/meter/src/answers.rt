// A number for each answer.
use rendezvous::{Answer, Refusal};

fn number(answer: Result<Answer, Refusal>) -> u64 {
    match answer {
        Ok(Answer::Made) => 0,
        Ok(Answer::Offered(id)) => id.0 as u64,
        Ok(Answer::Moved(_)) => 2,
        Ok(Answer::Unchanged) => 3,
        Ok(Answer::Collected(_, partner, _)) => partner as u64,
        Ok(Answer::Withdrawn) => 4,
        Ok(Answer::TooLate) => 5,
        Ok(Answer::Runnable(set)) => set as u64,
        Err(_) => 1000000007,
    }
}

pub fn added(sum: u64, answer: Result<Answer, Refusal>) -> u64 {
    sum.wrapping_add(number(answer))
}
