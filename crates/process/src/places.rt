// What a place says: its letter and guard index, the word that others read, whether a process is idle or its offer open, and the outcome at M.
ghost use Rattle.std.specs.Prelude.{◌≡◌};
ghost use Rattle.process.specs.Process.{letter_of, state_of, index_of, is_idle, open_at};
ghost use Rattle.process.specs.InCode.{outcome_of};

use crate::{Place, Signal, State};

impl Place {
    pub fn state(self) -> State
        ensures { result ≡ state_of self }
    {
        match self {
            Place::Idle | Place::Entering | Place::Met(_, _) => State::Running,
            Place::Scanning(_)
            | Place::Trying(_)
            | Place::Committed(_, _)
            | Place::Posting
            | Place::Opening
            | Place::Showing => State::Alt,
            Place::Asleep(_) => State::Sleeping,
            Place::Waiting => State::Waiting,
        }
    }

    // Document 01's letter.
    pub fn letter(self) -> u8
        ensures { result ≡ letter_of self }
    {
        match self {
            Place::Idle => b'I',
            Place::Entering => b'E',
            Place::Met(_, _) => b'M',
            Place::Scanning(_) => b'A',
            Place::Trying(_) => b'T',
            Place::Committed(_, _) => b'C',
            Place::Posting => b'P',
            Place::Opening => b'O',
            Place::Showing => b'H',
            Place::Asleep(_) => b'S',
            Place::Waiting => b'W',
        }
    }

    // The guard index at A, T and C.
    pub fn index(self) -> Option<u8>
        ensures { result ≡ index_of self }
    {
        match self {
            Place::Scanning(i) | Place::Trying(i) | Place::Committed(i, _) => Some(i),
            _ => None,
        }
    }

    pub fn is_idle(self) -> bool
        ensures { result ≡ is_idle self }
    {
        matches!(self, Place::Idle)
    }

    // Whether the offer of a process there is open, by its wake count: at H and W it is while that is 0.
    pub fn is_open(self, accepting: bool) -> bool
        ensures { result ≡ open_at self accepting }
    {
        match self {
            Place::Entering
            | Place::Scanning(_)
            | Place::Trying(_)
            | Place::Posting
            | Place::Opening
            | Place::Asleep(_) => true,
            Place::Showing | Place::Waiting => accepting,
            Place::Idle | Place::Committed(_, _) | Place::Met(_, _) => false,
        }
    }

    // The outcome at M, as a signal has it: a guard index with a message, or absent.
    pub fn outcome(self) -> Signal
        ensures { result ≡ outcome_of self }
    {
        match self {
            Place::Met(i, m) => Some((i, m)),
            _ => None,
        }
    }
}
