// What a rendezvous hands over: rule 9's two messages.
ghost use Rattle.std.specs.Prelude.{◌≡◌};
ghost use Rattle.alternative.specs.Exchange.{sent_by, received_by};

use crate::{Action, Message};

// The message of a guard that sends; nothing of one that receives.
pub fn sent(own: Action) -> Message
    ensures { result ≡ sent_by own }
{
    match own {
        Action::Receive => Message::Nothing,
        Action::Send(m) => m,
    }
}

// What a guard's process gets from the guard that it meets: the other's message if it receives, nothing if it sends.
pub fn received(own: Action, other: Action) -> Message
    ensures { result ≡ received_by own other }
{
    match own {
        Action::Receive => sent(other),
        Action::Send(_) => Message::Nothing,
    }
}
