// What is printed for a command and its answer, put together in a text.
ghost use Rattle.std.specs.Prelude.{◌≡◌, ◌∷◌, ◌++◌};
ghost use Rattle.text.specs.Writing.{shown, capped, decimal_text};
ghost use Rattle.process.specs.Process.{letter_of, index_of};
ghost use Rattle.rendezvous.specs.Numbers.{Said, said};
ghost use Rattle.script.specs.Printing.{message_text, field, refusal_text, answer_text, ended};
ghost use Rattle.script.specs.Private.{call_text, line_text};

use alternative::{Message, bits_of};
use command::{Call, Command};
use process::Place;
use rendezvous::{Answer, Refusal};
use text::Text;

// A message as a guard writes it.
#[tactic(auto, unfolding(crate::specs::Printing::message_text))]
fn message_text(text: Text, m: Message) -> Text
    ensures { shown result ≡ capped (shown text ++ message_text m) }
{
    match m {
        Message::Nothing => text.byte(b'0'),
        Message::Whole(x) => text.byte(b'w').whole(x),
        Message::Reading(x) => text.byte(b'r').hex(bits_of(x)),
        Message::Limit(low, high) => text.byte(b'l').hex(bits_of(low)).hex(bits_of(high)),
    }
}

fn place_text(command: Text, place: Place) -> Text
    ensures { shown result ≡ capped (answer_text (shown command) (Said.place (letter_of place) (index_of place))) }
{
    let text = command.byte(b' ').byte(place.letter());
    match place.index() {
        None => text,
        Some(i) => text.decimal(i as u64),
    }
}

fn refusal_text(number: u8) -> Text
    ensures { shown result ≡ capped (refusal_text number) }
{
    Text::empty().byte(b'x').byte(b' ').decimal(number as u64)
}

fn outcome_text(command: Text, index: u8, partner: u8, m: Message) -> Text
    ensures { shown result ≡ capped (answer_text (shown command) (Said.outcome index partner m)) }
{
    let guard = command.byte(b' ').decimal(index as u64);
    let named = guard.byte(b' ').decimal(partner as u64);
    message_text(named.byte(b' '), m)
}

// How the line of an accepted command goes on.
fn accepted_text(command: Text, answer: Answer) -> Text
    ensures { shown result ≡ capped (answer_text (shown command) (said (Ok answer))) }
{
    match answer {
        Answer::Made => command,
        Answer::Offered(ticket) => command.byte(b' ').byte(b't').decimal(ticket.0 as u64),
        Answer::Moved(place) => place_text(command, place),
        Answer::Unchanged => command.byte(b' ').byte(b'='),
        Answer::Collected(index, partner, m) => outcome_text(command, index, partner, m),
        Answer::Withdrawn => command.byte(b' ').byte(b'o').byte(b'k'),
        Answer::TooLate => command
            .byte(b' ')
            .byte(b'l')
            .byte(b'a')
            .byte(b't')
            .byte(b'e'),
        Answer::Runnable(set) => command.byte(b' ').hex(set),
    }
}

fn answer_text(command: Text, answer: Result<Answer, Refusal>) -> Text
    ensures { shown result ≡ capped (answer_text (shown command) (said answer)) }
{
    match answer {
        Ok(accepted) => accepted_text(command, accepted),
        Err(refusal) => refusal_text(refusal.number()),
    }
}

// How the line of a command with a number begins.
fn command_text(letter: u8, number: u8) -> Text
    ensures { shown result ≡ letter ∷ field (decimal_text number) }
{
    Text::empty().byte(letter).byte(b' ').decimal(number as u64)
}

// The line of a malformed command.
pub fn malformed_line() -> Text
    ensures { shown result ≡ ended (refusal_text 8) }
{
    refusal_text(8).byte(b'\n')
}

// The line that begins with a command, and its answer.
fn answer_line(command: Text, answer: Result<Answer, Refusal>) -> Text
    ensures { shown result ≡ capped (ended (answer_text (shown command) (said answer))) }
{
    answer_text(command, answer).byte(b'\n')
}

// The line of a call and its answer.
fn call_line(call: Call, answer: Result<Answer, Refusal>) -> Text
    ensures { shown result ≡ call_text call answer }
{
    match call {
        Call::Offer { p, .. } => answer_line(command_text(b'o', p), answer),
        Call::Step(p) => answer_line(command_text(b's', p), answer),
        Call::Collect(p) => answer_line(command_text(b'c', p), answer),
        Call::Withdraw(p) => answer_line(command_text(b'w', p), answer),
    }
}

// The line of a command and its answer.
pub fn printed_line(command: Command, answer: Result<Answer, Refusal>) -> Text
    ensures { shown result ≡ line_text command answer }
{
    match command {
        Command::New { n, .. } => answer_line(command_text(b'n', n), answer),
        Command::Do(call) => call_line(call, answer),
        Command::Movers => answer_line(Text::empty().byte(b'm'), answer),
    }
}
