// The message that a guard sends, as a line writes it.
ghost use Rattle.std.specs.Prelude.{◌≡◌};
ghost use Rattle.command.specs.Commands.{whole_in, reading_in, limit_in, message_in};

use alternative::{Message, float_of};
use text::{read_hex_word, read_whole};

// The bytes after a `w`.
#[tactic(auto, unfolding(crate::specs::Commands::whole_in))]
fn whole_message(s: &[u8]) -> Option<Message>
    ensures { result ≡ whole_in s.now }
{
    read_whole(s).map(Message::Whole)
}

// The bytes after an `r`.
#[tactic(auto, unfolding(crate::specs::Commands::reading_in))]
fn reading_message(s: &[u8]) -> Option<Message>
    ensures { result ≡ reading_in s.now }
{
    read_hex_word(s).map(|bits| Message::Reading(float_of(bits)))
}

// The bytes after an `l`: eight digits, and eight more that end it.
#[tactic(auto, unfolding(crate::specs::Commands::limit_in))]
fn limit_message(s: &[u8]) -> Option<Message>
    ensures { result ≡ limit_in s.now }
{
    let (low, high) = s.split_at_checked(8)?;
    let low = read_hex_word(low)?;
    let high = read_hex_word(high)?;
    Some(Message::Limit(float_of(low), float_of(high)))
}

// A message by its letter.
pub fn read_message(s: &[u8]) -> Option<Message>
    ensures { result ≡ message_in s.now }
{
    let [letter, rest @ ..] = s else {
        return None;
    };
    match letter {
        b'0' => rest.is_empty().then_some(Message::Nothing),
        b'w' => whole_message(rest),
        b'r' => reading_message(rest),
        b'l' => limit_message(rest),
        _ => None,
    }
}
