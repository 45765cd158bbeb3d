// A whole line: its letter, and what stands after it.
ghost use Rattle.std.specs.Prelude.{◌≡◌};
ghost use Rattle.command.specs.Commands.{fields, by_letter, command_of};
ghost use Rattle.command.specs.InCode.{as_parsed};

use crate::fields::read_only_number;
use crate::offers::parse_offer;
use crate::tables::parse_new;
use crate::{Call, Command};

// A letter, and the bytes after the space that follows it: one field or more. The movers have none.
fn parse_with(letter: u8, s: &[u8]) -> Option<Command>
    ensures { result ≡ as_parsed (by_letter letter (fields s.now)) }
{
    match letter {
        b'n' => parse_new(s),
        b'o' => parse_offer(s),
        b's' => read_only_number(s).map(|p| Command::Do(Call::Step(p))),
        b'c' => read_only_number(s).map(|p| Command::Do(Call::Collect(p))),
        b'w' => read_only_number(s).map(|p| Command::Do(Call::Withdraw(p))),
        _ => None,
    }
}

// The command that the bytes of a line write.
pub fn parse(line: &[u8]) -> Option<Command>
    ensures { result ≡ as_parsed (command_of line.now) }
{
    match line {
        [letter] => (*letter == b'm').then_some(Command::Movers),
        [letter, b' ', rest @ ..] => parse_with(*letter, rest),
        _ => None,
    }
}
