// A new table: its number of processes, and the length of its naps.
ghost use Rattle.std.specs.Prelude.{◌≡◌};
ghost use Rattle.command.specs.Commands.{fields, nap_in, new_in};
ghost use Rattle.command.specs.InCode.{as_parsed};
ghost use Rattle.command.specs.Private.{fields_after};

use crate::Command;
use crate::fields::{length_before, read_only_number};
use text::read_byte_number;

// The length of a nap. The bytes start where the field of N ends: at a space, or at the line's end, where it is 1.
fn read_nap(s: &[u8]) -> Option<u8>
    ensures { result ≡ nap_in (fields_after s.now) }
{
    match s {
        [] => Some(1),
        [_, nap @ ..] => read_only_number(nap),
    }
}

// The bytes after `n` and a space: `N`, or `N D`.
pub fn parse_new(s: &[u8]) -> Option<Command>
    ensures { result ≡ as_parsed (new_in (fields s.now)) }
{
    let (n, rest) = s.split_at(length_before(b' ', s));
    let n = read_byte_number(n)?;
    let nap = read_nap(rest)?;
    Some(Command::New { n, nap })
}
