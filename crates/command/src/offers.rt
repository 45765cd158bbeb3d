// An offer: its process, and its guards, one in each field.
ghost use Rattle.std.specs.Prelude.{◌≡◌};
ghost use Rattle.command.specs.Commands.{fields, guards_in, offer_in};
ghost use Rattle.command.specs.InCode.{as_parsed};
ghost use Rattle.command.specs.Private.{as_list, fields_after};

use crate::fields::length_before;
use crate::guards::read_guard;
use crate::lists::{no_guards, with_guard};
use crate::{Call, Command};
use alternative::GuardList;
use text::read_byte_number;

// The guards of an offer. The bytes start where the field of its process ends: at a space, or at the line's end.
fn read_guards(s: &[u8]) -> Option<GuardList>
    ensures { result ≡ as_list (guards_in (fields_after s.now)) }
{
    let mut list = no_guards();
    let mut rest = s;
    while let [_, fields @ ..] = rest {
        let (field, after) = fields.split_at(length_before(b' ', fields));
        list = with_guard(list, read_guard(field)?);
        rest = after;
    }
    Some(list)
}

// The bytes after `o` and a space: `P G..`.
pub fn parse_offer(s: &[u8]) -> Option<Command>
    ensures { result ≡ as_parsed (offer_in (fields s.now)) }
{
    let (p, rest) = s.split_at(length_before(b' ', s));
    let p = read_byte_number(p)?;
    let list = read_guards(rest)?;
    Some(Command::Do(Call::Offer { p, list }))
}
