// A guard of an offer: whether it is enabled, its partner, its action, its kind, and its rank.
ghost use Rattle.std.specs.Prelude.{◌≡◌, ◌≤◌, length, take, drop};
ghost use Rattle.command.specs.Commands.{before, send_in, action_in, digit_count, guard_from, plain_guard_in, marked_in, kinded_guard_in, guard_in};

use crate::fields::length_before;
use crate::messages::read_message;
use alternative::{Action, Guard, of_kind, of_rank};
use text::{is_digit, read_byte_number};

// The bytes after a `!`.
#[tactic(auto, unfolding(crate::specs::Commands::send_in))]
fn send_action(s: &[u8]) -> Option<Action>
    ensures { result ≡ send_in s.now }
{
    read_message(s).map(Action::Send)
}

// An action by its sign.
fn read_action(s: &[u8]) -> Option<Action>
    ensures { result ≡ action_in s.now }
{
    let [sign, rest @ ..] = s else {
        return None;
    };
    match sign {
        b'?' => rest.is_empty().then_some(Action::Receive),
        b'!' => send_action(rest),
        _ => None,
    }
}

// How many digits the bytes start with.
fn digit_count(s: &[u8]) -> usize
    ensures value { result ≡ digit_count s.now }
    ensures within { result ≤ length s.now }
{
    s.iter().take_while(|b| is_digit(**b)).count()
}

// A guard without its `-`: digits, and the action after them.
#[tactic(auto, unfolding(crate::specs::Commands::guard_from))]
fn guard_from(enabled: bool, s: &[u8]) -> Option<Guard>
    ensures { result ≡ guard_from enabled s.now }
{
    let (digits, sign) = s.split_at(digit_count(s));
    let partner = read_byte_number(digits)?;
    let action = read_action(sign)?;
    Some(Guard {
        enabled,
        partner,
        kind: 0,
        rank: 0,
        action,
    })
}

// A guard without its kind and rank.
fn read_plain_guard(s: &[u8]) -> Option<Guard>
    ensures { result ≡ plain_guard_in s.now }
{
    match s {
        [] => None,
        [b'-', guard @ ..] => guard_from(false, guard),
        _ => guard_from(true, s),
    }
}

// A kind or a rank: 0 if nothing stands there, else the number after the first byte, which is the mark.
fn read_marked(s: &[u8]) -> Option<u8>
    ensures { result ≡ marked_in s.now }
{
    match s {
        [] => Some(0),
        [_, number @ ..] => read_byte_number(number),
    }
}

// A guard and its kind. A function of which this and `read_guard` were instances would take the mark, the reader and the setter, and say in
// its contract what each of the three is: more than what they share.
#[tactic(auto, unfolding(crate::specs::Commands::kinded_guard_in))]
fn read_kinded_guard(s: &[u8]) -> Option<Guard>
    ensures { result ≡ kinded_guard_in s.now }
{
    let (guard, kind) = s.split_at(length_before(b':', s));
    let guard = read_plain_guard(guard)?;
    let kind = read_marked(kind)?;
    Some(of_kind(guard, kind))
}

// A guard, its kind and its rank: all bytes of its field.
#[tactic(auto, unfolding(crate::specs::Commands::guard_in))]
pub fn read_guard(s: &[u8]) -> Option<Guard>
    ensures { result ≡ guard_in s.now }
{
    let (guard, rank) = s.split_at(length_before(b'^', s));
    let guard = read_kinded_guard(guard)?;
    let rank = read_marked(rank)?;
    Some(of_rank(guard, rank))
}
