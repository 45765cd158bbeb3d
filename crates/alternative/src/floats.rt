// f32 values: the test for a NaN, and the bits both ways.
ghost use Rattle.std.specs.Prelude.{◌≡◌};
ghost use Rattle.std.specs.Float.{binary32};
ghost use Rattle.std.specs.Float.Ieee.{nan_bits, to_bits, of_bits};
ghost use Rattle.alternative.specs.Exchange.{message_holds_nan, action_holds_nan};

use crate::{Action, Message};

// The bits of x. A NaN's payload has no place in the logic: every NaN gives the pattern 7fc00000.
pub fn bits_of(x: f32) -> u32
    ensures { result ≡ to_bits binary32 x }
{
    if x.is_nan() {
        return 0x7fc00000;
    }
    x.to_bits()
}

fn is_nan_pattern(bits: u32) -> bool
    ensures { result ≡ nan_bits binary32 bits }
{
    0x7f800000 < bits % 0x80000000
}

// The f32 with these bits, and a NaN for each pattern of one.
pub fn float_of(bits: u32) -> f32
    ensures { result ≡ of_bits binary32 bits }
{
    if is_nan_pattern(bits) {
        return f32::NAN;
    }
    f32::from_bits(bits)
}

fn message_holds_nan(m: Message) -> bool
    ensures { result ≡ message_holds_nan m }
{
    match m {
        Message::Nothing | Message::Whole(_) => false,
        Message::Reading(x) => x.is_nan(),
        Message::Limit(low, high) => low.is_nan() || high.is_nan(),
    }
}

// Whether a guard's message holds an f32 that is not a number.
pub fn action_holds_nan(a: Action) -> bool
    ensures { result ≡ action_holds_nan a }
{
    match a {
        Action::Receive => false,
        Action::Send(m) => message_holds_nan(m),
    }
}
