// Bytes and numbers put behind a text.
ghost use Rattle.std.specs.Prelude.{◌≡◌, [], ◌∷◌, ◌++◌, ◌<◌};
ghost use Rattle.text.specs.Digits.{hex_glyph};
ghost use Rattle.text.specs.Writing.{decimal_up_to, decimal_text, whole_text, hex_up_to, hex_text, shown, capped};

use crate::{LINE_BYTES, Text};

// The digit of a value below 16, by arithmetic, as the project asks; below 10 it is the decimal digit as well.
#[tactic(auto, using(crate::proofs::Hexadecimals::glyphs))]
fn glyph(d: u64) -> u8
    requires { d < 16 }
    ensures { result ≡ hex_glyph d }
{
    if d < 10 {
        b'0' + d as u8
    } else {
        b'a' + (d - 10) as u8
    }
}

impl Text {
    #[tactic(auto, unfolding(crate::specs::Writing::shown))]
    pub fn empty() -> Text
        ensures { shown result ≡ [] }
    {
        Text {
            length: 0,
            bytes: [0; LINE_BYTES],
        }
    }

    // The bytes that it holds: of a length past `LINE_BYTES` all.
    #[tactic(auto, using(std::proofs::lemmas::List::take_min), unfolding(crate::specs::Writing::shown))]
    pub fn as_slice(&self) -> &[u8]
        ensures { result.now ≡ shown self.now }
    {
        &self.bytes[..self.length.min(LINE_BYTES)]
    }

    #[tactic(auto, using(crate::proofs::Capped::one_more))]
    pub fn byte(mut self, b: u8) -> Text
        ensures { shown result ≡ capped (shown self ++ b ∷ []) }
    {
        if self.length < LINE_BYTES {
            self.bytes[self.length] = b;
            self.length += 1;
        }
        self
    }

    // At most k + 1 decimal digits.
    #[tactic(auto, using(crate::proofs::Printed::decimal_digits))]
    fn decimal_up_to(self, k: u32, n: u64) -> Text
        ensures { shown result ≡ capped (shown self ++ decimal_up_to k n) }
    {
        if k == 0 {
            return self.byte(glyph(n % 10));
        }
        if n < 10 {
            return self.byte(glyph(n));
        }
        self.decimal_up_to(k - 1, n / 10).byte(glyph(n % 10))
    }

    pub fn decimal(self, n: u64) -> Text
        ensures { shown result ≡ capped (shown self ++ decimal_text n) }
    {
        self.decimal_up_to(19, n)
    }

    #[tactic(auto, using(crate::proofs::Printed::signs))]
    pub fn whole(self, x: i32) -> Text
        ensures { shown result ≡ capped (shown self ++ whole_text x) }
    {
        let signed = if x < 0 { self.byte(b'-') } else { self };
        signed.decimal(x.unsigned_abs() as u64)
    }

    // The last `digits` hexadecimal digits. Apart from `decimal_up_to`, as the two definitions are: it stops by the count alone, and writes zeros in front.
    #[tactic(auto, using(crate::proofs::Printed::hex_digits))]
    fn hex_up_to(self, digits: u32, n: u32) -> Text
        ensures { shown result ≡ capped (shown self ++ hex_up_to digits n) }
    {
        if digits == 0 {
            return self;
        }
        self.hex_up_to(digits - 1, n / 16)
            .byte(glyph((n % 16) as u64))
    }

    pub fn hex(self, n: u32) -> Text
        ensures { shown result ≡ capped (shown self ++ hex_text n) }
    {
        self.hex_up_to(8, n)
    }
}
