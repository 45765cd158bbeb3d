// The numbers that bytes spell: decimal, signed decimal and hexadecimal.
ghost use Rattle.std.specs.Prelude.{◌≡◌};
ghost use Rattle.text.specs.Digits.{hex_digit};
ghost use Rattle.text.specs.Reading.{is_digit, decimal, decimal_from, byte_number, whole, hex_word};
ghost use Rattle.text.specs.Private.{in_word, negative_of};

pub fn is_digit(b: u8) -> bool
    ensures { result ≡ is_digit b }
{
    b.is_ascii_digit()
}

// The number that decimal digits spell, where it has at most 32 bits. No digits spell 0.
#[tactic(auto, using(crate::proofs::Decimals::digits))]
fn read_digits(s: &[u8]) -> Option<u32>
    ensures { result ≡ in_word (decimal_from 0 s.now) }
{
    let mut a: u32 = 0;
    for &b in s {
        if !is_digit(b) {
            return None;
        }
        a = a.checked_mul(10)?.checked_add((b - b'0') as u32)?;
    }
    Some(a)
}

// The same without leading zeros, and with one digit at least.
#[tactic(auto, using(crate::proofs::Decimals::decimals))]
fn read_decimal(s: &[u8]) -> Option<u32>
    ensures { result ≡ in_word (decimal s.now) }
{
    match s {
        [] | [b'0', _, ..] => None,
        _ => read_digits(s),
    }
}

// A decimal number from 0 to 255.
#[tactic(auto, using(crate::proofs::Decimals::byte_numbers))]
pub fn read_byte_number(s: &[u8]) -> Option<u8>
    ensures { result ≡ byte_number s.now }
{
    u8::try_from(read_decimal(s)?).ok()
}

// -n as a signed number. There is no -0.
#[tactic(auto, using(crate::proofs::Integers::negatives))]
fn negative(n: u32) -> Option<i32>
    ensures { result ≡ negative_of n }
{
    if n == 0 {
        return None;
    }
    0i32.checked_sub_unsigned(n)
}

// A signed decimal number of 32 bits.
#[tactic(auto, using(crate::proofs::Decimals::wholes))]
pub fn read_whole(s: &[u8]) -> Option<i32>
    ensures { result ≡ whole s.now }
{
    match s {
        [b'-', digits @ ..] => negative(read_decimal(digits)?),
        _ => i32::try_from(read_decimal(s)?).ok(),
    }
}

// The value of a lower-case hexadecimal digit, by arithmetic.
#[tactic(auto, using(crate::proofs::Hexadecimals::hex_values))]
fn hex_digit(b: u8) -> Option<u32>
    ensures { result ≡ hex_digit b }
{
    match b {
        b'0'..=b'9' => Some((b - b'0') as u32),
        b'a'..=b'f' => Some((b - b'a' + 10) as u32),
        _ => None,
    }
}

// Eight lower-case hexadecimal digits.
#[tactic(auto, using(crate::proofs::Hexadecimals::words))]
pub fn read_hex_word(s: &[u8]) -> Option<u32>
    ensures { result ≡ hex_word s.now }
{
    if s.len() != 8 {
        return None;
    }
    let mut a: u32 = 0;
    for &b in s {
        a = a * 16 + hex_digit(b)?;
    }
    Some(a)
}
