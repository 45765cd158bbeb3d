// Numbers as bytes: what a script line spells, and a short text to print.
#![tactic(auto)]

ghost use Rattle.text.specs.Claims.{EdgeCases, ReadBack, ByteValues, ValueDigits};

mod reading;
mod writing;

pub use reading::{is_digit, read_byte_number, read_hex_word, read_whole};

// The most bytes of a printed line.
pub const LINE_BYTES: usize = 64;

// The first `length` bytes of `bytes`: an output line while it is put together. What goes beyond `LINE_BYTES` is dropped.
// An array and its length: there is no heap, and a text is copied, which an `arrayvec::ArrayVec` cannot be, nor a type whose `Model` is its bytes alone.
#[derive(Clone, Copy)]
pub struct Text {
    pub length: usize,
    pub bytes: [u8; LINE_BYTES],
}

// Carries the edge cases: at the ends of document 01's numbers the definitions say what it says, and at the ends of 64 bits no digit
// is lost.
#[tactic(auto, using(crate::proofs::Claimed::claims))]
pub fn edge_cases()
    ensures { EdgeCases }
{}

// Carries that each number that is printed is read back.
#[tactic(auto, using(crate::proofs::Claimed::claims))]
pub fn read_back()
    ensures { ReadBack }
{}

// Carries that each of the 256 bytes gives its value or is no hexadecimal digit.
#[tactic(auto, using(crate::proofs::Claimed::claims))]
pub fn byte_values()
    ensures { ByteValues }
{}

// Carries that each value from 0 to 15 gives its hexadecimal digit.
#[tactic(auto, using(crate::proofs::Claimed::claims))]
pub fn value_digits()
    ensures { ValueDigits }
{}
