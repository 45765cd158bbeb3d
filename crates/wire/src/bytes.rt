// Bytes, words and numbers of 64 bits of a slice.
ghost use Rattle.std.specs.Prelude.{ℕ, ◌≡◌, ◌<◌, get_or, drop};
ghost use Rattle.std.proofs.lemmas.List.Edits.{sets};
ghost use Rattle.wire.specs.Reading.{word_of, long_of};
ghost use Rattle.wire.specs.Writing.{word_bytes, long_bytes};

use crate::layout::{LONG_BYTES, WORD_BYTES};
use std::array;

// Byte k, and 0 past the end.
pub fn byte_at(bytes: &[u8], k: usize) -> u8
    ensures { result ≡ get_or bytes.now k 0 }
{
    bytes.get(k).copied().unwrap_or(0)
}

// What stands from byte k on.
pub fn from(bytes: &[u8], k: usize) -> &[u8]
    ensures { result.now ≡ drop k bytes.now }
{
    &bytes[k.min(bytes.len())..]
}

// The first N bytes.
fn front<const N: usize>(bytes: &[u8]) -> [u8; N]
    ensures { (k : ℕ) → k < N → get_or result k 0 ≡ get_or bytes.now k 0 }
{
    array::from_fn(|k| byte_at(bytes, k))
}

// The word at the front.
#[tactic(auto, unfolding(crate::specs::Reading::word_of))]
pub fn word_of(bytes: &[u8]) -> u32
    ensures { result ≡ word_of bytes.now }
{
    u32::from_le_bytes(front(bytes))
}

#[tactic(auto, unfolding(crate::specs::Writing::word_bytes))]
pub fn word_bytes(x: u32) -> [u8; WORD_BYTES]
    ensures { result ≡ word_bytes x }
{
    u32::to_le_bytes(x)
}

// The number of 64 bits at the front.
#[tactic(auto, unfolding(crate::specs::Reading::long_of, crate::specs::Reading::word_of))]
pub fn long_of(bytes: &[u8]) -> u64
    ensures { result ≡ long_of bytes.now }
{
    u64::from_le_bytes(front(bytes))
}

#[tactic(auto, unfolding(crate::specs::Writing::long_bytes, crate::specs::Writing::word_bytes))]
pub fn long_bytes(x: u64) -> [u8; LONG_BYTES]
    ensures { result ≡ long_bytes x }
{
    u64::to_le_bytes(x)
}

// Writes bytes from byte `at` on. What goes past the end is dropped.
pub fn put_bytes(out: &mut [u8], at: usize, bytes: &[u8])
    ensures { out.new ≡ sets out.old at bytes.now }
{
    if at < out.len() {
        let n = bytes.len().min(out.len() - at);
        out[at..at + n].copy_from_slice(&bytes[..n]);
    }
}
