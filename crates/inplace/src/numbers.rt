// Words and numbers of 64 bits in a table's bytes.
ghost use Rattle.std.specs.Prelude.{◌+◌, ◌≤◌, ◌≡◌, length};
ghost use Rattle.wire.specs.Reading.{word_of, long_of};
ghost use Rattle.records.specs.Layout.{part};

// The word at byte `at`.
pub fn word_at(t: &[u8], at: usize) -> u32
    requires { at + 4 ≤ length t.now }
    ensures { result ≡ word_of (part t.now at 4) }
{
    u32::from_le_bytes([t[at], t[at + 1], t[at + 2], t[at + 3]])
}

// The number of 64 bits at byte `at`, the low word first.
#[tactic(auto, using(crate::proofs::Words::long_in))]
pub fn long_at(t: &[u8], at: usize) -> u64
    requires { at + 8 ≤ length t.now }
    ensures { result ≡ long_of (part t.now at 8) }
{
    word_at(t, at) as u64 + 4294967296 * word_at(t, at + 4) as u64
}
