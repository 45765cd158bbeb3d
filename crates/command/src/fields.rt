// Parts of a line: where a field ends, or a guard before its kind or rank, and a number that is the only field.
ghost use Rattle.std.specs.Prelude.{◌≡◌, ◌≤◌, length};
ghost use Rattle.command.specs.Commands.{before, fields, number_in};

use text::read_byte_number;

// How many bytes stand before the first `mark`, or before the end.
pub fn length_before(mark: u8, s: &[u8]) -> usize
    ensures value { result ≡ before mark s.now }
    ensures within { result ≤ length s.now }
{
    s.iter().position(|b| *b == mark).unwrap_or(s.len())
}

// A number that is the only field.
pub fn read_only_number(s: &[u8]) -> Option<u8>
    ensures { result ≡ number_in (fields s.now) }
{
    if length_before(b' ', s) < s.len() {
        return None;
    }
    read_byte_number(s)
}
