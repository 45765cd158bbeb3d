// A text put into the output.
ghost use Rattle.std.specs.Prelude.{◌≡◌};
ghost use Rattle.text.specs.Writing.{shown};
ghost use Rattle.script.specs.Private.{put_at, put_end};

use text::{LINE_BYTES, Text};

// Writes a text into the output at index `at`, and gives the index after it. Where there is no room for `LINE_BYTES`, the most that
// a text has, nothing is written.
pub fn put(out: &mut [u8], at: usize, text: Text) -> usize
    ensures value { result ≡ put_end at (shown text) out.old }
    ensures out_after { out.new ≡ put_at at (shown text) out.old }
{
    if out.len() < LINE_BYTES {
        return at;
    }
    if out.len() - LINE_BYTES < at {
        return at;
    }
    let bytes = text.as_slice();
    let end = at + bytes.len();
    out[at..end].copy_from_slice(bytes);
    end
}
