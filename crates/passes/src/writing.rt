// A text, written to standard output.
ghost use Rattle.std.specs.Prelude.{◌≡◌};
ghost use Rattle.text.specs.Writing.{shown};

use std::io;
use std::io::Stdout;
use text::Text;

// Writes the bytes that a text shows, and nothing else.
fn write_shown(text: Text, bytes: &[u8], stdout: Stdout) -> io::Result<()>
    requires { bytes.now ≡ shown text }
{
    stdout.write_all(bytes)
}

// Writes a text. Which text it may be is asked by the program that calls this.
pub fn write_text(text: Text, stdout: Stdout) -> io::Result<()> {
    write_shown(text, text.as_slice(), stdout)
}
