// The input, read in pieces.
ghost use Rattle.std.specs.Prelude.{◌*◌, ◌≤◌, ◌≡◌, true, length, take};
ghost use Rattle.text.specs.Writing.{line_length};
ghost use Rattle.script.specs.Feeding.{state_held, fed};
ghost use Rattle.passes.specs.Turns.{OnePass, AllPasses};

use crate::Failure;
use crate::answers::{after_read, after_write};
use script::{Fed, Session};
use std::io;
use std::io::{Read, Stdin, Stdout};
use text::LINE_BYTES;

// The most that a read brings.
pub const INPUT_BYTES: usize = 4096;

// Room for what these print: each of them may end a line.
pub const OUTPUT_BYTES: usize = INPUT_BYTES * LINE_BYTES;

// Feeds all of a piece, where the output has room for what it prints.
fn feed_all(session: Session, piece: &[u8], output: &mut [u8]) -> Fed
    requires { line_length * length piece.now ≤ length output.old }
    ensures session { state_held result.session ≡ (fed (state_held session) piece.now).state }
    ensures written { take result.filled output.new ≡ (fed (state_held session) piece.now).prints }
    ensures room { result.filled ≤ length output.new }
{
    script::feed(session, piece, output)
}

// Writes what a piece prints to a session, in a program that prints it, and nothing else.
fn write_printed(
    session: &Session,
    piece: &[u8],
    printed: &[u8],
    prints: bool,
    stdout: Stdout,
) -> io::Result<()>
    requires prints { prints ≡ true }
    requires printed_value { printed.now ≡ (fed (state_held session.now) piece.now).prints }
{
    stdout.write_all(printed)
}

// One read, and what it makes the session print; whether the program goes on. A program that does not print that throws it away: `prints` is
// a flag, and `stdout` no Option, since `OnePass` and the edit `written_where_thrown_away` speak of a stream where nothing is printed.
fn read_once(
    session: &mut Session,
    input: &mut [u8],
    output: &mut [u8],
    prints: bool,
    mut stdin: Stdin,
    stdout: Stdout,
) -> Result<bool, Failure>
    requires { line_length * length input.old ≤ length output.old }
    ensures { OnePass prints (state_held session.old) input.new (state_held session.new) result }
{
    let Some(count) = after_read(stdin.read(input))? else {
        return Ok(false);
    };
    let piece = &input[..count];
    let before = *session;
    let fed = feed_all(before, piece, output);
    *session = fed.session;
    if prints {
        after_write(write_printed(&before, piece, &output[..fed.filled], prints, stdout))?;
    }
    Ok(true)
}

// Reads to the end of the input, or to the first failure. No input has as many pieces as are counted here.
pub fn read_all(
    session: &mut Session,
    input: &mut [u8],
    output: &mut [u8],
    prints: bool,
    stdin: Stdin,
    stdout: Stdout,
) -> Result<(), Failure>
    requires { line_length * length input.old ≤ length output.old }
    ensures { AllPasses prints (state_held session.old) (state_held session.new) result }
{
    for _ in 0..u64::MAX {
        if !read_once(session, input, output, prints, stdin, stdout)? {
            return Ok(());
        }
    }
    Err(Failure::Endless)
}
