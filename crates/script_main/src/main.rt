// The script program: it reads standard input to its end, feeds what it reads to a session, and writes what the session prints. What its
// pieces print, `passes` writes; what the end prints is written here, by a function with a `requires` for it.
#![tactic(auto)]

ghost use Rattle.std.specs.Prelude.{◌≡◌, IsOk, true};
ghost use Rattle.text.specs.Writing.{shown};
ghost use Rattle.script.specs.Feeding.{start, state_held, finished};
ghost use Rattle.passes.specs.Turns.{AllPasses, ProgramEnds};

use passes::{Failure, INPUT_BYTES, OUTPUT_BYTES};
use script::Session;
use std::io;
use std::io::Stdout;
use text::Text;

// Writes what the end of the input prints to the session that reading to it has led to, and nothing else.
fn write_finished(
    read: Result<(), Failure>,
    session: &Session,
    text: Text,
    stdout: Stdout,
) -> io::Result<()>
    requires ended { IsOk read }
    requires read_to { AllPasses true start (state_held session.now) read }
    requires text_value { shown text ≡ finished (state_held session.now) }
{
    passes::write_text(text, stdout)
}

// At the end of the input an unended last line is answered. Reading from the start, and writing what it prints, has led to this session.
fn write_end(read: Result<(), Failure>, session: Session, stdout: Stdout) -> Result<(), Failure>
    requires { AllPasses true start (state_held session) read }
    ensures { ProgramEnds read result }
{
    passes::at_end(
        read,
        || write_finished(read, &session, script::finish(session), stdout),
    )
}

// What this shares with `sheet_main` is in `passes`. A function over both programs would take the name, the flag, two buffers, the session, what
// is written at the end and three streams, to hold these three calls.
fn main(rt: HostRuntime) {
    let mut session = script::start();
    let mut input = [0; INPUT_BYTES];
    let mut output = [0; OUTPUT_BYTES];
    let read = passes::read_all(
        &mut session,
        &mut input,
        &mut output,
        true,
        rt.stdin(),
        rt.stdout(),
    );
    passes::tell(
        b"script",
        write_end(read, session, rt.stdout()),
        rt.stderr(),
    );
}
