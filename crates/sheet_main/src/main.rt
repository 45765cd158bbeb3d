// The sheet program: it reads standard input to its end, feeds what it reads to a session, and writes the day sheet of the table that the
// session ends with. What the lines of the script print is thrown away; the sheet is written here, by a function with a `requires` for it.
#![tactic(auto)]

ghost use Rattle.std.specs.Prelude.{◌≡◌, IsOk, false};
ghost use Rattle.text.specs.Writing.{shown};
ghost use Rattle.script.specs.Feeding.{start, state_held};
ghost use Rattle.passes.specs.Turns.{AllPasses, ProgramEnds};
ghost use Rattle.sheet.specs.Sheet.{sheet_text};

use passes::{Failure, INPUT_BYTES, OUTPUT_BYTES};
use script::Session;
use std::io;
use std::io::Stdout;
use text::Text;

// Writes the sheet of the session that reading to the end of the input has led to, and nothing else.
fn write_sheet(
    read: Result<(), Failure>,
    session: &Session,
    text: Text,
    stdout: Stdout,
) -> io::Result<()>
    requires ended { IsOk read }
    requires read_to { AllPasses false start (state_held session.now) read }
    requires text_value { shown text ≡ sheet_text (state_held session.now).table }
{
    passes::write_text(text, stdout)
}

// At the end of the input the sheet is written; where not all could be read, there is none. Reading from the start, and writing nothing, has led
// to this session.
fn write_end(read: Result<(), Failure>, session: Session, stdout: Stdout) -> Result<(), Failure>
    requires { AllPasses false start (state_held session) read }
    ensures { ProgramEnds read result }
{
    passes::at_end(
        read,
        || write_sheet(read, &session, sheet::sheet(session), stdout),
    )
}

// What this shares with `script_main` is in `passes`. A function over both programs would take the name, the flag, two buffers, the session, what
// is written at the end and three streams, to hold these three calls.
fn main(rt: HostRuntime) {
    let mut session = script::start();
    let mut input = [0; INPUT_BYTES];
    let mut output = [0; OUTPUT_BYTES];
    let read = passes::read_all(
        &mut session,
        &mut input,
        &mut output,
        false,
        rt.stdin(),
        rt.stdout(),
    );
    passes::tell(b"sheet", write_end(read, session, rt.stdout()), rt.stderr());
}
