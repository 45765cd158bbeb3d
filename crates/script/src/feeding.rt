// The session, piece by piece. The loop over a piece's bytes hands no table on: a function that takes one copies it, and that would be
// most of a line's work.
ghost use Rattle.std.specs.Prelude.{◌/◌, min, ◌≡◌, ◌++◌, length, take, drop};
ghost use Rattle.text.specs.Writing.{shown, line_length};
ghost use Rattle.script.specs.Lines.{Line, line_command};
ghost use Rattle.script.specs.Session.{turn};
ghost use Rattle.script.specs.Feeding.{start, state_held, fed, finished};

use crate::acting::answer;
use crate::lines::{BEGUN_BYTES, line_command};
use crate::output::put;
use crate::printing::{malformed_line, printed_line};
use crate::{Fed, Session};
use rendezvous::ProcessTable;
use text::{LINE_BYTES, Text};

// A session before its first byte.
pub fn start() -> Session
    ensures { state_held result ≡ start }
{
    Session {
        length: 0,
        bytes: [0; BEGUN_BYTES],
        table: None,
    }
}

// What the turn of a line that has ended prints, and the table with which reading goes on.
fn turn(table: &mut Option<ProcessTable>, line: &[u8]) -> Text
    ensures prints { shown result ≡ (turn table.old (line_command (Line.Ended line.now))).prints }
    ensures table { table.new ≡ (turn table.old (line_command (Line.Ended line.now))).table }
{
    let Some(command) = line_command(line) else {
        return malformed_line();
    };
    match answer(table, command) {
        Some(said) => printed_line(command, said),
        None => malformed_line(),
    }
}

// Feeds a piece of the input, and writes what its lines print to the start of `out`. No line prints more than `LINE_BYTES`, so as many
// bytes are taken as `out` has room for if each of them ends a line. The session may hold any length: one past `BEGUN_BYTES` counts as
// `BEGUN_BYTES`.
pub fn feed(session: Session, piece: &[u8], out: &mut [u8]) -> Fed
    ensures taken { result.taken ≡ min (length piece.now) (length out.old / line_length) }
    ensures filled { result.filled ≡ length (fed (state_held session) (take result.taken piece.now)).prints }
    ensures session { state_held result.session ≡ (fed (state_held session) (take result.taken piece.now)).state }
    ensures written { out.new ≡ (fed (state_held session) (take result.taken piece.now)).prints ++ drop result.filled out.old }
{
    let mut table = session.table;
    let mut bytes = session.bytes;
    let mut held = session.length.min(BEGUN_BYTES);
    let taken = piece.len().min(out.len() / LINE_BYTES);
    let mut filled: usize = 0;
    for b in &piece[..taken] {
        if *b == b'\n' {
            filled = put(out, filled, turn(&mut table, &bytes[..held]));
            held = 0;
        } else if held < BEGUN_BYTES {
            bytes[held] = *b;
            held += 1;
        }
    }
    Fed {
        taken,
        filled,
        session: Session {
            length: held,
            bytes,
            table,
        },
    }
}

// What the end of the input prints: an unended last line is malformed.
pub fn finish(session: Session) -> Text
    ensures { shown result ≡ finished (state_held session) }
{
    if session.length == 0 {
        return Text::empty();
    }
    malformed_line()
}
