// A session of the script program between two pieces of its input, in bytes, and what it prints.
ghost use Rattle.std.specs.Prelude.{◌≡◌, true, cond, ◌++◌, leb, length, take, drop};
ghost use Rattle.text.specs.Writing.{shown, line_length};
ghost use Rattle.script.specs.Feeding.{state_held};
ghost use Rattle.exports.specs.Scripts.{state_in, is_session, Stored};

use crate::layout;
use rendezvous::ProcessTable;
use script::{BEGUN_BYTES, Session};
use text::{LINE_BYTES, Text};
use wire::{TABLE_BYTES, byte_at, decode, encode, flag_byte, from, put_bytes};

// Whether bytes are enough for a session.
pub fn is_session(bytes: &[u8]) -> bool
    ensures { result ≡ is_session bytes.now }
{
    layout::SESSION_BYTES <= bytes.len()
}

// The session that bytes are read as.
pub fn session_in(state: &[u8]) -> Session
    ensures { state_held result ≡ state_in state.now }
{
    // it takes long to read a table, so one that was not made is not read
    let made = byte_at(state, 0) != 0;
    let mut bytes = [0; BEGUN_BYTES];
    put_bytes(&mut bytes, 0, from(state, layout::BEGUN_AT));
    Session {
        length: byte_at(state, 1) as usize,
        bytes,
        table: if made {
            Some(decode(from(state, layout::TABLE_AT)))
        } else {
            None
        },
    }
}

// Writes the bytes of a session to the front of `out`, or nothing if `out` is too short, and says whether it wrote. Where no table was
// made, another stands in its place: the one that `unmade` is read as, so that what stood there goes on from call to call, or that of no
// process.
pub fn put_session(session: Session, unmade: Option<&[u8]>, out: &mut [u8]) -> bool
    ensures { Stored true (state_held session) out.old out.new result }
{
    // it takes long to make a table, so the one that stands in the place is made only where it is needed
    let table = match session.table {
        Some(table) => table,
        None => match unmade {
            Some(bytes) => decode(bytes),
            None => ProcessTable::create(0, 0).table,
        },
    };
    // `encode` writes to the front of a buffer, so the table's bytes are laid out apart
    let mut encoded = [0; TABLE_BYTES];
    encode(table, &mut encoded);
    // a begun line never holds more bytes than it has room for, whatever a session says
    let length = session.length.min(BEGUN_BYTES) as u8;
    if !is_session(out) {
        return false;
    }
    put_bytes(out, 0, &[flag_byte(session.table.is_some()), length]);
    put_bytes(out, layout::BEGUN_AT, &session.bytes);
    put_bytes(out, layout::TABLE_AT, &encoded);
    true
}

// Writes a text to the front of `out`, or nothing if `out` has no room for a line, and says how many bytes it wrote.
pub fn put_text(text: Text, out: &mut [u8]) -> usize
    ensures { (result ≡ cond (leb line_length (length out.old)) (length (shown text)) 0) × (out.new ≡ take result (shown text) ++ drop result out.old) }
{
    if out.len() < LINE_BYTES {
        return 0;
    }
    let bytes = text.as_slice();
    put_bytes(out, 0, bytes);
    bytes.len()
}
