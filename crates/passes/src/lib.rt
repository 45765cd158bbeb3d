// What the programs that read a script share: standard input is read to its end in pieces, as the reads happen to cut it, each piece is fed
// to a session, and a failure is told.
//
// No contract can say what `read` and `write` of the operating system do. So what a program makes of their answers is decided by
// functions of its own, in `answers`, and what it hands over is asked by the functions that write: each has a `requires` for the
// bytes, which its caller is proved to meet.
#![tactic(auto)]

mod answers;
mod reading;
mod telling;
mod writing;

pub use answers::at_end;
pub use reading::{INPUT_BYTES, OUTPUT_BYTES, read_all};
pub use telling::tell;
pub use writing::write_text;

// Why a program stops before it has done all: a read or a write has failed, or there were too many reads.
#[derive(Clone, Copy)]
pub enum Failure {
    Unreadable,
    Unwritable,
    Endless,
}
