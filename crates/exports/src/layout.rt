// How many bytes an answer and a session take, and where in them each part stands. A part without a name here is one byte, and stands
// behind the one before it. The definitions have the same numbers (specs/Layout.antt).
use script::BEGUN_BYTES;
use wire::{MESSAGE_BYTES, TABLE_BYTES, WORD_BYTES};

// An answer: its variant, two bytes, a message, a word.
pub const MESSAGE_AT: usize = 3;

pub const WORD_AT: usize = MESSAGE_AT + MESSAGE_BYTES;

pub const ANSWER_BYTES: usize = WORD_AT + WORD_BYTES;

// A session: whether a table was made, how many bytes the begun line has, room for as many as it may have, the table.
pub const BEGUN_AT: usize = 2;

pub const TABLE_AT: usize = BEGUN_AT + BEGUN_BYTES;

pub const SESSION_BYTES: usize = TABLE_AT + TABLE_BYTES;
