// How many bytes each part of a table takes, and where it stands in what holds it. The first part stands at 0; a part without a name
// here is one byte, and stands behind the one before it. The definitions have the same numbers (specs/Layout.antt).
use rendezvous::MOST_PROCESSES;

// A word, which is a number of 32 bits, and a number of 64 bits, which is two words: the lowest byte first.
pub const WORD_BYTES: usize = 4;

pub const LONG_BYTES: usize = 2 * WORD_BYTES;

// A message: its variant, two words.
pub const FIRST_AT: usize = 1;

pub const SECOND_AT: usize = FIRST_AT + WORD_BYTES;

pub const MESSAGE_BYTES: usize = SECOND_AT + WORD_BYTES;

// A guard: enabled, the partner, the kind, the rank, the action, which is its variant and a message.
pub const ACTION_AT: usize = 4;

pub const SENT_AT: usize = 1;

pub const GUARD_BYTES: usize = ACTION_AT + SENT_AT + MESSAGE_BYTES;

// The slots of a list of guards.
pub const SLOTS: usize = 8;

pub const GUARDS_BYTES: usize = SLOTS * GUARD_BYTES;

// A place: its variant, the index or, at S, the steps, the kept index, the outcome's message.
pub const OUTCOME_AT: usize = 3;

pub const PLACE_BYTES: usize = OUTCOME_AT + MESSAGE_BYTES;

// A signal: its variant, the index, its message.
pub const SIGNALLED_AT: usize = 2;

pub const SIGNAL_BYTES: usize = SIGNALLED_AT + MESSAGE_BYTES;

// A record: the place, the signal, the ticket, accepting and two counts, the own and the posted guards.
pub const SIGNAL_AT: usize = PLACE_BYTES;

pub const TICKET_AT: usize = SIGNAL_AT + SIGNAL_BYTES;

pub const ACCEPTING_AT: usize = TICKET_AT + WORD_BYTES;

pub const COUNT_AT: usize = ACCEPTING_AT + 1;

pub const ALTCOUNT_AT: usize = COUNT_AT + 1;

pub const GUARDS_AT: usize = ALTCOUNT_AT + 1;

pub const ALTLIST_AT: usize = GUARDS_AT + GUARDS_BYTES;

pub const RECORD_BYTES: usize = ALTLIST_AT + GUARDS_BYTES;

// A head: the number of processes, the length of a nap, the next ticket, the meetings, the withdrawn offers.
pub const NEXT_AT: usize = 2;

pub const MEETINGS_AT: usize = NEXT_AT + WORD_BYTES;

pub const WITHDRAWN_AT: usize = MEETINGS_AT + LONG_BYTES;

pub const HEAD_BYTES: usize = WITHDRAWN_AT + LONG_BYTES;

// A table: its head, a record for each process.
pub const RECORDS: usize = MOST_PROCESSES as usize;

pub const TABLE_BYTES: usize = HEAD_BYTES + RECORDS * RECORD_BYTES;
