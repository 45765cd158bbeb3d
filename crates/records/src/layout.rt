// Where each part of a record stands in its bytes. What one test reads lies together: tags, indexes and counts in the first eight bytes, then
// the partners of both lists. The definitions have the same numbers (specs/Layout.antt).
pub const PLACE_AT: usize = 0;

// The guard's index at A, T, C and M; at S the steps made there.
pub const INDEX_AT: usize = 1;

pub const KEPT_AT: usize = 2;

pub const SIGNAL_AT: usize = 3;

pub const SIGNAL_INDEX_AT: usize = 4;

pub const COUNT_AT: usize = 5;

pub const ALTCOUNT_AT: usize = 6;

pub const ACCEPTING_AT: usize = 7;

// The eight partners of the own list, and of the posted one.
pub const PARTNERS_AT: usize = 8;

pub const POSTED_PARTNERS_AT: usize = 16;

pub const TICKET_AT: usize = 24;

// The message of the outcome, and of the signal.
pub const OUTCOME_AT: usize = 28;

pub const SIGNALLED_AT: usize = 37;

// The rest of the own list, and of the posted one.
pub const OWN_AT: usize = 48;

pub const POSTED_AT: usize = 152;

// Every function here asks for a slice of at least so many bytes, not for an array of as many: docs/PROMISES.md names the public ones, which take
// longer slices too, and an array excludes those.
pub const RECORD_BYTES: usize = 256;

// The rest of a list: eight bytes of enabled, then of sends, kinds and ranks, then eight messages.
pub const SENDS_IN: usize = 8;

pub const KINDS_IN: usize = 16;

pub const RANKS_IN: usize = 24;

pub const MESSAGES_IN: usize = 32;

pub const REST_BYTES: usize = 104;

// The tags of places, in document 01's order of the rules' letters: I E A T C P O H S W M. They are bytes of the format, so numbers: an enum
// would be read through a conversion of each byte that a test looks at, and every byte from 10 on is M's.
pub const IDLE: u8 = 0;

pub const ENTERING: u8 = 1;

pub const SCANNING: u8 = 2;

pub const TRYING: u8 = 3;

pub const COMMITTED: u8 = 4;

pub const POSTING: u8 = 5;

pub const OPENING: u8 = 6;

pub const SHOWING: u8 = 7;

pub const ASLEEP: u8 = 8;

pub const WAITING: u8 = 9;

// From here on every tag is M's.
pub const MET: u8 = 10;
