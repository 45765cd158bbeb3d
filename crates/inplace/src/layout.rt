// Where each part of a table stands in its bytes: its head, then a record for each process. The definitions have the same numbers
// (specs/Layout.antt).
use records::RECORD_BYTES;
use rendezvous::MOST_PROCESSES;

pub const COUNT_AT: usize = 0;

pub const NAP_AT: usize = 1;

pub const NEXT_AT: usize = 4;

pub const MEETINGS_AT: usize = 8;

pub const WITHDRAWN_AT: usize = 16;

// Record p begins at `HEAD_BYTES + RECORD_BYTES * p`, written out where a record is lent: a proof that the part lies within the table needs the
// sum itself, which a function would hand over by a clause to be cited at each place.
pub const HEAD_BYTES: usize = 32;

// Every call asks for a slice of at least so many bytes, not for an array of as many: docs/PROMISES.md promises what stands behind the table, and an
// array excludes that.
pub const TABLE_BYTES: usize = HEAD_BYTES + RECORD_BYTES * MOST_PROCESSES as usize;
