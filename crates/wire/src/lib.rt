// The bytes of a process table, both ways: for programs in other languages, and for tables that no run of calls makes.
#![tactic(auto)]

ghost use Rattle.std.specs.Prelude.{◌≡◌, leb, length};
ghost use Rattle.wire.specs.Reading.{table_of};
ghost use Rattle.wire.specs.Layout.{Lengths, table_length};
ghost use Rattle.wire.specs.Writing.{bytes_of, onto};
ghost use Rattle.wire.specs.Claims.{Faithful, ReadsBack, GuardAsBytes, HeadAsBytes, NapAsBytes};

use process::fresh_process;
use rendezvous::ProcessTable;

mod bytes;
mod layout;
mod reading;
mod writing;

pub use bytes::{byte_at, from, long_bytes, put_bytes, word_bytes};
pub use layout::{MESSAGE_BYTES, SLOTS, TABLE_BYTES, WORD_BYTES};
pub use reading::{message_of, offer_of};
use reading::{head_of, process_of};
pub use writing::{flag_byte, message_bytes};
use writing::{head_bytes, process_bytes};

// The table that bytes are read as: any bytes are one.
pub fn decode(bytes: &[u8]) -> ProcessTable
    ensures { result ≡ table_of bytes.now }
{
    let mut processes = [fresh_process(); layout::RECORDS];
    for (p, x) in processes.iter_mut().enumerate() {
        *x = process_of(from(bytes, layout::HEAD_BYTES + layout::RECORD_BYTES * p));
    }
    ProcessTable {
        head: head_of(bytes),
        processes,
    }
}

// Writes the bytes of a table to the front of `out`, or nothing if `out` is too short, and says whether it wrote. Whatever the table,
// its bytes are read as that table. It comes by value: `Faithful` needs that its numbers fit, which a proof doesn't know behind a reference.
pub fn encode(table: ProcessTable, out: &mut [u8]) -> bool
    ensures { (result ≡ leb table_length (length out.old)) × (out.new ≡ onto table_length (bytes_of table) out.old) × Faithful table }
{
    if out.len() < TABLE_BYTES {
        return false;
    }
    put_bytes(out, 0, &head_bytes(&table.head));
    for (p, x) in table.processes.iter().enumerate() {
        put_bytes(
            out,
            layout::HEAD_BYTES + layout::RECORD_BYTES * p,
            &process_bytes(x),
        );
    }
    true
}

// Carries how many bytes a message, a guard, a record, a head and a table have, where in a record the signal, the ticket, accepting,
// the own and the posted guards stand, and where in a head the totals.
pub fn byte_lengths()
    ensures { Lengths }
{}

// Carries that a table is read back from its bytes.
pub fn reads_back()
    ensures { ReadsBack }
{}

// Carries the bytes of one guard, in their order.
pub fn guard_as_bytes()
    ensures { GuardAsBytes }
{}

// Carries the bytes of one head, in their order.
pub fn head_as_bytes()
    ensures { HeadAsBytes }
{}

// Carries the bytes of one sleeper's place, in their order.
pub fn nap_as_bytes()
    ensures { NapAsBytes }
{}
