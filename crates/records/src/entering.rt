// An accepted offer: its list, with blank slots behind it, its ticket and the place E.
ghost use Rattle.std.specs.Prelude.{◌≤◌, ◌<◌, ◌≡◌, [], length};
ghost use Rattle.alternative.specs.Guards.{slots};
ghost use Rattle.rendezvous.specs.Calls.{entering};
ghost use Rattle.records.specs.Layout.{record_length};
ghost use Rattle.records.specs.Reading.{process_of};
ghost use Rattle.records.specs.Private.{with_guards, with_guard};

use crate::layout;
use crate::writes::put_message;
use alternative::{Action, Guard, GuardList};
use process::TransactionId;
use wire::{MESSAGE_BYTES, flag_byte, message_bytes, put_bytes, word_bytes};

// All eight own guards become blank. Their messages stay, since none is read where a guard receives. Both numbers of bytes are known to the
// compiler, which makes a few wide stores of each.
fn cleared(r: &mut [u8])
    requires { record_length ≤ length r.old }
    ensures { process_of r.new ≡ with_guards (process_of r.old) (slots []) }
{
    r[layout::PARTNERS_AT..layout::PARTNERS_AT + 8].fill(0);
    r[layout::OWN_AT..layout::OWN_AT + layout::MESSAGES_IN].fill(0);
}

// Own guard k becomes g.
fn put_guard(r: &mut [u8], k: usize, g: Guard)
    requires { (record_length ≤ length r.old) × (k < 8) }
    ensures { process_of r.new ≡ with_guard (process_of r.old) k g }
{
    r[layout::PARTNERS_AT + k] = g.partner;
    r[layout::OWN_AT + k] = flag_byte(g.enabled);
    r[layout::OWN_AT + layout::KINDS_IN + k] = g.kind;
    r[layout::OWN_AT + layout::RANKS_IN + k] = g.rank;
    match g.action {
        Action::Receive => {
            r[layout::OWN_AT + layout::SENDS_IN + k] = 0;
        }
        Action::Send(m) => {
            r[layout::OWN_AT + layout::SENDS_IN + k] = 1;
            put_message(
                r,
                layout::OWN_AT + layout::MESSAGES_IN + MESSAGE_BYTES * k,
                message_bytes(m),
            );
        }
    }
}

// The record of a process whose offer is accepted.
pub fn entered(r: &mut [u8], ticket: TransactionId, list: GuardList)
    requires { (record_length ≤ length r.old) × (list.count ≤ 8) }
    ensures { process_of r.new ≡ entering (process_of r.old) ticket list }
{
    cleared(r);
    for (k, g) in list.guards[..list.count].iter().enumerate() {
        put_guard(r, k, *g);
    }
    put_bytes(r, layout::TICKET_AT, &word_bytes(ticket.0));
    r[layout::COUNT_AT] = list.count as u8;
    r[layout::PLACE_AT] = layout::ENTERING;
}
