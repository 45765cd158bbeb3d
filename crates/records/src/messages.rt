// Rule 9's two messages, as nine bytes by value, so that they can go from one record to another.
ghost use Rattle.std.specs.Prelude.{◌+◌, ◌≤◌, ◌<◌, ◌≡◌, length};
ghost use Rattle.alternative.specs.Exchange.{sent_by, received_by};
ghost use Rattle.wire.specs.Reading.{message_of};
ghost use Rattle.records.specs.Layout.{part, own_at, posted_at, record_length, rest_length};
ghost use Rattle.records.specs.Reading.{action_of};

use crate::layout;
use wire::MESSAGE_BYTES;

// What guard k sends, of the list whose rest stands from byte `at` on: nothing if it receives.
pub fn sent_bytes(r: &[u8], at: usize, k: u8) -> [u8; MESSAGE_BYTES]
    requires { (at + rest_length ≤ length r.now) × (k < 8) }
    ensures { message_of result ≡ sent_by (action_of (part r.now at rest_length) k) }
{
    let mut message = [0u8; MESSAGE_BYTES];
    if r[at + layout::SENDS_IN + k as usize] != 0 {
        let o = at + layout::MESSAGES_IN + MESSAGE_BYTES * k as usize;
        message.copy_from_slice(&r[o..o + MESSAGE_BYTES]);
    }
    message
}

// What own guard i in x gets from posted guard k in y: the other's message if it receives, nothing if it sends.
pub fn received_bytes(x: &[u8], y: &[u8], i: u8, k: u8) -> [u8; MESSAGE_BYTES]
    requires { (record_length ≤ length x.now) × (record_length ≤ length y.now) × (i < 8) × (k < 8) }
    ensures { message_of result ≡ received_by (action_of (part x.now own_at rest_length) i) (action_of (part y.now posted_at rest_length) k) }
{
    if x[layout::OWN_AT + layout::SENDS_IN + i as usize] != 0 {
        return [0u8; MESSAGE_BYTES];
    }
    sent_bytes(y, layout::POSTED_AT, k)
}
