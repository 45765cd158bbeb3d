// What a call hands back, in bytes.
ghost use Rattle.std.specs.Prelude.{◌≡◌};
ghost use Rattle.rendezvous.specs.Numbers.{said};
ghost use Rattle.process.specs.Process.{index_of};
ghost use Rattle.exports.specs.Answers.{laid_out, index_byte, said_bytes, is_table, Gives};

use crate::layout;
use alternative::Message;
use process::Place;
use rendezvous::{Answer, Refusal, Reply};
use wire::{TABLE_BYTES, encode, message_bytes, put_bytes, word_bytes};

fn laid_out(variant: u8, a: u8, b: u8, m: Message, word: u32) -> [u8; layout::ANSWER_BYTES]
    ensures { result ≡ laid_out variant a b m word }
{
    let mut out = [0; layout::ANSWER_BYTES];
    put_bytes(&mut out, 0, &[variant, a, b]);
    put_bytes(&mut out, layout::MESSAGE_AT, &message_bytes(m));
    put_bytes(&mut out, layout::WORD_AT, &word_bytes(word));
    out
}

// A place's guard index, 0 where it has none.
fn place_index(place: Place) -> u8
    ensures { result ≡ index_byte (index_of place) }
{
    match place {
        Place::Scanning(i) | Place::Trying(i) | Place::Committed(i, _) => i,
        Place::Idle
        | Place::Entering
        | Place::Posting
        | Place::Opening
        | Place::Showing
        | Place::Asleep(_)
        | Place::Waiting
        | Place::Met(_, _) => 0,
    }
}

// The numbers are those that C reads (docs/BYTES.md).
fn answer_bytes(answer: Result<Answer, Refusal>) -> [u8; layout::ANSWER_BYTES]
    ensures { result ≡ said_bytes (said answer) }
{
    match answer {
        Ok(Answer::Made) => laid_out(0, 0, 0, Message::Nothing, 0),
        Ok(Answer::Offered(ticket)) => laid_out(1, 0, 0, Message::Nothing, ticket.0),
        Ok(Answer::Moved(place)) => laid_out(
            2,
            place.letter(),
            place_index(place),
            Message::Nothing,
            0,
        ),
        Ok(Answer::Unchanged) => laid_out(3, 0, 0, Message::Nothing, 0),
        Ok(Answer::Collected(i, q, m)) => laid_out(4, i, q, m, 0),
        Ok(Answer::Runnable(set)) => laid_out(5, 0, 0, Message::Nothing, set),
        Err(refusal) => laid_out(6, refusal.number(), 0, Message::Nothing, 0),
        Ok(Answer::Withdrawn) => laid_out(7, 0, 0, Message::Nothing, 0),
        Ok(Answer::TooLate) => laid_out(8, 0, 0, Message::Nothing, 0),
    }
}

// Whether bytes are enough for a table.
pub fn is_table(bytes: &[u8]) -> bool
    ensures { result ≡ is_table bytes.now }
{
    TABLE_BYTES <= bytes.len()
}

// Writes a reply into two buffers and says that it did; writes nothing if one of them is too short, or if the table that was read (`read`) was.
// A call of it would keep one more copy of the table on the stack.
#[inline(always)]
pub fn give(read: bool, reply: Reply, table: &mut [u8], answer: &mut [u8]) -> bool
    ensures { Gives read reply table.old answer.old table.new answer.new result }
{
    // `&`, so that the three tests are the one value that `Gives` says is returned
    let whole = read & (TABLE_BYTES <= table.len()) & (layout::ANSWER_BYTES <= answer.len());
    if !whole {
        return false;
    }
    encode(reply.table, table);
    put_bytes(answer, 0, &answer_bytes(reply.answer));
    true
}
