// Every call for programs in other languages: a table, or a session of the script program, goes in and comes back as bytes, numbers go
// as they are. No call asks anything of its arguments: any bytes that are enough are a table or a session, and a table may be damaged.
// A call on too few bytes, or with a buffer that is too short, does nothing.
#![tactic(auto)]

ghost use Rattle.std.specs.Prelude.{◌≡◌, true};
ghost use Rattle.rendezvous.specs.Calls.{create, offer, step, collect, withdraw};
ghost use Rattle.rendezvous.specs.Movers.{runnable};
ghost use Rattle.wire.specs.Reading.{table_of, offer_of};
ghost use Rattle.script.specs.Feeding.{start};
ghost use Rattle.exports.specs.Layout.{AnswerAndSession};
ghost use Rattle.exports.specs.Answers.{is_table, Gives};
ghost use Rattle.exports.specs.Scripts.{Stored, Feeds, Finishes, ByCalls};

use rendezvous::ProcessTable;
use wire::{decode, from, offer_of};

mod answers;
mod layout;
mod scripts;
mod through;

use answers::{give, is_table};
use scripts::{is_session, put_session, put_text, session_in};
use through::{limit_through, reading_through};

// The two values of a limit.
#[derive(Clone, Copy)]
struct Pair(f32, f32);

// The calls on a table are a line over `give` each; a function that takes the call as a closure would make none of them shorter.

// A fresh table of n processes with naps of `nap` own steps.
#[unsafe(no_mangle)]
pub extern "C" fn rendezvous_create(n: u8, nap: u8, out: &mut [u8], answer: &mut [u8]) -> bool
    ensures { Gives true (create n nap) out.old answer.old out.new answer.new result }
{
    give(true, ProcessTable::create(n, nap), out, answer)
}

// An offer by process p. `guards` holds the bytes of any number of guards.
#[unsafe(no_mangle)]
pub extern "C" fn rendezvous_offer(
    table: &[u8],
    p: u8,
    guards: &[u8],
    out: &mut [u8],
    answer: &mut [u8],
) -> bool
    ensures { Gives (is_table table.now) (offer (table_of table.now) p (offer_of guards.now)) out.old answer.old out.new answer.new result }
{
    give(
        is_table(table),
        decode(table).offer_list(p, offer_of(guards)),
        out,
        answer,
    )
}

// A step of process p.
#[unsafe(no_mangle)]
pub extern "C" fn rendezvous_step(table: &[u8], p: u8, out: &mut [u8], answer: &mut [u8]) -> bool
    ensures { Gives (is_table table.now) (step (table_of table.now) p) out.old answer.old out.new answer.new result }
{
    give(is_table(table), decode(table).step(p), out, answer)
}

// A collection from process p.
#[unsafe(no_mangle)]
pub extern "C" fn rendezvous_collect(table: &[u8], p: u8, out: &mut [u8], answer: &mut [u8]) -> bool
    ensures { Gives (is_table table.now) (collect (table_of table.now) p) out.old answer.old out.new answer.new result }
{
    give(is_table(table), decode(table).collect(p), out, answer)
}

// A withdrawal of process p's offer.
#[unsafe(no_mangle)]
pub extern "C" fn rendezvous_withdraw(
    table: &[u8],
    p: u8,
    out: &mut [u8],
    answer: &mut [u8],
) -> bool
    ensures { Gives (is_table table.now) (withdraw (table_of table.now) p) out.old answer.old out.new answer.new result }
{
    give(is_table(table), decode(table).withdraw(p), out, answer)
}

// The processes that can move.
#[unsafe(no_mangle)]
pub extern "C" fn rendezvous_runnable(table: &[u8], out: &mut [u8], answer: &mut [u8]) -> bool
    ensures { Gives (is_table table.now) (runnable (table_of table.now)) out.old answer.old out.new answer.new result }
{
    give(is_table(table), decode(table).runnable(), out, answer)
}

// A session of the script program before its first byte.
#[unsafe(no_mangle)]
pub extern "C" fn rendezvous_script_start(state: &mut [u8]) -> bool
    ensures { Stored true start state.old state.new result }
{
    put_session(script::start(), None, state)
}

// Feeds a piece of the input: as many of its bytes as `out` has room for, a line for each. `taken` and `filled` are set to how many were taken
// and how many bytes their lines print to the front of `out`: none and none if a session is too short.
#[unsafe(no_mangle)]
pub extern "C" fn rendezvous_script_feed(
    state: &[u8],
    piece: &[u8],
    after: &mut [u8],
    out: &mut [u8],
    taken: &mut usize,
    filled: &mut usize,
) -> bool
    ensures { Feeds state.now piece.now after.old out.old after.new out.new taken.new filled.new result }
{
    // `&`, so that both tests are the one value that `Stored` says is returned
    let whole = is_session(state) & is_session(after);
    if !whole {
        *taken = 0;
        *filled = 0;
        return false;
    }
    let fed = script::feed(session_in(state), piece, out);
    *taken = fed.taken;
    *filled = fed.filled;
    // where no table was made, what stands in its place in `state` goes on to `after`
    put_session(fed.session, Some(from(state, layout::TABLE_AT)), after)
}

// What the end of the input prints, to the front of `out`, and how many bytes that is; nothing if `out` has no room for a line, or if the
// session is too short.
#[unsafe(no_mangle)]
pub extern "C" fn rendezvous_script_finish(state: &[u8], out: &mut [u8]) -> usize
    ensures { Finishes state.now out.old out.new result }
{
    if !is_session(state) {
        return 0;
    }
    put_text(script::finish(session_in(state)), out)
}

// Carries the numbers of these lengths and offsets: of an answer where its word stands and how long it is, of a session where its table
// stands and how long it is, and how long a printed line is at most.
pub fn byte_lengths()
    ensures { AnswerAndSession }
{}

// Carries that a session which goes from call to call as bytes prints the whole output.
pub fn script_by_calls()
    ensures { ByCalls }
{}

// x, by way of a reading that a table holds in a refused offer, in steps and in a collection: for a test that its bits stay, a NaN's too.
#[unsafe(no_mangle)]
pub extern "C" fn rendezvous_reading_through(x: f32) -> f32
    ensures { result ≡ x }
{
    reading_through(x)
}

// Likewise by way of a limit: low, or high.
#[unsafe(no_mangle)]
pub extern "C" fn rendezvous_low_through(low: f32, high: f32) -> f32
    ensures { result ≡ low }
{
    limit_through(low, high).0
}

#[unsafe(no_mangle)]
pub extern "C" fn rendezvous_high_through(low: f32, high: f32) -> f32
    ensures { result ≡ high }
{
    limit_through(low, high).1
}
