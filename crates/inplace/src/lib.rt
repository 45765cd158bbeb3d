// The calls on a table in lent bytes, worked on in their place. Each reads what its rule needs and writes what its rule changes.
#![tactic(auto)]

ghost use Rattle.inplace.specs.Claims.{Lengths, HeadAsBytes};

mod collect;
mod create;
mod form;
mod layout;
mod numbers;
mod offer;
mod runnable;
mod step;
mod withdraw;

pub use collect::collect_in;
pub use create::create_in;
pub use form::formed_in;
pub use layout::{COUNT_AT, HEAD_BYTES, MEETINGS_AT, NEXT_AT, TABLE_BYTES, WITHDRAWN_AT};
pub use numbers::{long_at, word_at};
pub use offer::offer_in;
pub use runnable::runnable_in;
pub use step::step_in;
pub use withdraw::withdraw_in;

// Carries how many bytes a head, a record and a table have.
pub fn byte_lengths()
    ensures { Lengths }
{}

// Carries the bytes of one head, in their order.
pub fn head_as_bytes()
    ensures { HeadAsBytes }
{}
