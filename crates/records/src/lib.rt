// One process's record in bytes: what they are read as, whether they fit into a table, the searches in their lists, and what each rule and
// call writes into them.
#![tactic(auto)]

ghost use Rattle.records.specs.Claims.{RecordAsBytes};

mod entering;
mod fits;
mod layout;
mod lists;
mod messages;
mod places;
mod rules;
mod writes;

pub use entering::entered;
pub use fits::{is_open, record_fits};
pub use layout::{
    ACCEPTING_AT, ALTCOUNT_AT, COMMITTED, INDEX_AT, KEPT_AT, MET, OUTCOME_AT, OWN_AT, PARTNERS_AT,
    PLACE_AT, RECORD_BYTES, SCANNING, SHOWING, SIGNAL_AT, TICKET_AT, TRYING, WAITING,
};
pub use lists::kept_in;
pub use messages::{received_bytes, sent_bytes};
pub use places::place_in;
pub use rules::{own_rule, passes, scan_rule, scanned};
pub use writes::{closed, committed, given_up, idle, met, signalled};

// Carries the bytes of one record, in their order.
pub fn record_as_bytes()
    ensures { RecordAsBytes }
{}
