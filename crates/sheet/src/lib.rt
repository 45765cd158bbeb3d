// The day sheet of document 02's request 6: one line of totals, for the table that a session ends with.
#![tactic(auto)]

ghost use Rattle.std.specs.Prelude.{◌≡◌};
ghost use Rattle.text.specs.Writing.{shown};
ghost use Rattle.script.specs.Feeding.{state_held};
ghost use Rattle.sheet.specs.Sheet.{totals_text, sheet_text, SheetOfPieces};
ghost use Rattle.sheet.specs.AddsUp.{SheetAddsUp};
ghost use Rattle.sheet.specs.Examples.{Examples};

use script::Session;
use text::Text;

// The line of four totals. It has at most 10, 20, 20 and 3 digits, three spaces and the end of line: less than a text holds.
fn totals_text(offers: u32, meetings: u64, withdrawn: u64, pending: u8) -> Text
    ensures { shown result ≡ totals_text offers meetings withdrawn pending }
{
    let offered = Text::empty().decimal(offers as u64);
    let met = offered.byte(b' ').decimal(meetings);
    let given_up = met.byte(b' ').decimal(withdrawn);
    given_up.byte(b' ').decimal(pending as u64).byte(b'\n')
}

// The sheet of the table that a session holds; before one was made all totals are 0.
pub fn sheet(session: Session) -> Text
    ensures { shown result ≡ sheet_text (state_held session).table }
{
    match session.table {
        Some(table) => totals_text(
            table.head.next.0,
            table.head.meetings,
            table.head.withdrawn,
            table.open_count(),
        ),
        None => totals_text(0, 0, 0, 0),
    }
}

// Carries the claim that the way in which the input is cut into pieces does not matter, so that the verdict has a line for it.
pub fn sheet_of_pieces()
    ensures { SheetOfPieces }
{}

// Carries the claim that the sheet of every script adds up, with the totals of the calls that have led to its table.
pub fn sheet_adds_up()
    ensures { SheetAddsUp }
{}

// Carries sheets of short scripts, worked out by hand.
pub fn examples()
    ensures { Examples }
{}
