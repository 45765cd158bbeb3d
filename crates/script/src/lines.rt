// The command of a line.
ghost use Rattle.std.specs.Prelude.{◌≡◌};
ghost use Rattle.command.specs.InCode.{as_parsed};
ghost use Rattle.script.specs.Lines.{Line, line_command};

use command::{Command, parse};

// The most bytes that a line may have.
pub const MOST_BYTES: usize = 200;

// The room for a begun line: one byte more than a line may have tells an overlong one.
pub const BEGUN_BYTES: usize = MOST_BYTES + 1;

// The command of a line that has ended.
#[tactic(auto, unfolding(crate::specs::Lines::line_command))]
pub fn line_command(line: &[u8]) -> Option<Command>
    ensures { result ≡ as_parsed (line_command (Line.Ended line.now)) }
{
    if MOST_BYTES < line.len() {
        return None;
    }
    parse(line)
}
