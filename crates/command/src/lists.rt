// Guard lists by value, put together guard by guard.
ghost use Rattle.std.specs.Prelude.{◌≡◌, [], ◌<◌};
ghost use Rattle.alternative.specs.Guards.{lent};
ghost use Rattle.command.specs.Private.{Grown};

use alternative::{Guard, GuardList, blank_guard};

// The empty list.
pub fn no_guards() -> GuardList
    ensures { result ≡ lent [] }
{
    GuardList {
        count: 0,
        guards: [blank_guard(); 8],
    }
}

// The list with one guard more: it is counted, and kept if it is among the first eight.
pub fn with_guard(mut list: GuardList, guard: Guard) -> GuardList
    requires { list.count < 18446744073709551615 }
    ensures { Grown list guard result }
{
    if list.count < 8 {
        list.guards[list.count] = guard;
    }
    list.count += 1;
    list
}
