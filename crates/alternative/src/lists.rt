// Guard lists in arrays of eight.
ghost use Rattle.std.specs.Prelude.{◌≡◌, take};
ghost use Rattle.alternative.specs.Guards.{slots};

use crate::{Guard, GuardList, blank_guard};

impl GuardList {
    // Its guards: the first `count`, and all eight where it counts more.
    pub fn as_slice(&self) -> &[Guard]
        ensures { result.now ≡ take self.now.count self.now.guards }
    {
        &self.guards[..self.count.min(8)]
    }
}

// The slots of a list of `count` guards, blank past its end.
pub fn blanked(guards: [Guard; 8], count: usize) -> [Guard; 8]
    ensures { result ≡ slots (take count guards) }
{
    let mut out = guards;
    for k in count..8 {
        out[k] = blank_guard();
    }
    out
}
