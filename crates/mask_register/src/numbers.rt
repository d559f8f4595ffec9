ghost use Rattle.std.specs.Prelude.{◌≡◌};

use crate::MOST_MISSING;

/// Which number the name has that contracts of this crate speak of.
pub fn named_numbers()
    ensures { MOST_MISSING ≡ 100 }
{}
