ghost use Rattle.std.specs.Prelude.{◌≡◌};

use crate::SSRC_DRAWS;

/// Which number the name has that contracts of this crate speak of.
pub fn named_numbers()
    ensures { SSRC_DRAWS ≡ 64 }
{}
