ghost use Rattle.std.specs.Prelude.{◌≡◌};

use crate::ROOM;

/// Which numbers the names have that contracts of this crate speak of.
pub fn named_numbers()
    ensures room { ROOM ≡ 32 }
{}
