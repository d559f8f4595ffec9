ghost use Rattle.std.specs.Prelude.{◌≡◌, ◌^◌};

use crate::READ_LIMIT;

/// Which number the name has that contracts of this crate speak of.
pub fn named_numbers()
    ensures { READ_LIMIT ≡ 2 ^ 40 }
{}
