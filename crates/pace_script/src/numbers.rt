ghost use Rattle.std.specs.Prelude.{◌≡◌, ◌+◌, ◌^◌};

use crate::{BYTES_LIMIT, MOST_TIME, MOST_WAIT, SIZE_LIMIT, WAIT_LIMIT};

/// Which numbers the names have that contracts of this crate speak of.
pub fn named_numbers()
    ensures times { MOST_TIME ≡ 10 ^ 16 }
    ensures bytes { BYTES_LIMIT ≡ 2 ^ 40 }
    ensures wait { MOST_WAIT ≡ 10 ^ 18 }
    ensures limit { WAIT_LIMIT ≡ 10 ^ 18 + 1 }
    ensures size { SIZE_LIMIT ≡ 2001 }
{}
