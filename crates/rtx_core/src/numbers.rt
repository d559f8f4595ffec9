ghost use Rattle.std.specs.Prelude.{◌≡◌};

use crate::{
    COUNTING_AGE, DEFAULT_RTX_CACHE_DURATION, DEFAULT_RTX_CACHE_PACKETS, DEFAULT_RTX_RATIO_CAP,
    READING_AGE,
};

/// Which numbers the names have that contracts of this crate speak of.
pub fn named_numbers()
    ensures packets { DEFAULT_RTX_CACHE_PACKETS ≡ 2000 }
    ensures seconds { DEFAULT_RTX_CACHE_DURATION ≡ 3 }
    ensures hundredths { DEFAULT_RTX_RATIO_CAP ≡ 15 }
    ensures counting { COUNTING_AGE ≡ 1 }
    ensures reading { READING_AGE ≡ 50 }
{}
