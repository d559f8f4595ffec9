ghost use Rattle.std.specs.Prelude.{◌≡◌};

use crate::{CACHED_SIZE_LIMIT, CLASS_COUNT, CLASS_SIZE, INITIAL_CACHE_PACKETS};

/// Which numbers the names have that contracts of this crate speak of.
pub fn named_numbers()
    ensures span { CLASS_SIZE ≡ 25 }
    ensures classes { CLASS_COUNT ≡ 80 }
    ensures sizes { CACHED_SIZE_LIMIT ≡ 2000 }
    ensures room { INITIAL_CACHE_PACKETS ≡ 10 }
{}
