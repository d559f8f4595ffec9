ghost use Rattle.std.specs.Prelude.{◌≡◌};

use crate::{GREATEST_WARN, LEAST_TARGET, MAX_PT, MAX_UNIX_SECS, MOST_PACKETS};

/// Which numbers the names have that contracts of this crate speak of.
pub fn named_numbers()
    ensures types { MAX_PT ≡ 127 }
    ensures target { LEAST_TARGET ≡ 900 }
    ensures warn { GREATEST_WARN ≡ 1500 }
    ensures unix { MAX_UNIX_SECS ≡ 2075000000 }
    ensures packets { MOST_PACKETS ≡ 32000 }
{}
