ghost use Rattle.std.specs.Prelude.{◌≡◌};

use crate::{
    DEFAULT_DELTA_MILLIS, DEFAULT_DURATION_MILLIS, DEFAULT_PACKETS, MAX_PADDING_PACKET_SIZE,
    PACING_TENTHS, PADDING_TARGET,
};

/// Which numbers the names have that contracts of this crate speak of.
pub fn named_numbers()
    ensures duration { DEFAULT_DURATION_MILLIS ≡ 15 }
    ensures delta { DEFAULT_DELTA_MILLIS ≡ 2 }
    ensures packets { DEFAULT_PACKETS ≡ 5 }
    ensures size { MAX_PADDING_PACKET_SIZE ≡ 240 }
    ensures padding { PADDING_TARGET ≡ 50000 }
    ensures pacing { PACING_TENTHS ≡ 11 }
{}
