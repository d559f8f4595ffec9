ghost use Rattle.std.specs.Prelude.{◌≡◌};

use crate::{
    DEFAULT_RTT_NANOS, GRACE_ROUND_TRIPS, MAX_ENTRIES_BEFORE_ROUND, MAX_MISORDER, MAX_NACKS,
    MAX_NEGATIVE_LOSS, MAX_POSITIVE_LOSS, MAX_ROUND_ENTRIES, NACK_MIN_INTERVAL,
    NACK_RETRY_MARGIN_NANOS, WINDOW,
};

/// Which numbers the names have that contracts of this crate speak of.
pub fn named_numbers()
    ensures misorder { MAX_MISORDER ≡ 100 }
    ensures window { WINDOW ≡ 101 }
    ensures asks { MAX_NACKS ≡ 5 }
    ensures trip { DEFAULT_RTT_NANOS ≡ 100000000 }
    ensures rounds { NACK_MIN_INTERVAL ≡ 33000000 }
    ensures margin { NACK_RETRY_MARGIN_NANOS ≡ 5000000 }
    ensures grace { GRACE_ROUND_TRIPS ≡ 3 }
    ensures entries { MAX_ROUND_ENTRIES ≡ 6 }
    ensures before { MAX_ENTRIES_BEFORE_ROUND ≡ 25 }
    ensures loss { MAX_POSITIVE_LOSS ≡ 0x7fffff }
    ensures gain { MAX_NEGATIVE_LOSS ≡ 0x800000 }
{}
