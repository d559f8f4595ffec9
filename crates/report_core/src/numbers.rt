ghost use Rattle.std.specs.Prelude.{◌≡◌};

use crate::{LEAST_HELD_NANOS, MAX_ANSWERED_MOMENTS, MAX_WAITING_MOMENTS, TRIP_ERROR_NANOS};

/// Which numbers the names have that contracts of this crate speak of.
pub fn named_numbers()
    ensures waiting { MAX_WAITING_MOMENTS ≡ 300 }
    ensures answered { MAX_ANSWERED_MOMENTS ≡ 50 }
    ensures held { LEAST_HELD_NANOS ≡ 16000 }
    ensures error { TRIP_ERROR_NANOS ≡ 50000 }
{}
