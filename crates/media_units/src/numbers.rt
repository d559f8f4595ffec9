ghost use Rattle.std.specs.Prelude.{◌≡◌};

use crate::{GREATEST_RATE, HISTORY_NANOS, NOT_HAPPENING_SECONDS, SECONDS_1900};

/// Which numbers the names have that contracts of this crate speak of.
pub fn named_numbers()
    ensures rate { GREATEST_RATE ≡ 10000000000 }
    ensures history { HISTORY_NANOS ≡ 1000000000 }
    ensures never { NOT_HAPPENING_SECONDS ≡ 3153600000 }
    ensures since_1900 { SECONDS_1900 ≡ 2208988800 }
{}
