ghost use Rattle.std.specs.Prelude.{◌≡◌};

use crate::{
    DATAGRAM_MTU, DATAGRAM_MTU_WARN, GREATEST_WARN, LEAST_TARGET, MAX_APPLICATION_LEN, MAX_ITEM_LEN,
};

/// Which numbers the names have that contracts of this crate speak of.
pub fn named_numbers()
    ensures usual_target { DATAGRAM_MTU ≡ 1150 }
    ensures usual_warn { DATAGRAM_MTU_WARN ≡ 1280 }
    ensures target { LEAST_TARGET ≡ 900 }
    ensures warn { GREATEST_WARN ≡ 1500 }
    ensures item { MAX_ITEM_LEN ≡ 880 }
    ensures application { MAX_APPLICATION_LEN ≡ 800 }
{}
