ghost use Rattle.std.specs.Prelude.{◌≡◌};

use crate::{MAX_CNAME_LEN, MAX_PAYLOAD_LEN, MAX_PLAIN_LEN};

/// Which numbers the names have that contracts of this crate speak of.
pub fn named_numbers()
    ensures payload { MAX_PAYLOAD_LEN ≡ 1400 }
    ensures plain { MAX_PLAIN_LEN ≡ 1562 }
    ensures names { MAX_CNAME_LEN ≡ 255 }
{}
