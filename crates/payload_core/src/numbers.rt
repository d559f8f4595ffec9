ghost use Rattle.std.specs.Prelude.{◌≡◌};

use crate::{RED_LEN_LIMIT, RED_OFFSET_LIMIT, TELE_EVENT_LEN, TELE_EVENT_MAX, TELE_VOLUME_MAX};

/// Which numbers the names have that contracts of this crate speak of.
pub fn named_numbers()
    ensures red_length { RED_LEN_LIMIT ≡ 1024 }
    ensures red_offset { RED_OFFSET_LIMIT ≡ 0x4000 }
    ensures event_length { TELE_EVENT_LEN ≡ 4 }
    ensures event { TELE_EVENT_MAX ≡ 15 }
    ensures volume { TELE_VOLUME_MAX ≡ 63 }
{}
