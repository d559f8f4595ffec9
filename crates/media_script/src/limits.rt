ghost use Rattle.std.specs.Prelude.{◌≡◌};

use crate::{DEFAULT_UNIX_SECS, MOST_MEDIA, MOST_SOURCE_BYTES, MOST_STREAMS, MOST_WORDS};

/// Which numbers the names have that contracts of this crate speak of.
pub fn named_numbers()
    ensures unix { DEFAULT_UNIX_SECS ≡ 1700000000 }
    ensures words { MOST_WORDS ≡ 16 }
    ensures media { MOST_MEDIA ≡ 64 }
    ensures streams { MOST_STREAMS ≡ 256 }
    ensures sources { MOST_SOURCE_BYTES ≡ 60 }
{}
