ghost use Rattle.std.specs.Prelude.{◌≡◌, ◌^◌};

use crate::{
    DEFAULT_AUDIO_NANOS, DEFAULT_CACHE_CAP, DEFAULT_CACHE_NANOS, DEFAULT_CACHE_PACKETS,
    DEFAULT_MTU_TARGET, DEFAULT_MTU_WARN, DEFAULT_PAUSE_THRESHOLD_NANOS, DEFAULT_VIDEO_NANOS,
    LAST_TIME, MOST_BYTES,
};

/// Which numbers the names have that contracts of this crate, and those of scripts, speak of.
pub fn named_numbers()
    ensures times { LAST_TIME ≡ 10 ^ 16 }
    ensures feedback { MOST_BYTES ≡ 800 }
    ensures packets { DEFAULT_CACHE_PACKETS ≡ 2000 }
    ensures age { DEFAULT_CACHE_NANOS ≡ 3000000000 }
    ensures cap { DEFAULT_CACHE_CAP ≡ 15 }
    ensures target { DEFAULT_MTU_TARGET ≡ 1150 }
    ensures warn { DEFAULT_MTU_WARN ≡ 1280 }
    ensures audio { DEFAULT_AUDIO_NANOS ≡ 5000000000 }
    ensures video { DEFAULT_VIDEO_NANOS ≡ 1000000000 }
    ensures pause { DEFAULT_PAUSE_THRESHOLD_NANOS ≡ 1500000000 }
{}
