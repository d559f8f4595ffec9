ghost use Rattle.std.specs.Prelude.{◌≡◌, ◌^◌};

use crate::{
    MAX_NACK_ENTRY_NUMBERS, MAX_NAME_LEN, MAX_RED_RECOVERY_DEPTH, MAX_REPORTS, NUMBER_LIMIT,
    RTP_VERSION, SESSION_ID_LIMIT, WINDOW_LEN,
};

/// Which numbers the names have that contracts of this crate speak of.
pub fn named_numbers()
    ensures numbers { NUMBER_LIMIT ≡ 2 ^ 48 }
    ensures sessions { SESSION_ID_LIMIT ≡ 2 ^ 62 }
    ensures window { WINDOW_LEN ≡ 128 }
    ensures names { MAX_NAME_LEN ≡ 16 }
    ensures reports { MAX_REPORTS ≡ 31 }
    ensures entry { MAX_NACK_ENTRY_NUMBERS ≡ 17 }
    ensures version { RTP_VERSION ≡ 2 }
    ensures depth { MAX_RED_RECOVERY_DEPTH ≡ 8 }
{}
