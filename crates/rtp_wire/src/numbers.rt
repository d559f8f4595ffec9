ghost use Rattle.std.specs.Prelude.{◌≡◌, ◌^◌};

use crate::{
    ELEMENTS_ROOM, EXTENSION_ROOM, FIXED_HEADER_LEN, MAP_PLACES, MAX_BLANK_PADDING_PAYLOAD_SIZE,
    MAX_DELAY_STEPS, MAX_ELEMENTS_LEN, MAX_HEADER_LEN, MAX_ID_ONE_BYTE_FORM, MAX_MINUS_LEVEL,
    MAX_SOURCES, ONE_BYTE_PROFILE, ORIGINAL_NUMBER_LEN, PADDING_BLOCK_LEN, RESERVED_ID,
    SEND_TIME_LIMIT, SEND_TIME_UNITS, TWO_BYTE_PROFILE,
};

/// Which numbers the names have that contracts of this crate speak of.
pub fn named_numbers()
    ensures fixed { FIXED_HEADER_LEN ≡ 12 }
    ensures sources { MAX_SOURCES ≡ 15 }
    ensures header { MAX_HEADER_LEN ≡ 160 }
    ensures original { ORIGINAL_NUMBER_LEN ≡ 2 }
    ensures block { PADDING_BLOCK_LEN ≡ 16 }
    ensures padding { MAX_BLANK_PADDING_PAYLOAD_SIZE ≡ 240 }
    ensures ids { MAX_ID_ONE_BYTE_FORM ≡ 14 }
    ensures reserved { RESERVED_ID ≡ 15 }
    ensures places { MAP_PLACES ≡ 15 }
    ensures one_byte { ONE_BYTE_PROFILE ≡ 0xbede }
    ensures two_byte { TWO_BYTE_PROFILE ≡ 0x100 }
    ensures levels { MAX_MINUS_LEVEL ≡ 127 }
    ensures delays { MAX_DELAY_STEPS ≡ 4095 }
    ensures elements { MAX_ELEMENTS_LEN ≡ 75 }
    ensures elements_room { ELEMENTS_ROOM ≡ 76 }
    ensures extension_room { EXTENSION_ROOM ≡ 88 }
    ensures send_times { SEND_TIME_LIMIT ≡ 2 ^ 24 }
    ensures send_time_units { SEND_TIME_UNITS ≡ 2 ^ 18 }
{}
