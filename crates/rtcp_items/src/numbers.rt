ghost use Rattle.std.specs.Prelude.{◌≡◌};

use crate::{
    CNAME_TYPE, EMAIL_TYPE, LOC_TYPE, NAME_TYPE, NOTE_TYPE, PHONE_TYPE, PRIV_TYPE, TOOL_TYPE,
};

/// Which numbers the names have that contracts of this crate speak of.
pub fn named_numbers()
    ensures cname { CNAME_TYPE ≡ 1 }
    ensures name { NAME_TYPE ≡ 2 }
    ensures email { EMAIL_TYPE ≡ 3 }
    ensures phone { PHONE_TYPE ≡ 4 }
    ensures loc { LOC_TYPE ≡ 5 }
    ensures tool { TOOL_TYPE ≡ 6 }
    ensures note { NOTE_TYPE ≡ 7 }
    ensures extension { PRIV_TYPE ≡ 8 }
{}
