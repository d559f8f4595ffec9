ghost use Rattle.std.specs.Prelude.{◌≡◌, ◌^◌};

use crate::{
    BIT_VECTOR_LEN, BODY_LIMIT, DELTA_NANOS, LARGE_DELTA_SYMBOL, LOSS_SPAN, MAX_RECORDS, MAX_RUN,
    MIN_REPORT_LEN, NOT_RECEIVED_SYMBOL, REFERENCE_NANOS, REPORT_SPAN, SMALL_DELTA_SYMBOL, SPAN,
    VECTOR_LEN,
};

/// Which numbers the names have that contracts of this crate speak of.
pub fn named_numbers()
    ensures body { BODY_LIMIT ≡ 2 ^ 18 }
    ensures run { MAX_RUN ≡ 8191 }
    ensures vector { VECTOR_LEN ≡ 7 }
    ensures bit_vector { BIT_VECTOR_LEN ≡ 14 }
    ensures not_received { NOT_RECEIVED_SYMBOL ≡ 0 }
    ensures small_delta { SMALL_DELTA_SYMBOL ≡ 1 }
    ensures large_delta { LARGE_DELTA_SYMBOL ≡ 2 }
    ensures delta { DELTA_NANOS ≡ 250000 }
    ensures reference { REFERENCE_NANOS ≡ 64000000 }
    ensures span { SPAN ≡ 32768 }
    ensures report_span { REPORT_SPAN ≡ 65534 }
    ensures loss_span { LOSS_SPAN ≡ 99 }
    ensures report { MIN_REPORT_LEN ≡ 24 }
    ensures records { MAX_RECORDS ≡ 1000 }
{}
