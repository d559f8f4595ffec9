ghost use Rattle.std.specs.Prelude.{◌≡◌, ◌^◌};

use crate::{
    APPLICATION_FORMAT, DLRR_BLOCK_TYPE, EXTENDED_REPORT_TYPE, FIR_FORMAT, GOODBYE_TYPE,
    MANTISSA_BITS, MANTISSA_LIMIT, MAX_DLRR_ITEMS, NACK_FORMAT, PAYLOAD_FEEDBACK_TYPE, PLI_FORMAT,
    RECEIVER_REPORT_TYPE, RECEPTION_REPORT_LEN, REMB_IDENTIFIER, RRTR_BLOCK_TYPE, SENDER_INFO_LEN,
    SENDER_REPORT_TYPE, SOURCE_DESCRIPTION_TYPE, TRANSPORT_FEEDBACK_TYPE, TWCC_FORMAT,
};

/// Which numbers the names have that contracts of this crate speak of.
pub fn named_numbers()
    ensures sender_report_type { SENDER_REPORT_TYPE ≡ 200 }
    ensures receiver_report_type { RECEIVER_REPORT_TYPE ≡ 201 }
    ensures source_description_type { SOURCE_DESCRIPTION_TYPE ≡ 202 }
    ensures goodbye_type { GOODBYE_TYPE ≡ 203 }
    ensures transport_feedback_type { TRANSPORT_FEEDBACK_TYPE ≡ 205 }
    ensures payload_feedback_type { PAYLOAD_FEEDBACK_TYPE ≡ 206 }
    ensures extended_report_type { EXTENDED_REPORT_TYPE ≡ 207 }
    ensures nack_format { NACK_FORMAT ≡ 1 }
    ensures twcc_format { TWCC_FORMAT ≡ 15 }
    ensures pli_format { PLI_FORMAT ≡ 1 }
    ensures fir_format { FIR_FORMAT ≡ 4 }
    ensures application_format { APPLICATION_FORMAT ≡ 15 }
    ensures rrtr_block_type { RRTR_BLOCK_TYPE ≡ 4 }
    ensures dlrr_block_type { DLRR_BLOCK_TYPE ≡ 5 }
    ensures max_dlrr_items { MAX_DLRR_ITEMS ≡ 21845 }
    ensures reception_report_len { RECEPTION_REPORT_LEN ≡ 24 }
    ensures sender_info_len { SENDER_INFO_LEN ≡ 24 }
    ensures remb { REMB_IDENTIFIER ≡ 0x52454d42 }
    ensures mantissa_bits { MANTISSA_BITS ≡ 18 }
    ensures mantissa_limit { MANTISSA_LIMIT ≡ 2 ^ 18 }
{}
