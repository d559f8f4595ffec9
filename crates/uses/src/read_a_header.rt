//! What stands behind the header of a packet, and under which number.
ghost use Rattle.std.specs.Prelude.{◌≡◌, true, false, Some, None, drop};
ghost use Rattle.std.specs.Option.{option_copied, option_map};
ghost use Rattle.rtp_base.specs.Widen.{widen16};
ghost use Rattle.rtp_wire.specs.Header.{header_of};
ghost use Rattle.rtp_wire.specs.Padding.{unpadded};
ghost use Rattle.rtp_wire.specs.declared.header.RtpHeader.{RtpHeader as Head};

use rtp_wire::{ExtensionMap, RtpHeader, SeqNo, header_reads_own_bytes};

/// The number of a packet, nearest to the last one of its source. None where no header stands.
pub fn number_of(bytes: &[u8], exts: &ExtensionMap, last: Option<SeqNo>) -> Option<SeqNo>
    ensures { result
        ≡ option_map (λ h. widen16 last h.sequence_number) (header_of exts.now bytes.now) }
{
    match RtpHeader::parse(bytes, exts) {
        Some(header) => Some(header.sequence_number(last)),
        None => None,
    }
}

/// The payload of a packet, without its padding. None where no header stands, or where the payload
/// does not end in the padding that it tells of.
pub fn payload_of<'a>(bytes: &'a [u8], exts: &ExtensionMap) -> Option<&'a [u8]>
    ensures none { header_of exts.now bytes.now ≡ None → result ≡ None }
    ensures plain { (h : Head) → header_of exts.now bytes.now ≡ Some h → h.has_padding ≡ false
        → option_copied result ≡ Some (drop h.header_len bytes.now) }
    ensures padded { (h : Head) → header_of exts.now bytes.now ≡ Some h → h.has_padding ≡ true
        → option_copied result ≡ unpadded (drop h.header_len bytes.now) }
{
    header_reads_own_bytes();
    let Some(header) = RtpHeader::parse(bytes, exts) else {
        return None;
    };
    let (_, payload) = bytes.split_at(header.header_len);
    if header.has_padding {
        RtpHeader::unpad_payload(payload)
    } else {
        Some(payload)
    }
}
