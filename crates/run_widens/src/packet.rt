ghost use Rattle.std.specs.Prelude.{◌≡◌, ◌≤◌};
ghost use Rattle.std.specs.Prelude.{None, MatchOption};
ghost use Rattle.run_model.specs.Transcripts.{plain_in};
ghost use Rattle.run_model.specs.Receiving.{cut};
ghost use Rattle.rtp_wire.specs.Repairs.{original_number};
ghost use Rattle.run_widens.specs.Packets.{plain_of, Repairs};

use rtp_base::wire::half;
use rtp_wire::{ExtensionMap, MAX_SOURCES, Pt, RtpHeader, header_reads_own_bytes};

// An RTP datagram as its header reads, with what stands behind the header.
#[derive(Clone, Copy)]
pub(crate) struct Packet<'a> {
    pub(crate) pt: Pt,
    pub(crate) padded: bool,
    pub(crate) marker: bool,
    pub(crate) time: u32,
    pub(crate) csrc: [u32; MAX_SOURCES],
    pub(crate) csrc_count: usize,
    pub(crate) payload: &'a [u8],
}

// The packet that the bytes are, one without anything where no header stands.
pub(crate) fn read<'a>(exts: &ExtensionMap, bytes: &'a [u8]) -> Packet<'a>
    ensures plain { plain_of result ≡ plain_in exts.now bytes.now }
    ensures sources { result.csrc_count ≤ MAX_SOURCES }
{
    header_reads_own_bytes();
    let Some(header) = RtpHeader::parse(bytes, exts) else {
        return Packet {
            pt: Pt::from(0),
            padded: false,
            marker: false,
            time: 0,
            csrc: [0; MAX_SOURCES],
            csrc_count: 0,
            payload: &[],
        };
    };
    let (_, payload) = bytes.split_at(header.header_len);
    let csrc = header.csrc;
    Packet {
        pt: header.payload_type,
        padded: header.has_padding,
        marker: header.marker,
        time: header.timestamp,
        csrc,
        csrc_count: header.csrc_count,
        payload,
    }
}

impl<'a> Packet<'a> {
    fn cut(&self) -> &'a [u8]
        ensures { result.now ≡ cut (plain_of self.now) }
    {
        if !self.padded {
            return self.payload;
        }
        match RtpHeader::unpad_payload(self.payload) {
            Some(payload) => payload,
            None => self.payload,
        }
    }

    // The low 16 bits of the number that a repair restores, and what stands behind them.
    pub(crate) fn original(&self) -> Option<(u16, &'a [u8])>
        ensures { MatchOption result (original_number (cut (plain_of self.now)) ≡ None)
            (λ p. Repairs self.now p.0 p.1.now) }
    {
        let bytes = self.cut();
        let [_, _, rest @ ..] = bytes else {
            return None;
        };
        Some((half(bytes, 0), rest))
    }
}
