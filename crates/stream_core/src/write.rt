ghost use Rattle.std.specs.Prelude.{◌≡◌, ◌≤◌, ◌-◌, ◌++◌, [], false, length, take, replicate};
ghost use Rattle.rtp_wire.specs.Extensions.{no_values};

use crate::packet::RtpPacket;
use crate::payload::Payload;
use media_units::Instant;
use rtp_base::{Frequency, MediaTime, Pt, SeqNo, Ssrc};
use rtp_wire::{ExtensionValues, MAX_SOURCES, RtpHeader};
use std::alloc::AllocError;
use std::marker::Model;
use thiserror::Error;

/// Why a packet is not written, the first cause of these.
#[derive(Clone, Copy, Debug, PartialEq, Eq, Error)]
pub enum WriteError {
    /// Its number is 2^48 or more.
    #[error("the number has more than 48 bits")]
    NumberTooBig,
    /// Its payload has more than 1,400 bytes.
    #[error("the payload has more than 1,400 bytes")]
    PayloadTooLong,
    /// There is no memory left.
    #[error("out of memory")]
    Memory,
}

impl From<AllocError> for WriteError {
    ghost use Rattle.stream_core.specs.declared.write.WriteError.TheVariants.{Memory};

    ghost from_gives = { λ _ e. e ≡ Memory };

    fn from(_: AllocError) -> Self {
        WriteError::Memory
    }
}

/// A packet as it is written on a stream. Contracts see the record of its fields, the contributing
/// sources as a list.
#[derive(Debug, Drop)]
pub struct RtpWrite {
    pt: Pt,
    seq_no: SeqNo,
    time: u32,
    wallclock: Instant,
    marker: bool,
    ext_vals: ExtensionValues,
    nackable: bool,
    payload: Payload,
    csrc_count: usize,
    csrc: [u32; MAX_SOURCES],
}

impl Model for RtpWrite {
    ghost use Rattle.std.specs.Prelude.{◌≡◌, ◌≤◌, ◌-◌, ◌++◌, take, replicate};
    ghost use Rattle.rtp_wire.specs.declared.header.TheConstants.{MAX_SOURCES};
    ghost use Rattle.stream_core.specs.Write.{WriteRecord};

    ghost Value = { WriteRecord };

    ghost view = { λ w. record {
      pt = w.pt;
      seq_no = w.seq_no;
      time = w.time;
      wallclock = w.wallclock;
      marker = w.marker;
      ext_vals = w.ext_vals;
      nackable = w.nackable;
      payload = w.payload;
      csrc = take w.csrc_count w.csrc;
    } };

    ghost invariant = { λ w. (w.csrc_count ≤ MAX_SOURCES) × (w.csrc ≡ take w.csrc_count w.csrc ++ replicate (MAX_SOURCES - w.csrc_count) 0) };
}

/// Sources and zeros behind them.
fn filled_up(sources: &[u32]) -> [u32; MAX_SOURCES]
    requires { length sources.now ≤ MAX_SOURCES }
    ensures { result ≡ sources.now ++ replicate (MAX_SOURCES - length sources.now) 0 }
{
    let mut all = [0; MAX_SOURCES];
    let (front, _) = all.split_at_mut(sources.len());
    front.copy_from_slice(sources);
    all
}

impl RtpWrite {
    ghost use Rattle.stream_core.specs.Write.{packet_of};

    /// A packet with a type, an extended sequence number, an RTP time in ticks of the type's clock,
    /// the moment to which that time belongs, and a payload. It has no marker, no values of a
    /// header extension and no contributing sources, and is not kept to be sent again.
    pub fn new(pt: Pt, seq_no: SeqNo, time: u32, wallclock: Instant, payload: Payload) -> Self
        ensures { result ≡ record {
          pt = pt;
          seq_no = seq_no;
          time = time;
          wallclock = wallclock;
          marker = false;
          ext_vals = no_values;
          nackable = false;
          payload = payload;
          csrc = [];
        } }
    {
        RtpWrite {
            pt,
            seq_no,
            time,
            wallclock,
            marker: false,
            ext_vals: ExtensionValues::none(),
            nackable: false,
            payload,
            csrc_count: 0,
            csrc: [0; MAX_SOURCES],
        }
    }

    /// It, with the marker bit set or clear (RFC 3550 section 5.1).
    pub fn marker(mut self, marker: bool) -> Self
        ensures { result ≡ record self { marker = marker } }
    {
        self.marker = marker;
        self
    }

    /// It, with values of the header extension (RFC 8285).
    pub fn ext_vals(mut self, ext_vals: ExtensionValues) -> Self
        ensures { result ≡ record self { ext_vals = ext_vals } }
    {
        self.ext_vals = ext_vals;
        self
    }

    /// It, kept to be sent again or not (RFC 4585 section 6.2.1).
    pub fn nackable(mut self, nackable: bool) -> Self
        ensures { result ≡ record self { nackable = nackable } }
    {
        self.nackable = nackable;
        self
    }

    /// It, with these contributing sources, at most 15 (RFC 3550 section 5.1).
    pub fn csrc(mut self, csrc: &[u32]) -> Self
        requires { length csrc.now ≤ MAX_SOURCES }
        ensures { result ≡ record self { csrc = csrc.now } }
    {
        self.csrc_count = csrc.len();
        self.csrc = filled_up(csrc);
        self
    }

    /// Its extended sequence number.
    pub fn seq_no(&self) -> SeqNo
        ensures { result ≡ self.now.seq_no }
    {
        self.seq_no
    }

    /// Its RTP time, in ticks of its type's clock.
    pub fn time(&self) -> u32
        ensures { result ≡ self.now.time }
    {
        self.time
    }

    /// The moment to which that time belongs.
    pub fn wallclock(&self) -> Instant
        ensures { result ≡ self.now.wallclock }
    {
        self.wallclock
    }

    /// The bytes of its payload.
    pub fn payload_len(&self) -> usize
        ensures { result ≡ length self.now.payload }
    {
        self.payload.len()
    }

    /// The packet that waits on a stream after the write.
    pub fn into_packet(self, ssrc: Ssrc) -> RtpPacket
        ensures { result ≡ packet_of ssrc self }
    {
        let csrc = self.csrc;
        let header = RtpHeader {
            has_padding: false,
            marker: self.marker,
            payload_type: self.pt,
            sequence_number: (u64::from(self.seq_no) % 65536) as u16,
            timestamp: self.time,
            ssrc,
            csrc_count: self.csrc_count,
            csrc,
            ext_vals: self.ext_vals,
            header_len: 0,
        };
        RtpPacket {
            seq_no: self.seq_no,
            time: MediaTime::new(u64::from(self.time), Frequency::SECONDS),
            header,
            payload: self.payload,
            timestamp: None,
            nackable: self.nackable,
        }
    }
}
