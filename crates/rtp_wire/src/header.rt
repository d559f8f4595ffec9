ghost use Rattle.std.specs.Prelude.{◌≡◌, ℕ, ◌+◌, ◌-◌, ◌*◌, ◌%◌, ◌≤◌, IsTrue, List, ◌++◌, length, take, drop, replicate, Some};
ghost use Rattle.std.specs.List.{flat_map};
ghost use Rattle.std.specs.Int.{w16, w32, to_be_bytes};
ghost use Rattle.std.specs.Option.{option_map};
ghost use Rattle.rtp_base.specs.Widen.{widen16};
ghost use Rattle.rtp_wire.specs.Repairs.{original_of, blank_length, blank_payload};
ghost use Rattle.rtp_wire.specs.BytesLaws.{AreWords};

use crate::extension::ExtensionMap;
use crate::values::ExtensionValues;
use rtp_base::wire::{half, put_word, word};
use rtp_base::{Pt, RTP_VERSION, SeqNo, Ssrc, widen16 as wide16};

/// The bytes of each header, before the contributing sources (RFC 3550 section 5.1).
pub const FIXED_HEADER_LEN: usize = 12;

/// The most contributing sources: their count has 4 bits (RFC 3550 section 5.1).
pub const MAX_SOURCES: usize = 15;

/// The most bytes of a header that is written, with its sources and its extension: a choice.
pub const MAX_HEADER_LEN: usize = 160;

/// The bytes of the original sequence number before the payload of a repair (RFC 4588 section 4).
pub const ORIGINAL_NUMBER_LEN: usize = 2;

/// The bytes of a block, of which the payload of a packet that is only padding has whole ones: a
/// choice.
pub const PADDING_BLOCK_LEN: usize = 16;

/// The most bytes of the payload of a packet that is only padding: a choice.
pub const MAX_BLANK_PADDING_PAYLOAD_SIZE: usize = 240;

/// The header of an RTP packet (RFC 3550 section 5.1).
#[derive(Clone, Copy, Debug, PartialEq, Eq)]
pub struct RtpHeader {
    /// Whether the payload ends in padding.
    pub has_padding: bool,
    /// What it marks is for the payload's format to say.
    pub marker: bool,
    /// What the payload carries, 7 bits on the wire.
    pub payload_type: Pt,
    /// The low 16 bits of the packet's number.
    pub sequence_number: u16,
    /// The RTP time, in ticks of the payload's clock.
    pub timestamp: u32,
    /// The source of the packet.
    pub ssrc: Ssrc,
    /// How many of the contributing sources there are, at most 15.
    pub csrc_count: usize,
    /// The contributing sources, and zeros behind them.
    pub csrc: [u32; MAX_SOURCES],
    /// The values of the header extension.
    pub ext_vals: ExtensionValues,
    /// The bytes of the header, with sources and extension.
    pub header_len: usize,
}

impl RtpHeader {
    ghost use Rattle.rtp_wire.specs.Header.{sources_end, header_end, has_header, has_extension_bit, ext_vals_of, header_of, sources, header_bytes, fixed_bytes, source_count};
    ghost use Rattle.rtp_wire.specs.HeaderLaws.{IsHeader, IsReadAgain};
    ghost use Rattle.rtp_wire.specs.Extensions.{no_values};
    ghost use Rattle.rtp_wire.specs.Padding.{unpadded};
    ghost use Rattle.std.specs.Option.{option_copied};

    fn sources_end(bytes: &[u8]) -> usize
        requires { FIXED_HEADER_LEN ≤ length bytes.now }
        ensures { result ≡ sources_end bytes.now }
    {
        FIXED_HEADER_LEN + 4 * usize::from(bytes[0] & 15)
    }

    fn is_extended(bytes: &[u8]) -> bool
        requires { FIXED_HEADER_LEN ≤ length bytes.now }
        ensures { result ≡ has_extension_bit bytes.now }
    {
        (bytes[0] >> 4) & 1 == 1
    }

    fn header_end(bytes: &[u8]) -> usize
        requires fixed { FIXED_HEADER_LEN ≤ length bytes.now }
        requires whole { IsTrue (has_extension_bit bytes.now) → sources_end bytes.now + 4 ≤ length bytes.now }
        ensures { result ≡ header_end bytes.now }
    {
        let end = Self::sources_end(bytes);
        if Self::is_extended(bytes) {
            end + 4 + 4 * usize::from(half(bytes, end + 2))
        } else {
            end
        }
    }

    fn stands(bytes: &[u8]) -> bool
        ensures { result ≡ has_header bytes.now }
    {
        if bytes.len() < FIXED_HEADER_LEN || bytes[0] >> 6 != RTP_VERSION {
            return false;
        }
        let end = Self::sources_end(bytes);
        if !Self::is_extended(bytes) {
            return end <= bytes.len();
        }
        end + 4 <= bytes.len() && Self::header_end(bytes) <= bytes.len()
    }

    // The sources, and zeros behind them.
    fn sources(bytes: &[u8]) -> [u32; MAX_SOURCES]
        requires fixed { FIXED_HEADER_LEN ≤ length bytes.now }
        requires whole { sources_end bytes.now ≤ length bytes.now }
        ensures { result ≡ sources bytes.now ++ replicate (MAX_SOURCES - source_count bytes.now) 0 }
    {
        let mut places = [0; MAX_SOURCES];
        for i in 0..usize::from(bytes[0] & 15) {
            places[i] = word(bytes, FIXED_HEADER_LEN + 4 * i);
        }
        places
    }

    // Takes in the values of the extension, if there is one.
    fn put_values(values: &mut ExtensionValues, bytes: &[u8], exts: &ExtensionMap)
        requires stands { IsTrue (has_header bytes.now) }
        requires none { values.old ≡ no_values }
        ensures { values.new ≡ ext_vals_of exts.now bytes.now }
    {
        if Self::is_extended(bytes) {
            let end = Self::sources_end(bytes);
            let (_, rest) = bytes.split_at(end + 4);
            let (data, _) = rest.split_at(4 * usize::from(half(bytes, end + 2)));
            values.fill(exts, half(bytes, end), data);
        }
    }

    /// The header at the front of the bytes. None exactly where fewer than 12 bytes stand, the
    /// version is not 2, or the contributing sources, the extension's own header or its data run
    /// past the end.
    #[tactic(auto, unfolding(crate::specs::Header::header_of))]
    pub fn parse(bytes: &[u8], exts: &ExtensionMap) -> Option<RtpHeader>
        ensures { result ≡ header_of exts.now bytes.now }
    {
        if !Self::stands(bytes) {
            return None;
        }
        let mut ext_vals = ExtensionValues::none();
        Self::put_values(&mut ext_vals, bytes, exts);
        Some(RtpHeader {
            has_padding: (bytes[0] >> 5) & 1 == 1,
            marker: bytes[1] >> 7 == 1,
            payload_type: Pt::from(bytes[1] & 0x7f),
            sequence_number: half(bytes, 2),
            timestamp: word(bytes, 4),
            ssrc: Ssrc::from(word(bytes, 8)),
            csrc_count: usize::from(bytes[0] & 15),
            csrc: Self::sources(bytes),
            ext_vals,
            header_len: Self::header_end(bytes),
        })
    }

    fn fixed_bytes(&self, extended: bool) -> [u8; FIXED_HEADER_LEN]
        requires { self.now.csrc_count ≤ MAX_SOURCES }
        ensures { result ≡ fixed_bytes self.now extended }
    {
        let padding = if self.has_padding { 32 } else { 0 };
        let extension = if extended { 16 } else { 0 };
        let marker = if self.marker { 128 } else { 0 };
        let [n0, n1] = self.sequence_number.to_be_bytes();
        let [t0, t1, t2, t3] = self.timestamp.to_be_bytes();
        let [s0, s1, s2, s3] = u32::from(self.ssrc).to_be_bytes();
        [
            64 * RTP_VERSION + padding + extension + self.csrc_count as u8,
            marker + u8::from(self.payload_type) % 128,
            n0,
            n1,
            t0,
            t1,
            t2,
            t3,
            s0,
            s1,
            s2,
            s3,
        ]
    }

    // The fields are in their ranges.
    fn is_header(&self)
        requires { self.now.csrc_count ≤ MAX_SOURCES }
        ensures { IsHeader self.now }
    {
        let _number = self.sequence_number;
        let _time = self.timestamp;
        let _source = u32::from(self.ssrc);
        are_words(&self.csrc);
    }

    /// Writes the header to the front of the bytes, and gives its length: the low 7 bits of the
    /// type, the first `csrc_count` sources, and the values that are there and have an id, in the
    /// one-byte form (RFC 8285 section 4.2) with ids ascending. Where no value is written there is
    /// no extension, and its bit is clear.
    #[tactic(auto, unfolding(crate::specs::Header::header_bytes))]
    pub fn write_to(&self, buf: &mut [u8], exts: &ExtensionMap) -> usize
        requires room { MAX_HEADER_LEN ≤ length buf.old }
        requires few_sources { self.now.csrc_count ≤ MAX_SOURCES }
        ensures bytes { buf.new ≡ header_bytes exts.now self.now ++ drop result buf.old }
        ensures len { result ≡ length (header_bytes exts.now self.now) }
        ensures reads { IsReadAgain exts.now self.now }
    {
        self.is_header();
        let (fixed, rest) = buf.split_at_mut(FIXED_HEADER_LEN);
        let (sources, rest) = rest.split_at_mut(4 * self.csrc_count);
        let extension = self.ext_vals.write(rest, exts);
        fixed.copy_from_slice(&self.fixed_bytes(extension > 0));
        put_words(sources, &self.csrc[..self.csrc_count]);
        FIXED_HEADER_LEN + 4 * self.csrc_count + extension
    }

    /// The payload without its padding. None exactly where it is empty, or its last byte, the
    /// length of the padding, is 0 or above the length of the payload.
    pub fn unpad_payload(payload: &[u8]) -> Option<&[u8]>
        ensures { option_copied result ≡ unpadded payload.now }
    {
        let padding = usize::from(*payload.last()?);
        if padding == 0 || padding > payload.len() {
            return None;
        }
        Some(&payload[..payload.len() - padding])
    }

    /// The sequence number of which the header has the low 16 bits, after the last one (RFC 3711
    /// section 3.3.1).
    pub fn sequence_number(&self, last: Option<SeqNo>) -> SeqNo
        ensures { result ≡ widen16 last self.now.sequence_number }
    {
        let last = match last {
            Some(number) => Some(u64::from(number)),
            None => None,
        };
        SeqNo::from(wide16(last, self.sequence_number))
    }

    /// The low 16 bits of the number of the packet that a repair repairs, and that packet's payload
    /// (RFC 4588 section 4). None exactly where fewer than 2 bytes stand.
    pub fn read_original_sequence_number(payload: &[u8]) -> Option<(u16, &[u8])>
        ensures { option_map (λ p. (p.0, p.1.now)) result ≡ original_of payload.now }
    {
        if payload.len() < ORIGINAL_NUMBER_LEN {
            return None;
        }
        let (_, original) = payload.split_at(ORIGINAL_NUMBER_LEN);
        Some((half(payload, 0), original))
    }

    /// Writes the low 16 bits of the number of the packet that a repair repairs to the front of its
    /// payload, and gives their length, 2.
    pub fn write_original_sequence_number(payload: &mut [u8], number: SeqNo) -> usize
        requires { ORIGINAL_NUMBER_LEN ≤ length payload.old }
        ensures bytes { payload.new ≡ to_be_bytes w16 (number % 65536) ++ drop ORIGINAL_NUMBER_LEN payload.old }
        ensures len { result ≡ ORIGINAL_NUMBER_LEN }
    {
        let low = (u64::from(number) % 65536) as u16;
        let (front, _) = payload.split_at_mut(ORIGINAL_NUMBER_LEN);
        front.copy_from_slice(&low.to_be_bytes());
        ORIGINAL_NUMBER_LEN
    }

    /// Writes the payload of a packet that is only padding, of an asked length from 16 to 240 bytes
    /// in whole blocks of 16, and gives its length.
    pub fn create_padding_packet(payload: &mut [u8], asked: usize) -> usize
        requires low { PADDING_BLOCK_LEN ≤ asked }
        requires high { asked ≤ MAX_BLANK_PADDING_PAYLOAD_SIZE }
        requires room { MAX_BLANK_PADDING_PAYLOAD_SIZE ≤ length payload.old }
        ensures bytes { payload.new ≡ blank_payload asked ++ drop result payload.old }
        ensures len { result ≡ blank_length asked }
    {
        let len = (asked + (PADDING_BLOCK_LEN - 1)) / PADDING_BLOCK_LEN * PADDING_BLOCK_LEN;
        let (blank, _) = payload.split_at_mut(len);
        let (zeros, count) = blank.split_at_mut(len - 1);
        zeros.fill(0);
        count.copy_from_slice(&[len as u8]);
        len
    }
}

fn are_words(words: &[u32])
    ensures { AreWords words.now }
{
    let _count = words.len();
}

// Writes numbers one after another, and leaves what is behind them.
fn put_words(bytes: &mut [u8], words: &[u32])
    requires { length bytes.old ≡ 4 * length words.now }
    ensures { bytes.new ≡ flat_map (to_be_bytes w32) words.now }
{
    for i in 0..words.len() {
        put_word(bytes, 4 * i, words[i]);
    }
}
