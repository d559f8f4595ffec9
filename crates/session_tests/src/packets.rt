//! Datagrams that come, sealed as a peer does.
use crate::calls::{receive, receive_rtcp};
use crate::ends::{End, ssrc};
use media_units::Instant;
use rtp_base::{Kind, SeqNo};
use rtp_wire::{ExtensionMap, RtpHeader};
use session_core::Opened;
use srtp_core::{KeyingMaterial, SrtpContext, SrtpProfile, ToyCipher};
use std::alloc::Global;

/// The packet numbered 1 of type 96 on SSRC 42, with the payload 0102 (RFC 3550 section 5.1).
pub static PACKET: [u8; 14] = [0x80, 0x60, 0, 1, 0, 0, 0, 0, 0, 0, 0, 0x2a, 1, 2];

/// It, sealed: its header, the payload XOR the key stream, and the tag of sixteen bytes.
pub static SEALED: [u8; 30] = [
    0x80, 0x60, 0, 1, 0, 0, 0, 0, 0, 0, 0, 0x2a, 1, 2, 0x80, 0x60, 0, 1, 0, 0x2a, 0, 2, 0, 0, 0,
    0x2b, 1, 2, 0, 1,
];

/// The same with the mid v under the id 1 (RFC 8285 section 4.2).
pub static WITH_MID: [u8; 38] = [
    0x90, 0x60, 0, 1, 0, 0, 0, 0, 0, 0, 0, 0x2a, 0xbe, 0xde, 0, 1, 0x10, 0x76, 0, 0, 1, 2, 0x80,
    0x16, 0, 1, 1, 0x28, 0, 2, 0, 0, 0, 0x2b, 0xbe, 0xde, 0, 0,
];

/// The bytes of all parts, one after the other.
pub fn joined(alloc: Global, parts: &[&[u8]]) -> Option<Vec<u8>> {
    let mut bytes = Vec::new(alloc);
    for part in parts {
        if bytes.extend_from_slice(part).is_err() {
            return None;
        }
    }
    Some(bytes)
}

/// The head of an RTP packet (RFC 3550 section 5.1): its first byte, its type, number, RTP time and
/// SSRC.
pub fn head(first: u8, pt: u8, number: u64, time: u32, low: u8) -> [u8; 12] {
    let [high, lower] = ((number % 65_536) as u16).to_be_bytes();
    let [a, b, c, d] = time.to_be_bytes();
    [first, pt, high, lower, a, b, c, d, 0, 0, 0, low]
}

// What seals as the left side, the sender, or as the right one.
fn context(alloc: Global, left: bool) -> Option<SrtpContext<ToyCipher>> {
    let Ok(material) = KeyingMaterial::new(alloc, &[0; 56]) else {
        return None;
    };
    let profile = SrtpProfile::AeadAes128Gcm;
    SrtpContext::new(alloc, ToyCipher, profile, &material, left).ok()
}

/// Seals a packet of this number as the sender does, if it begins with the low 16 bits of the
/// number.
pub fn seal_numbered(alloc: Global, plain: &[u8], number: u64) -> Option<Vec<u8>> {
    let Some(header) = RtpHeader::parse(plain, &ExtensionMap::empty()) else {
        return None;
    };
    if header.header_len > plain.len() || number >= 1 << 48 {
        return None;
    }
    if number % 65_536 != u64::from(header.sequence_number) {
        return None;
    }
    let mut context = context(alloc, true)?;
    context.protect_rtp(plain, &header, number).ok()
}

/// `PACKET` on another SSRC and of another number, sealed.
pub fn packet_of(alloc: Global, low: u8, number: u8) -> Option<Vec<u8>> {
    let mut packet = PACKET;
    packet[11] = low;
    packet[3] = number;
    seal_numbered(alloc, &packet, u64::from(number))
}

/// Seals a packet of at least 8 bytes of RTCP as the sender does, or as the receiver, under the
/// index 0.
pub fn seal_rtcp(alloc: Global, plain: &[u8], left: bool) -> Option<Vec<u8>> {
    if plain.len() < 8 {
        return None;
    }
    let mut context = context(alloc, left)?;
    context.protect_rtcp(plain).ok()
}

/// Whether bytes of RTP that come open.
pub fn opens(end: &mut End, now: Instant, bytes: &[u8]) -> bool {
    match receive(end, now, bytes) {
        Ok(opened) => opened.is_some(),
        Err(_) => false,
    }
}

/// Whether plain RTCP of the sender opens that comes sealed.
pub fn hears(alloc: Global, end: &mut End, now: Instant, plain: &[u8]) -> bool {
    match seal_rtcp(alloc, plain, true) {
        Some(sealed) => opens_rtcp(end, now, sealed.as_slice()),
        None => false,
    }
}

/// Whether bytes of RTCP that come open.
pub fn opens_rtcp(end: &mut End, now: Instant, bytes: &[u8]) -> bool {
    match receive_rtcp(end, now, bytes) {
        Ok(opened) => opened.is_some(),
        Err(_) => false,
    }
}

/// Whether a datagram of this kind, SSRC and index opened.
pub fn is_opened(opened: &Option<Opened>, kind: Kind, low: u8, index: u64) -> bool {
    match opened {
        Some(opened) => {
            let same = opened.kind == kind && opened.ssrc == ssrc(low);
            same && opened.index == SeqNo::from(index)
        }
        None => false,
    }
}
