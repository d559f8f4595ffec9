ghost use Rattle.std.specs.Prelude.{◌<◌, ◌≤◌, length};

use rtp_wire::{ExtensionMap, RtpHeader};
use sha1::Sha1;
use srtp_core::{
    KeyingMaterial, ShaCipher, SrtpCipher, SrtpContext, SrtpProfile, ToyCipher, aes_128_cm_sha1_80,
    sha1_hmac,
};
use std::alloc::AllocError;
use std::process::Abort;
use std::test::Fail;

// A packet of source 42 with number 1 and two bytes of payload, and one with eight zeros.
static PACKET: [u8; 14] = [0x80, 0x60, 0, 1, 0, 0, 0, 0, 0, 0, 0, 42, 1, 2];

static ZEROS: [u8; 20] = [
    0x80, 0x60, 0, 1, 0, 0, 0, 0, 0, 0, 0, 42, 0, 0, 0, 0, 0, 0, 0, 0,
];

// The first bytes of the next, of which an AEAD makes 30.
static SHORT_FEEDBACK: [u8; 10] = [0x8f, 0xce, 0, 3, 0, 0, 0, 1, 0, 0];

// Application feedback of source 1.
static FEEDBACK: [u8; 16] = [0x8f, 0xce, 0, 3, 0, 0, 0, 1, 0, 0, 0, 42, 1, 2, 3, 4];

#[derive(Clone, Copy)]
enum Kind {
    Rtp,
    Rtcp,
}

fn digit(nibble: u8) -> u8 {
    if nibble < 10 {
        b'0' + nibble
    } else {
        b'a' + (nibble - 10) % 6
    }
}

// Whether a text writes these bytes, two digits each.
fn reads(bytes: &[u8], text: &str) -> bool {
    let digits = text.as_bytes();
    if digits.len() / 2 != bytes.len() {
        return false;
    }
    for i in 0..bytes.len() {
        if digits[2 * i] != digit(bytes[i] >> 4) || digits[2 * i + 1] != digit(bytes[i] & 15) {
            return false;
        }
    }
    true
}

// The code of a message that comes in two parts.
fn code(key: &[u8], message: &[u8]) -> [u8; 20] {
    let (first, second) = message.split_at(message.len() / 2);
    sha1_hmac(key, first, second)
}

// Keys, messages and codes of RFC 2202 section 3.
static CODES: [(&[u8], &[u8], &str); 7] = [
    (
        &[0x0b; 20],
        b"Hi There",
        "b617318655057264e28bc0b6fb378c8ef146be00",
    ),
    (
        b"Jefe",
        b"what do ya want for nothing?",
        "effcdf6ae5eb2fa2d27416d5f184df9c259a7c79",
    ),
    (
        &[0xaa; 20],
        &[0xdd; 50],
        "125d7342b9ac11cd91a39af48aa17b4f63f175d3",
    ),
    (
        &[
            1, 2, 3, 4, 5, 6, 7, 8, 9, 10, 11, 12, 13, 14, 15, 16, 17, 18, 19, 20, 21, 22, 23, 24,
            25,
        ],
        &[0xcd; 50],
        "4c9007f4026250c6bc8414f9bf50c86c2d7235da",
    ),
    (
        &[0x0c; 20],
        b"Test With Truncation",
        "4c1a03424b55e07fe7f27be1d58bb9324a9a5a04",
    ),
    (
        &[0xaa; 80],
        b"Test Using Larger Than Block-Size Key - Hash Key First",
        "aa4ae5e15272d00e95705637ce8a3b55ed402112",
    ),
    (
        &[0xaa; 80],
        b"Test Using Larger Than Block-Size Key and Larger Than One Block-Size Data",
        "e8e99d0f45237d786d6bbaa7965c7808bbff1a91",
    ),
];

#[test]
fn codes_of_the_standard(rt: HostRuntime) {
    for (key, message, text) in &CODES {
        assert!(rt; reads(&code(key, message), text), "{text}");
    }
}

// The first ten bytes of the third of these codes, where the last four bytes of the message are the
// rollover count, and of the second one (RFC 3711 section 4.2).
#[test]
fn tags_of_the_standard(rt: HostRuntime) {
    let mut packet = [0xdd; 56];
    aes_128_cm_sha1_80::rtp_hmac(&[0xaa; 20], &mut packet, 0xdddd_dddd_0001, 46);
    assert!(rt; reads(&packet[46..], "125d7342b9ac11cd91a3"));
    let mut feedback = *b"what do ya want for nothing?..........";
    aes_128_cm_sha1_80::rtcp_hmac(b"Jefe", &mut feedback, 28);
    assert!(rt; reads(&feedback[28..], "effcdf6ae5eb2fa2d274"));
}

// Messages and digests of FIPS 180-1, appendices A and B.
static DIGESTS: [(&[u8], &str); 2] = [
    (b"abc", "a9993e364706816aba3e25717850c26c9cd0d89d"),
    (
        b"abcdbcdecdefdefgefghfghighijhijkijkljklmklmnlmnomnopnopq",
        "84983e441c3bd26ebaae4aa1f95129e5e54670f1",
    ),
];

#[test]
fn digests_of_the_standard(rt: HostRuntime) {
    for (message, text) in &DIGESTS {
        assert!(rt; reads(&Sha1::digest(message), text), "{text}");
    }
}

fn zero_key<C: SrtpCipher>(
    rt: &(impl AllocGlobal + Abort),
    cipher: C,
    profile: SrtpProfile,
) -> Result<SrtpContext<C>, Fail> {
    let bytes = vec![in rt.alloc(); 0; profile.keying_material_len()]?;
    let material = KeyingMaterial::new(rt.alloc(), bytes.as_slice())?;
    Ok(SrtpContext::new(rt.alloc(), cipher, profile, &material, true)?)
}

// The right side of the material 0, 1, 2 ..; the next SRTCP datagram has index 7.
fn right_side(
    rt: &(impl AllocGlobal + Abort),
    profile: SrtpProfile,
) -> Result<SrtpContext<ShaCipher>, Fail> {
    let mut bytes = [0; 88];
    for i in 0..88 {
        bytes[i] = i as u8;
    }
    let len = profile.keying_material_len();
    assert!(rt; len <= 88);
    let material = KeyingMaterial::new(rt.alloc(), &bytes[..len])?;
    Ok(SrtpContext::new_at(rt.alloc(), ShaCipher, profile, &material, false, 7)?)
}

fn seal<C: SrtpCipher>(
    rt: &(impl AllocGlobal + Abort),
    context: &mut SrtpContext<C>,
    packet: &[u8],
    rollovers: u32,
) -> Result<Vec<u8>, Fail> {
    let header = RtpHeader::parse(packet, &ExtensionMap::empty()).ok_or("no header")?;
    assert!(rt; header.header_len <= packet.len());
    let index = u64::from(rollovers) * 65536 + u64::from(header.sequence_number);
    Ok(context.protect_rtp(packet, &header, index)?)
}

fn opens<C: SrtpCipher>(
    context: &mut SrtpContext<C>,
    kind: Kind,
    bytes: &[u8],
) -> Result<bool, AllocError> {
    match kind {
        Kind::Rtp => match RtpHeader::parse(bytes, &ExtensionMap::empty()) {
            Some(header) => {
                let index = u64::from(header.sequence_number);
                Ok(context.unprotect_rtp(bytes, &header, index).is_some())
            }
            None => Ok(false),
        },
        Kind::Rtcp => Ok(context.unprotect_rtcp(bytes)?.is_some()),
    }
}

// Whether these bytes open to the feedback.
fn opens_to_feedback(
    context: &mut SrtpContext<ShaCipher>,
    bytes: &[u8],
) -> Result<bool, AllocError> {
    match context.unprotect_rtcp(bytes)? {
        Some(opened) => Ok(opened.as_slice() == FEEDBACK.as_slice()),
        None => Ok(false),
    }
}

// Whether a packet is sealed under rollover count 2 to this text.
fn gives_packet(
    rt: &(impl AllocGlobal + Abort),
    context: &mut SrtpContext<ShaCipher>,
    text: &str,
) -> Result<bool, Fail> {
    let packet = seal(rt, context, &PACKET, 2)?;
    Ok(reads(&packet, text))
}

// Whether the feedback is sealed to this text, and opens again.
fn gives_feedback(context: &mut SrtpContext<ShaCipher>, text: &str) -> Result<bool, Fail> {
    let sealed = context.protect_rtcp(&FEEDBACK)?;
    let opened = opens_to_feedback(context, &sealed)?;
    Ok(reads(&sealed, text) && opened)
}

// What the right side of a profile gives: the texts of a packet under rollover count 2 and of
// feedback under index 7, and that feedback with the E bit clear.
type Given = (SrtpProfile, &'static str, &'static str, &'static [u8]);

fn gives(
    rt: &(impl AllocGlobal + Abort),
    context: &mut SrtpContext<ShaCipher>,
    given: &Given,
) -> Result<bool, Fail> {
    let packet = gives_packet(rt, context, given.1)?;
    let feedback = gives_feedback(context, given.2)?;
    let clear = opens_to_feedback(context, given.3)?;
    Ok(packet && feedback && clear)
}

fn right_side_gives(rt: &(impl AllocGlobal + Abort), given: &Given) -> Result<bool, Fail> {
    let mut context = right_side(rt, given.0)?;
    gives(rt, &mut context, given)
}

// Computed apart from this crate, of the formulas of RFC 3711 and RFC 7714 with SHA-1 for the
// cipher.
static RIGHT_SIDE: [Given; 3] = [
    (
        SrtpProfile::Aes128CmSha1_80,
        "80600001000000000000002a5f2e9d19ef840ba2465f3b44",
        "8fce00030000000102dd6b3c952f739e80000007cf20cd5c7d5921d6985e",
        &[
            0x8f, 0xce, 0, 3, 0, 0, 0, 1, 0, 0, 0, 42, 1, 2, 3, 4, 0, 0, 0, 7, 0xa7, 0xb4, 0x7e,
            0x48, 0xf2, 0xee, 2, 0x50, 0x6a, 0x3d,
        ],
    ),
    (
        SrtpProfile::AeadAes128Gcm,
        "80600001000000000000002a6e4b9cd2c96ba937e97dbdc579e921ec4159",
        "8fce000300000001f79aba4a7bdba9c177a5ac800b87c158500d2990edad949c80000007",
        &[
            0x8f, 0xce, 0, 3, 0, 0, 0, 1, 0, 0, 0, 42, 1, 2, 3, 4, 3, 0xe7, 0x35, 0xd0, 0xa7, 0x9a,
            0x90, 0xf9, 0x4e, 0x75, 0x47, 0x47, 0x96, 0x55, 0x93, 0x9c, 0, 0, 0, 7,
        ],
    ),
    (
        SrtpProfile::AeadAes256Gcm,
        "80600001000000000000002a5b8f351fccf3fc3063de484a6d492857ccb1",
        "8fce0003000000012a3b5eb31a4dffd8562187d669d207a4eac96fa6e5e529a180000007",
        &[
            0x8f, 0xce, 0, 3, 0, 0, 0, 1, 0, 0, 0, 42, 1, 2, 3, 4, 0x83, 0x7e, 0x99, 0x90, 0xaf,
            0xdf, 0x5c, 0xb5, 0x30, 0xd2, 0x45, 0x5d, 0x7f, 0x7d, 0x0f, 0x0a, 0, 0, 0, 7,
        ],
    ),
];

#[test]
fn datagrams_of_the_right_side(rt: HostRuntime) -> Result<(), Fail> {
    for given in &RIGHT_SIDE {
        let right = right_side_gives(&rt, given)?;
        assert!(rt; right, "{}", given.0);
    }
    Ok(())
}

// Each bit of a byte.
static BITS: [u8; 8] = [1, 2, 4, 8, 16, 32, 64, 128];

// How many changes of one bit of a byte leave a datagram that opens.
fn changes_of_a_byte<C: SrtpCipher>(
    context: &mut SrtpContext<C>,
    kind: Kind,
    bytes: &mut [u8],
    i: usize,
) -> Result<usize, AllocError>
    requires { i < length bytes.old }
{
    let mut count = 0usize;
    for mask in &BITS {
        bytes[i] ^= *mask;
        if opens(context, kind, bytes)? {
            count = count.saturating_add(1);
        }
        bytes[i] ^= *mask;
    }
    Ok(count)
}

fn changes<C: SrtpCipher>(
    context: &mut SrtpContext<C>,
    kind: Kind,
    bytes: &mut [u8],
) -> Result<usize, AllocError> {
    let mut count = 0usize;
    for i in 0..bytes.len() {
        count = count.saturating_add(changes_of_a_byte(context, kind, bytes, i)?);
    }
    Ok(count)
}

// How many changes of one bit a datagram of 30 bytes that opens opens with.
fn changes_of_sealed<C: SrtpCipher>(
    rt: &(impl AllocGlobal + Abort),
    context: &mut SrtpContext<C>,
    kind: Kind,
    bytes: &mut [u8],
) -> Result<usize, Fail> {
    assert!(rt; bytes.len() == 30);
    assert!(rt; opens(context, kind, bytes)?);
    Ok(changes(context, kind, bytes)?)
}

// The same of a packet and of feedback that are sealed.
fn changes_of_both<C: SrtpCipher>(
    rt: &(impl AllocGlobal + Abort),
    context: &mut SrtpContext<C>,
    packet: &[u8],
    feedback: &[u8],
) -> Result<(usize, usize), Fail>
    requires { 8 ≤ length feedback.now }
{
    let mut rtp = seal(rt, context, packet, 0)?;
    let of_packet = changes_of_sealed(rt, context, Kind::Rtp, rtp.as_mut_slice())?;
    let mut rtcp = context.protect_rtcp(feedback)?;
    let of_feedback = changes_of_sealed(rt, context, Kind::Rtcp, rtcp.as_mut_slice())?;
    Ok((of_packet, of_feedback))
}

// Sealed datagrams of 30 bytes, an RTP and an RTCP one: how many changes of one bit each opens
// with.
fn changes_that_open<C: SrtpCipher>(
    rt: &(impl AllocGlobal + Abort),
    cipher: C,
    profile: SrtpProfile,
) -> Result<(usize, usize), Fail> {
    let mut context = zero_key(rt, cipher, profile)?;
    match profile {
        SrtpProfile::Aes128CmSha1_80 => changes_of_both(rt, &mut context, &ZEROS, &FEEDBACK),
        _ => changes_of_both(rt, &mut context, &PACKET, &SHORT_FEEDBACK),
    }
}

// Profiles, and how many changes of the feedback open under the toy cipher: each of the 31 bits of
// the index stands at the same columns of the associated data and of the initial value, so a change
// of one makes another seal.
static INDICES: [(SrtpProfile, usize); 3] = [
    (SrtpProfile::Aes128CmSha1_80, 0),
    (SrtpProfile::AeadAes128Gcm, 31),
    (SrtpProfile::AeadAes256Gcm, 31),
];

#[test]
fn changed_datagrams_do_not_open(rt: HostRuntime) -> Result<(), Fail> {
    for (profile, indices) in &INDICES {
        let sha = changes_that_open(&rt, ShaCipher, *profile)?;
        let toy = changes_that_open(&rt, ToyCipher, *profile)?;
        assert!(rt; sha == (0, 0) && toy == (0, *indices), "{profile}");
    }
    Ok(())
}

fn some_short_one_opens<C: SrtpCipher>(context: &mut SrtpContext<C>) -> Result<bool, Fail> {
    let bytes = [0x80; 40];
    let header = RtpHeader::parse(&bytes, &ExtensionMap::empty()).ok_or("no header")?;
    let index = u64::from(header.sequence_number);
    for len in 0..41 {
        let rtp = context
            .unprotect_rtp(&bytes[..len], &header, index)
            .is_some();
        if rtp || context.unprotect_rtcp(&bytes[..len])?.is_some() {
            return Ok(true);
        }
    }
    Ok(false)
}

fn short_ones_open<C: SrtpCipher>(
    rt: &(impl AllocGlobal + Abort),
    cipher: C,
    profile: SrtpProfile,
) -> Result<bool, Fail> {
    let mut context = zero_key(rt, cipher, profile)?;
    some_short_one_opens(&mut context)
}

// 0 to 40 bytes that nobody sealed.
#[test]
fn short_datagrams_do_not_open(rt: HostRuntime) -> Result<(), Fail> {
    for profile in &SrtpProfile::ALL {
        let toy = short_ones_open(&rt, ToyCipher, *profile)?;
        let sha = short_ones_open(&rt, ShaCipher, *profile)?;
        assert!(rt; !toy && !sha, "{profile}");
    }
    Ok(())
}

// Whether the second context opens what the first sealed of the packet.
fn opens_of(
    left: &mut SrtpContext<ToyCipher>,
    peer: &mut SrtpContext<ToyCipher>,
) -> Result<bool, Fail> {
    let header = RtpHeader::parse(&PACKET, &ExtensionMap::empty()).ok_or("no header")?;
    if header.header_len != 12 || header.sequence_number != 1 {
        return Ok(false);
    }
    let sealed = left.protect_rtp(&PACKET, &header, 65537)?;
    Ok(peer.unprotect_rtp(&sealed, &header, 65537) == Some([1, 2].as_slice()))
}

// Whether the second context opens the feedback that the first sealed under the index 5.
fn opens_fifth(
    peer: &mut SrtpContext<ToyCipher>,
    left: &mut SrtpContext<ToyCipher>,
) -> Result<bool, Fail> {
    let sealed = peer.protect_rtcp(&FEEDBACK)?;
    let opened = left.unprotect_rtcp(&sealed)?.ok_or("sealed")?;
    Ok(sealed.ends_with(&[0x80, 0, 0, 5]) && opened.as_slice() == FEEDBACK.as_slice())
}

fn open_each_other(
    left: &mut SrtpContext<ToyCipher>,
    peer: &mut SrtpContext<ToyCipher>,
) -> Result<bool, Fail> {
    let packet = opens_of(left, peer)?;
    let feedback = opens_fifth(peer, left)?;
    Ok(packet && feedback)
}

#[test]
fn surface_ample(rt: HostRuntime) -> Result<(), Fail> {
    let material = KeyingMaterial::new(rt.alloc(), &[0; 56])?;
    assert!(rt; material.as_slice() == [0; 56].as_slice());
    let profile = SrtpProfile::AeadAes128Gcm;
    let mut left = SrtpContext::new(rt.alloc(), ToyCipher, profile, &material, true)?;
    let mut peer = SrtpContext::new_at(rt.alloc(), ToyCipher, profile, &material, true, 5)?;
    let opened = open_each_other(&mut left, &mut peer)?;
    assert!(rt; opened);
    Ok(())
}

// All profiles, and their names.
static NAMES: [(SrtpProfile, &str); 3] = [
    (SrtpProfile::AeadAes256Gcm, "SRTP_AEAD_AES_256_GCM"),
    (SrtpProfile::AeadAes128Gcm, "SRTP_AEAD_AES_128_GCM"),
    (SrtpProfile::Aes128CmSha1_80, "SRTP_AES128_CM_SHA1_80"),
];

#[test]
fn names_of_the_profiles(rt: HostRuntime) -> Result<(), Fail> {
    for (profile, name) in &NAMES {
        let text = format!(in rt.alloc(); "{profile}")?;
        assert!(rt; text.as_str() == *name, "{name}");
    }
    Ok(())
}
