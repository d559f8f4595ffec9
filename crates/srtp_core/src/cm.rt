ghost use Rattle.std.specs.Prelude.{◌≡◌, ℕ, ◌+◌, ◌-◌, ◌<◌, ◌≤◌, List, ◌++◌, true, length, take, drop, IfOk, IfSome, IfNone};
ghost use Rattle.srtp_core.specs.Keys.{derived};
ghost use Rattle.srtp_core.specs.Seals.{cm_iv, cm_sealed_rtp};
ghost use Rattle.srtp_core.specs.Streams.{streamed};
ghost use Rattle.srtp_core.specs.CmSeals.{CmRtcpOpens};
ghost use Rattle.srtp_core.specs.RtcpSeals.{sender_of, cm_sealed_rtcp};

use crate::aes_128_cm_sha1_80::{
    HMAC_KEY_LEN, HMAC_TAG_LEN, KEY_LEN, MasterKey, RtpSalt, SALT_LEN, rtcp_tag, rtcp_verify,
    rtp_iv, rtp_tag, rtp_verify,
};
use crate::cipher::SrtpCipher;
use crate::context::SRTCP_INDEX_LIMIT;
use crate::keying::{
    LABEL_RTCP_AES, LABEL_RTCP_AUTHENTICATION_KEY, LABEL_RTCP_SALT, LABEL_RTP_AES,
    LABEL_RTP_AUTHENTICATION_KEY, LABEL_RTP_SALT,
};
use crate::srtcp::{E_BIT, HEADER_LEN, WORD_LEN, sender};
use rtp_base::{NUMBER_LIMIT, wire};
use std::alloc::{AllocError, Global};

/// The length of the shortest sealed RTCP packet, in bytes.
const MIN_SEALED_LEN: usize = HEADER_LEN + WORD_LEN + HMAC_TAG_LEN;

/// A key for counter mode, with the key of its tags and its salt.
#[derive(Drop)]
pub(crate) struct CmKeys<C: SrtpCipher> {
    pub(crate) key: C::Key128,
    pub(crate) authentication: [u8; HMAC_KEY_LEN],
    pub(crate) salt: RtpSalt,
}

/// The keys of a direction.
#[derive(Drop)]
pub(crate) struct CmDirection<C: SrtpCipher> {
    pub(crate) rtp: CmKeys<C>,
    pub(crate) rtcp: CmKeys<C>,
}

fn cm_keys<C: SrtpCipher>(cipher: C, master: &MasterKey, first_label: u8) -> CmKeys<C>
    requires { first_label ≤ LABEL_RTCP_AES }
    ensures key { C.bytes_128 result.key
        ≡ derived (C.meaning.block master.now.master) master.now.salt first_label KEY_LEN }
    ensures authentication { result.authentication
        ≡ derived (C.meaning.block master.now.master) master.now.salt (first_label + 1) HMAC_KEY_LEN }
    ensures salt { result.salt
        ≡ derived (C.meaning.block master.now.master) master.now.salt (first_label + 2) SALT_LEN }
{
    let mut key = [0; KEY_LEN];
    master.derive(cipher, first_label, &mut key);
    let mut authentication = [0; HMAC_KEY_LEN];
    master.derive(cipher, first_label + 1, &mut authentication);
    let mut salt = [0; SALT_LEN];
    master.derive(cipher, first_label + 2, &mut salt);
    CmKeys {
        key: cipher.key_128(&key),
        authentication,
        salt,
    }
}

/// The keys of a direction, of its master key.
pub(crate) fn cm_direction<C: SrtpCipher>(cipher: C, master: &MasterKey) -> CmDirection<C>
    ensures rtp_key { C.bytes_128 result.rtp.key
        ≡ derived (C.meaning.block master.now.master) master.now.salt LABEL_RTP_AES KEY_LEN }
    ensures rtp_authentication { result.rtp.authentication
        ≡ derived (C.meaning.block master.now.master) master.now.salt LABEL_RTP_AUTHENTICATION_KEY HMAC_KEY_LEN }
    ensures rtp_salt { result.rtp.salt
        ≡ derived (C.meaning.block master.now.master) master.now.salt LABEL_RTP_SALT SALT_LEN }
    ensures rtcp_key { C.bytes_128 result.rtcp.key
        ≡ derived (C.meaning.block master.now.master) master.now.salt LABEL_RTCP_AES KEY_LEN }
    ensures rtcp_authentication { result.rtcp.authentication
        ≡ derived (C.meaning.block master.now.master) master.now.salt LABEL_RTCP_AUTHENTICATION_KEY HMAC_KEY_LEN }
    ensures rtcp_salt { result.rtcp.salt
        ≡ derived (C.meaning.block master.now.master) master.now.salt LABEL_RTCP_SALT SALT_LEN }
{
    CmDirection {
        rtp: cm_keys(cipher, master, LABEL_RTP_AES),
        rtcp: cm_keys(cipher, master, LABEL_RTCP_AES),
    }
}

/// Seals an RTP datagram whose header is its first bytes.
#[inline(never)]
pub(crate) fn seal_rtp<C: SrtpCipher>(
    alloc: Global,
    cipher: C,
    keys: &CmKeys<C>,
    buf: &[u8],
    header_len: usize,
    ssrc: u32,
    index: u64,
) -> Result<Vec<u8>, AllocError>
    requires header { header_len ≤ length buf.now }
    requires index { index < NUMBER_LIMIT }
    ensures { IfOk result (λ v. v.items
        ≡ cm_sealed_rtp C.meaning (C.bytes_128 keys.now.key) keys.now.authentication keys.now.salt ssrc index (take header_len buf.now) (drop header_len buf.now)) }
{
    let mut sealed = vec![in alloc; 0; buf.len() + HMAC_TAG_LEN]?;
    let (header, payload) = buf.split_at(header_len);
    let (text, tag) = sealed.split_at_mut(buf.len());
    let (front, body) = text.split_at_mut(header_len);
    front.copy_from_slice(header);
    cipher.ctr(&keys.key, &rtp_iv(keys.salt, ssrc, index), payload, body);
    tag.copy_from_slice(&rtp_tag(&keys.authentication, text, index));
    Ok(sealed)
}

/// Opens an RTP datagram whose header is its first bytes, into the front of a buffer, and tells the
/// length of the payload.
pub(crate) fn open_rtp<C: SrtpCipher>(
    cipher: C,
    keys: &CmKeys<C>,
    buf: &[u8],
    header_len: usize,
    ssrc: u32,
    index: u64,
    output: &mut [u8],
) -> Option<usize>
    requires header { header_len ≤ length buf.now }
    requires room { length buf.now ≤ length output.old }
    requires index { index < NUMBER_LIMIT }
    ensures same { length output.new ≡ length output.old }
    ensures len { IfSome result (λ n. n ≤ length output.new) }
    ensures opens { IfSome result (λ n.
        cm_sealed_rtp C.meaning (C.bytes_128 keys.now.key) keys.now.authentication keys.now.salt ssrc index (take header_len buf.now) (take n output.new) ≡ buf.now) }
    ensures none { IfNone result ((payload : List ℕ)
        → cm_sealed_rtp C.meaning (C.bytes_128 keys.now.key) keys.now.authentication keys.now.salt ssrc index (take header_len buf.now) payload ≡ buf.now → ⊥) }
{
    if buf.len() - header_len < HMAC_TAG_LEN {
        return None;
    }
    let (text, tag) = buf.split_at(buf.len() - HMAC_TAG_LEN);
    if !rtp_verify(&keys.authentication, text, index, tag) {
        return None;
    }
    let (_, body) = text.split_at(header_len);
    let (front, _) = output.split_at_mut(body.len());
    cipher.ctr(&keys.key, &rtp_iv(keys.salt, ssrc, index), body, front);
    Some(body.len())
}

/// Seals an RTCP packet.
pub(crate) fn seal_rtcp<C: SrtpCipher>(
    alloc: Global,
    cipher: C,
    keys: &CmKeys<C>,
    buf: &[u8],
    index: u32,
) -> Result<Vec<u8>, AllocError>
    requires header { HEADER_LEN ≤ length buf.now }
    requires index { index < SRTCP_INDEX_LIMIT }
    ensures { IfOk result (λ v. v.items
        ≡ cm_sealed_rtcp C.meaning (C.bytes_128 keys.now.key) keys.now.authentication keys.now.salt true index (take HEADER_LEN buf.now) (drop HEADER_LEN buf.now)) }
{
    let mut sealed = vec![in alloc; 0; buf.len() + WORD_LEN + HMAC_TAG_LEN]?;
    let (header, rest) = buf.split_at(HEADER_LEN);
    let (text, tag) = sealed.split_at_mut(buf.len() + WORD_LEN);
    let (front, behind) = text.split_at_mut(HEADER_LEN);
    let (body, word) = behind.split_at_mut(rest.len());
    front.copy_from_slice(header);
    let iv = rtp_iv(keys.salt, sender(header), index as u64);
    cipher.ctr(&keys.key, &iv, rest, body);
    word.copy_from_slice(&(E_BIT + index).to_be_bytes());
    tag.copy_from_slice(&rtcp_tag(&keys.authentication, text));
    Ok(sealed)
}

/// A packet whose rest is deciphered.
fn deciphered<C: SrtpCipher>(
    alloc: Global,
    cipher: C,
    keys: &CmKeys<C>,
    packet: &[u8],
    index: u32,
) -> Result<Vec<u8>, AllocError>
    requires { HEADER_LEN ≤ length packet.now }
    ensures { IfOk result (λ v. v.items ≡ take HEADER_LEN packet.now
        ++ streamed (C.meaning.keystream (C.bytes_128 keys.now.key) (cm_iv keys.now.salt (sender_of (take HEADER_LEN packet.now)) index)) (drop HEADER_LEN packet.now)) }
{
    let mut plain = vec![in alloc; 0; packet.len()]?;
    let (header, rest) = packet.split_at(HEADER_LEN);
    let (front, body) = plain.split_at_mut(HEADER_LEN);
    front.copy_from_slice(header);
    let iv = rtp_iv(keys.salt, sender(header), index as u64);
    cipher.ctr(&keys.key, &iv, rest, body);
    Ok(plain)
}

fn copied(alloc: Global, packet: &[u8]) -> Result<Vec<u8>, AllocError>
    ensures { IfOk result (λ v. v.items ≡ packet.now) }
{
    packet.to_vec(alloc)
}

/// Opens an RTCP packet, encrypted or not.
pub(crate) fn open_rtcp<C: SrtpCipher>(
    alloc: Global,
    cipher: C,
    keys: &CmKeys<C>,
    buf: &[u8],
) -> Result<Option<Vec<u8>>, AllocError>
    ensures some { IfOk result (λ r. IfSome r (λ v.
        CmRtcpOpens C.meaning (C.bytes_128 keys.now.key) keys.now.authentication keys.now.salt buf.now v.items)) }
    ensures none { IfOk result (λ r. IfNone r ((p : List ℕ)
        → CmRtcpOpens C.meaning (C.bytes_128 keys.now.key) keys.now.authentication keys.now.salt buf.now p → ⊥)) }
    ensures short { length buf.now < MIN_SEALED_LEN → result ≡ Ok None }
{
    if buf.len() < MIN_SEALED_LEN {
        return Ok(None);
    }
    let (text, tag) = buf.split_at(buf.len() - HMAC_TAG_LEN);
    if !rtcp_verify(&keys.authentication, text, tag) {
        return Ok(None);
    }
    let (packet, word) = text.split_at(text.len() - WORD_LEN);
    let number = wire::word(word, 0);
    if number >= E_BIT {
        Ok(Some(deciphered(alloc, cipher, keys, packet, number % E_BIT)?))
    } else {
        Ok(Some(copied(alloc, packet)?))
    }
}
