ghost use Rattle.std.specs.Prelude.{◌≡◌, ℕ, ◌+◌, ◌-◌, ◌/◌, ◌%◌, ◌<◌, ◌≤◌, ◌⊎◌, List, [], ◌++◌, length, take, drop, IsTrue, IfOk, IfSome, IfNone};
ghost use Rattle.media_base.specs.Text.{xored};
ghost use Rattle.srtp_core.specs.Keys.{derived};
ghost use Rattle.srtp_core.specs.Seals.{gcm_rtp_iv, gcm_rtcp_iv, gcm_sealed_rtp};
ghost use Rattle.srtp_core.specs.declared.aead_aes_128_gcm.TheConstants.{KEY_LEN as KEY_128_LEN};
ghost use Rattle.srtp_core.specs.declared.aead_aes_256_gcm.TheConstants.{KEY_LEN as KEY_256_LEN};

use crate::aead_aes_128_gcm::{IV_LEN, RtpIv, RtpSalt, SALT_LEN, TAG_LEN};
use crate::cipher::SrtpCipher;
use crate::cipher_key::CipherKey;
use crate::keying::{LABEL_RTCP_AES, LABEL_RTCP_SALT, LABEL_RTP_AES, LABEL_RTP_SALT, SrtpKey};
use rtp_base::NUMBER_LIMIT;
use std::alloc::{AllocError, Global};

pub(crate) fn xor_into(bytes: &mut [u8], with: &[u8])
    requires { length with.now ≡ length bytes.old }
    ensures { bytes.new ≡ xored bytes.old with.now }
{
    for i in 0..bytes.len() {
        bytes[i] ^= with[i];
    }
}

/// The initial value of an RTP datagram, of its rollover count and sequence number (RFC 7714
/// section 8.1).
#[tactic(auto, unfolding(crate::specs::Seals::gcm_rtp_iv))]
pub fn rtp_iv(salt: RtpSalt, ssrc: u32, roc: u32, seq: u16) -> RtpIv
    ensures { result ≡ gcm_rtp_iv salt ssrc roc seq }
{
    let mut iv = [0; IV_LEN];
    let (zeros_and_ssrc, place) = iv.split_at_mut(6);
    let (_, source) = zeros_and_ssrc.split_at_mut(2);
    source.copy_from_slice(&ssrc.to_be_bytes());
    let (count, number) = place.split_at_mut(4);
    count.copy_from_slice(&roc.to_be_bytes());
    number.copy_from_slice(&seq.to_be_bytes());
    xor_into(&mut iv, &salt);
    iv
}

/// The initial value of an RTCP datagram, of its index (RFC 7714 section 9.1).
#[tactic(auto, unfolding(crate::specs::Seals::gcm_rtcp_iv))]
pub fn rtcp_iv(salt: RtpSalt, ssrc: u32, index: u32) -> RtpIv
    ensures { result ≡ gcm_rtcp_iv salt ssrc index }
{
    let mut iv = [0; IV_LEN];
    let (zeros_and_ssrc, place) = iv.split_at_mut(6);
    let (_, source) = zeros_and_ssrc.split_at_mut(2);
    source.copy_from_slice(&ssrc.to_be_bytes());
    let (_, number) = place.split_at_mut(2);
    number.copy_from_slice(&index.to_be_bytes());
    xor_into(&mut iv, &salt);
    iv
}

/// A key for authenticated encryption, with its salt.
#[derive(Drop)]
pub(crate) struct GcmKeys<C: SrtpCipher> {
    pub(crate) key: CipherKey<C>,
    pub(crate) salt: RtpSalt,
}

/// The keys of a direction.
#[derive(Drop)]
pub(crate) struct GcmDirection<C: SrtpCipher> {
    pub(crate) rtp: GcmKeys<C>,
    pub(crate) rtcp: GcmKeys<C>,
}

fn gcm_keys<C: SrtpCipher, const ML: usize>(
    cipher: C,
    master: &SrtpKey<ML, SALT_LEN>,
    key_label: u8,
    salt_label: u8,
) -> GcmKeys<C>
    requires { (ML ≡ KEY_128_LEN) ⊎ (ML ≡ KEY_256_LEN) }
    ensures key { result.key
        ≡ derived (C.meaning.block master.now.master) master.now.salt key_label ML }
    ensures salt { result.salt
        ≡ derived (C.meaning.block master.now.master) master.now.salt salt_label SALT_LEN }
{
    let mut key = [0; ML];
    master.derive(cipher, key_label, &mut key);
    let mut salt = [0; SALT_LEN];
    master.derive(cipher, salt_label, &mut salt);
    GcmKeys {
        key: CipherKey::new(cipher, &key),
        salt,
    }
}

/// The keys of a direction, of its master key.
pub(crate) fn gcm_direction<C: SrtpCipher, const ML: usize>(
    cipher: C,
    master: &SrtpKey<ML, SALT_LEN>,
) -> GcmDirection<C>
    requires { (ML ≡ KEY_128_LEN) ⊎ (ML ≡ KEY_256_LEN) }
    ensures rtp_key { result.rtp.key
        ≡ derived (C.meaning.block master.now.master) master.now.salt LABEL_RTP_AES ML }
    ensures rtp_salt { result.rtp.salt
        ≡ derived (C.meaning.block master.now.master) master.now.salt LABEL_RTP_SALT SALT_LEN }
    ensures rtcp_key { result.rtcp.key
        ≡ derived (C.meaning.block master.now.master) master.now.salt LABEL_RTCP_AES ML }
    ensures rtcp_salt { result.rtcp.salt
        ≡ derived (C.meaning.block master.now.master) master.now.salt LABEL_RTCP_SALT SALT_LEN }
{
    GcmDirection {
        rtp: gcm_keys(cipher, master, LABEL_RTP_AES, LABEL_RTP_SALT),
        rtcp: gcm_keys(cipher, master, LABEL_RTCP_AES, LABEL_RTCP_SALT),
    }
}

/// Seals an RTP datagram whose header is its first bytes.
pub(crate) fn seal_rtp<C: SrtpCipher>(
    alloc: Global,
    cipher: C,
    keys: &GcmKeys<C>,
    buf: &[u8],
    header_len: usize,
    ssrc: u32,
    index: u64,
) -> Result<Vec<u8>, AllocError>
    requires header { header_len ≤ length buf.now }
    requires index { index < NUMBER_LIMIT }
    ensures { IfOk result (λ v. v.items
        ≡ gcm_sealed_rtp C.meaning keys.now.key keys.now.salt ssrc index (take header_len buf.now) (drop header_len buf.now)) }
{
    let mut sealed = vec![in alloc; 0; buf.len() + TAG_LEN]?;
    let (header, payload) = buf.split_at(header_len);
    let (front, end) = sealed.split_at_mut(header_len);
    front.copy_from_slice(header);
    let iv = rtp_iv(
        keys.salt,
        ssrc,
        (index / 65536) as u32,
        (index % 65536) as u16,
    );
    keys.key.seal(cipher, &iv, header, &[], payload, end);
    Ok(sealed)
}

/// Opens an RTP datagram whose header is its first bytes, into the front of a buffer, and tells the
/// length of the payload.
pub(crate) fn open_rtp<C: SrtpCipher>(
    cipher: C,
    keys: &GcmKeys<C>,
    buf: &[u8],
    header_len: usize,
    ssrc: u32,
    index: u64,
    output: &mut [u8],
) -> Option<usize>
    requires header { header_len ≤ length buf.now }
    requires room { length buf.now ≤ length output.old }
    requires index { index < NUMBER_LIMIT }
    ensures same { length output.new ≡ length output.old }
    ensures len { IfSome result (λ n. n ≤ length output.new) }
    ensures opens { IfSome result (λ n.
        gcm_sealed_rtp C.meaning keys.now.key keys.now.salt ssrc index (take header_len buf.now) (take n output.new) ≡ buf.now) }
    ensures none { IfNone result ((payload : List ℕ)
        → gcm_sealed_rtp C.meaning keys.now.key keys.now.salt ssrc index (take header_len buf.now) payload ≡ buf.now → ⊥) }
{
    C::laws();
    let (header, sealed) = buf.split_at(header_len);
    if sealed.len() < TAG_LEN {
        return None;
    }
    let len = sealed.len() - TAG_LEN;
    let (front, _) = output.split_at_mut(len);
    let iv = rtp_iv(
        keys.salt,
        ssrc,
        (index / 65536) as u32,
        (index % 65536) as u16,
    );
    if keys.key.open(cipher, &iv, header, &[], sealed, front) {
        Some(len)
    } else {
        None
    }
}
