ghost use Rattle.std.specs.Prelude.{◌≡◌, ℕ, ◌+◌, ◌<◌, ◌≤◌, List, [], ◌++◌, true, length, take, drop, IfOk, IfSome, IfNone};
ghost use Rattle.std.specs.Int.{w32, to_be_bytes};
ghost use Rattle.srtp_core.specs.Seals.{gcm_rtcp_iv};
ghost use Rattle.srtp_core.specs.RtcpSeals.{e_and_index, sender_of, gcm_sealed_rtcp, GcmRtcpOpens};

use crate::SRTCP_OVERHEAD;
use crate::aead_aes_128_gcm::TAG_LEN;
use crate::cipher::SrtpCipher;
use crate::context::SRTCP_INDEX_LIMIT;
use crate::gcm::{GcmKeys, rtcp_iv};
use crate::srtcp::{E_BIT, HEADER_LEN, WORD_LEN, sender};
use rtp_base::wire;
use std::alloc::{AllocError, Global};

/// The length of the shortest sealed RTCP packet, in bytes.
const MIN_SEALED_LEN: usize = HEADER_LEN + SRTCP_OVERHEAD;

/// Seals an RTCP packet.
pub(crate) fn seal_rtcp<C: SrtpCipher>(
    alloc: Global,
    cipher: C,
    keys: &GcmKeys<C>,
    buf: &[u8],
    index: u32,
) -> Result<Vec<u8>, AllocError>
    requires header { HEADER_LEN ≤ length buf.now }
    requires index { index < SRTCP_INDEX_LIMIT }
    ensures { IfOk result (λ v. v.items
        ≡ gcm_sealed_rtcp C.meaning keys.now.key keys.now.salt true index (take HEADER_LEN buf.now) (drop HEADER_LEN buf.now)) }
{
    let mut sealed = vec![in alloc; 0; buf.len() + SRTCP_OVERHEAD]?;
    let (header, rest) = buf.split_at(HEADER_LEN);
    let word = (E_BIT + index).to_be_bytes();
    let (front, behind) = sealed.split_at_mut(HEADER_LEN);
    let (body, end) = behind.split_at_mut(rest.len() + TAG_LEN);
    front.copy_from_slice(header);
    let iv = rtcp_iv(keys.salt, sender(header), index);
    keys.key.seal(cipher, &iv, header, &word, rest, body);
    end.copy_from_slice(&word);
    Ok(sealed)
}

/// Opens what stands between the first 8 bytes and the word of an encrypted packet.
fn open_encrypted<C: SrtpCipher>(
    alloc: Global,
    cipher: C,
    keys: &GcmKeys<C>,
    index: u32,
    header: &[u8],
    body: &[u8],
    word: &[u8],
) -> Result<Option<Vec<u8>>, AllocError>
    requires header { length header.now ≡ HEADER_LEN }
    requires body { TAG_LEN ≤ length body.now }
    ensures opened { IfOk result (λ r. IfSome r (λ v. v.items ≡ header.now ++ drop HEADER_LEN v.items)) }
    ensures some { IfOk result (λ r. IfSome r (λ v.
        C.meaning.aead keys.now.key (gcm_rtcp_iv keys.now.salt (sender_of header.now) index) (header.now ++ word.now) (drop HEADER_LEN v.items) ≡ body.now)) }
    ensures none { IfOk result (λ r. IfNone r ((rest : List ℕ)
        → C.meaning.aead keys.now.key (gcm_rtcp_iv keys.now.salt (sender_of header.now) index) (header.now ++ word.now) rest ≡ body.now → ⊥)) }
{
    let mut plain = vec![in alloc; 0; body.len() - TAG_LEN + HEADER_LEN]?;
    let (front, rest) = plain.split_at_mut(HEADER_LEN);
    front.copy_from_slice(header);
    let iv = rtcp_iv(keys.salt, sender(header), index);
    if keys.key.open(cipher, &iv, header, word, body, rest) {
        Ok(Some(plain))
    } else {
        Ok(None)
    }
}

/// Checks the tag of a packet that is not encrypted.
fn open_clear<C: SrtpCipher>(
    alloc: Global,
    cipher: C,
    keys: &GcmKeys<C>,
    index: u32,
    plain: &[u8],
    tag: &[u8],
    word: &[u8],
) -> Result<Option<Vec<u8>>, AllocError>
    requires header { HEADER_LEN ≤ length plain.now }
    requires tag { length tag.now ≡ TAG_LEN }
    ensures opened { IfOk result (λ r. IfSome r (λ v. v.items ≡ plain.now)) }
    ensures some { IfOk result (λ r. IfSome r (λ _.
        C.meaning.aead keys.now.key (gcm_rtcp_iv keys.now.salt (sender_of (take HEADER_LEN plain.now)) index) (plain.now ++ word.now) [] ≡ tag.now)) }
    ensures none { IfOk result (λ r. IfNone r (
        C.meaning.aead keys.now.key (gcm_rtcp_iv keys.now.salt (sender_of (take HEADER_LEN plain.now)) index) (plain.now ++ word.now) [] ≡ tag.now → ⊥)) }
{
    let (header, _) = plain.split_at(HEADER_LEN);
    let iv = rtcp_iv(keys.salt, sender(header), index);
    if keys.key.open(cipher, &iv, plain, word, tag, &mut []) {
        Ok(Some(plain.to_vec(alloc)?))
    } else {
        Ok(None)
    }
}

/// Opens an RTCP packet, encrypted or not.
pub(crate) fn open_rtcp<C: SrtpCipher>(
    alloc: Global,
    cipher: C,
    keys: &GcmKeys<C>,
    buf: &[u8],
) -> Result<Option<Vec<u8>>, AllocError>
    ensures some { IfOk result (λ r. IfSome r (λ v. GcmRtcpOpens C.meaning keys.now.key keys.now.salt buf.now v.items)) }
    ensures none { IfOk result (λ r. IfNone r ((p : List ℕ)
        → GcmRtcpOpens C.meaning keys.now.key keys.now.salt buf.now p → ⊥)) }
    ensures short { length buf.now < MIN_SEALED_LEN → result ≡ Ok None }
{
    C::laws();
    if buf.len() < MIN_SEALED_LEN {
        return Ok(None);
    }
    let (sealed, word) = buf.split_at(buf.len() - WORD_LEN);
    let number = wire::word(word, 0);
    let index = number % E_BIT;
    if number >= E_BIT {
        let (header, body) = sealed.split_at(HEADER_LEN);
        open_encrypted(alloc, cipher, keys, index, header, body, word)
    } else {
        let (plain, tag) = sealed.split_at(sealed.len() - TAG_LEN);
        open_clear(alloc, cipher, keys, index, plain, tag, word)
    }
}
