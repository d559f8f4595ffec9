ghost use Rattle.std.specs.Prelude.{◌≡◌, ◌≢◌, ℕ, ◌+◌, ◌%◌, ◌<◌, ◌≤◌, true, List, ◌++◌, length, take, IfOk, IfErr, IfSome, IfNone, IsErrOf, OnOk, OnErr};
ghost use Rattle.std.specs.Borrow.{sem};
ghost use Rattle.srtp_core.specs.Keys.{material_len, session_keys, tag_len};
ghost use Rattle.srtp_core.specs.Seals.{sealed_rtp, OpensTo};
ghost use Rattle.srtp_core.specs.RtcpSeals.{sealed_rtcp, RtcpOpensTo};
ghost use Rattle.srtp_core.specs.Contexts.{new_state};
ghost use Rattle.srtp_core.specs.Views.{profile_of, session_of};

use crate::cipher::SrtpCipher;
use crate::cm::CmDirection;
use crate::error::SrtpError;
use crate::gcm::GcmDirection;
use crate::keying::KeyingMaterial;
use crate::profile::SrtpProfile;
use crate::srtcp::{HEADER_LEN, WORD_LEN};
use crate::{aead_aes_128_gcm, aead_aes_256_gcm, aes_128_cm_sha1_80, cm, gcm, gcm_rtcp};
use rtp_base::NUMBER_LIMIT;
use rtp_wire::RtpHeader;
use std::alloc::{AllocError, Global};
use std::marker::Model;

/// The greatest RTP datagram that is opened, in bytes: a choice.
pub const MAX_DATAGRAM_LEN: usize = 2000;

/// The first index that no SRTCP datagram has (RFC 3711 section 3.4).
pub const SRTCP_INDEX_LIMIT: u64 = 1 << 31;

#[derive(Drop)]
enum Keys<C: SrtpCipher> {
    Cm(CmDirection<C>),
    Gcm128(GcmDirection<C>),
    Gcm256(GcmDirection<C>),
}

/// What seals, or opens, the datagrams of one direction. Contracts see the profile, the session
/// keys and the index of the next SRTCP datagram; what stands in the scratch is nobody's.
#[derive(Drop)]
pub struct SrtpContext<C: SrtpCipher> {
    alloc: Global,
    cipher: C,
    keys: Keys<C>,
    srtcp_index: u64,
    scratch: Vec<u8>,
}

impl<C: SrtpCipher> Model for SrtpContext<C> {
    ghost use Rattle.std.specs.Prelude.{◌≡◌, ◌≤◌, length};
    ghost use Rattle.srtp_core.specs.Contexts.{SrtpState};
    ghost use Rattle.srtp_core.specs.declared.context.TheConstants.{MAX_DATAGRAM_LEN, SRTCP_INDEX_LIMIT};

    ghost Value = { SrtpState };

    ghost use Rattle.srtp_core.specs.Views.{profile_of, session_of};

    ghost view = { λ c. record { profile = profile_of c.keys; keys = session_of C.bytes_128 c.keys; srtcp_index = c.srtcp_index } };

    ghost invariant = { λ c. (length c.scratch.items ≡ MAX_DATAGRAM_LEN) × (c.srtcp_index ≤ SRTCP_INDEX_LIMIT) };
}

impl<C: SrtpCipher> SrtpContext<C> {
    ghost use Rattle.srtp_core.specs.Unchanged.{IsUnchangedAfter};
    ghost use Rattle.srtp_core.specs.contracts.context.SrtpContext.{the_row};

    /// A context of the direction in which the left side of the material seals and the other side
    /// opens, or of the other direction. Its next SRTCP datagram has index 0.
    ///
    /// # Errors
    /// `KeyLength` where the material has another length than the profile's; `Memory`.
    pub fn new(
        alloc: Global,
        cipher: C,
        profile: SrtpProfile,
        mat: &KeyingMaterial,
        left: bool,
    ) -> Result<Self, SrtpError>
        ensures made { IfOk result (λ c. c ≡ new_state C.meaning profile mat.now left 0) }
        ensures key_length { length mat.now ≢ material_len profile
            → IsErrOf result SrtpError.KeyLength }
        ensures memory { length mat.now ≡ material_len profile
            → IfErr result (λ e. e ≡ SrtpError.Memory) }
    {
        Self::new_at(alloc, cipher, profile, mat, left, 0)
    }

    /// Like `new`, with the index of the next SRTCP datagram, at most 2^31; at 2^31 there is no
    /// further one.
    ///
    /// # Errors
    /// `KeyLength` where the material has another length than the profile's; `Memory`.
    pub fn new_at(
        alloc: Global,
        cipher: C,
        profile: SrtpProfile,
        mat: &KeyingMaterial,
        left: bool,
        srtcp_index: u64,
    ) -> Result<Self, SrtpError>
        requires { srtcp_index ≤ SRTCP_INDEX_LIMIT }
        ensures made { IfOk result (λ c. c ≡ new_state C.meaning profile mat.now left srtcp_index) }
        ensures key_length { length mat.now ≢ material_len profile
            → IsErrOf result SrtpError.KeyLength }
        ensures memory { length mat.now ≡ material_len profile
            → IfErr result (λ e. e ≡ SrtpError.Memory) }
    {
        if mat.as_slice().len() != profile.keying_material_len() {
            return Err(SrtpError::KeyLength);
        }
        let keys = keys_of(cipher, profile, mat, left);
        let scratch = vec![in alloc; 0; MAX_DATAGRAM_LEN]?;
        Ok(SrtpContext {
            alloc,
            cipher,
            keys,
            srtcp_index,
            scratch,
        })
    }

    /// The profile of its keys.
    pub fn profile(&self) -> SrtpProfile
        ensures { result ≡ self.now.profile }
    {
        match self.keys {
            Keys::Cm(_) => SrtpProfile::Aes128CmSha1_80,
            Keys::Gcm128(_) => SrtpProfile::AeadAes128Gcm,
            Keys::Gcm256(_) => SrtpProfile::AeadAes256Gcm,
        }
    }

    /// The index of the next SRTCP datagram, at most 2^31; at 2^31 there is no further one.
    pub fn srtcp_index(&self) -> u64
        ensures index { result ≡ self.now.srtcp_index }
        ensures bound { result ≤ SRTCP_INDEX_LIMIT }
    {
        self.srtcp_index
    }

    /// Seals an RTP datagram that begins with this header, under this index: 65,536 times the
    /// rollover count plus the header's sequence number (RFC 3711 section 3.3, RFC 7714 section 8).
    ///
    /// # Errors
    /// Where there is no memory.
    #[tactic(auto, unfolding(crate::specs::Seals::sealed_rtp))]
    pub fn protect_rtp(
        &mut self,
        buf: &[u8],
        header: &RtpHeader,
        index: u64,
    ) -> Result<Vec<u8>, AllocError>
        requires header { header.now.header_len ≤ length buf.now }
        requires index { index < NUMBER_LIMIT }
        requires low { index % 65536 ≡ header.now.sequence_number }
        ensures sealed { IfOk result (λ v. v.items
            ≡ sealed_rtp C.meaning self.old.profile self.old.keys header.now.ssrc index header.now.header_len buf.now) }
        ensures same { self.new ≡ self.old }
    {
        let ssrc = u32::from(header.ssrc);
        let len = header.header_len;
        match &self.keys {
            Keys::Cm(keys) => {
                cm::seal_rtp(self.alloc, self.cipher, &keys.rtp, buf, len, ssrc, index)
            }
            Keys::Gcm128(keys) => {
                gcm::seal_rtp(self.alloc, self.cipher, &keys.rtp, buf, len, ssrc, index)
            }
            Keys::Gcm256(keys) => {
                gcm::seal_rtp(self.alloc, self.cipher, &keys.rtp, buf, len, ssrc, index)
            }
        }
    }

    /// Opens an RTP datagram that begins with this header, and lends its payload. `None` where the
    /// datagram is longer than 2,000 bytes or shorter than its header and a tag, or where it is no
    /// payload's seal under this index. Takes no memory.
    pub fn unprotect_rtp(&mut self, buf: &[u8], header: &RtpHeader, index: u64) -> Option<&[u8]>
        requires index { index < NUMBER_LIMIT }
        requires low { index % 65536 ≡ header.now.sequence_number }
        ensures some { IfSome result (λ p.
            OpensTo C.meaning self.old.profile self.old.keys header.now.ssrc index header.now.header_len buf.now p.now) }
        ensures none { IfNone result ((p : List ℕ)
            → OpensTo C.meaning self.old.profile self.old.keys header.now.ssrc index header.now.header_len buf.now p → ⊥) }
        ensures* after { sem 𝓛 (IsUnchangedAfter (the_row C.row C.Key128.row C.Key256.row C.SrtpCipher) self.entry) }
    {
        let len = header.header_len;
        if buf.len() > MAX_DATAGRAM_LEN || len > buf.len() {
            return None;
        }
        match open_front(
            self.cipher,
            &self.keys,
            buf,
            len,
            u32::from(header.ssrc),
            index,
            &mut self.scratch,
        ) {
            Some(len) => Some(&self.scratch[..len]),
            None => None,
        }
    }

    /// Seals an RTCP packet under the next index, with the E bit set (RFC 3711 section 3.4, RFC
    /// 7714 section 9).
    ///
    /// # Errors
    /// `KeyExhausted` exactly where the index is 2^31; `Memory`. Then nothing changes.
    pub fn protect_rtcp(&mut self, buf: &[u8]) -> Result<Vec<u8>, SrtpError>
        requires { HEADER_LEN ≤ length buf.now }
        ensures sealed { IfOk result (λ v. v.items
            ≡ sealed_rtcp C.meaning self.old.profile self.old.keys true self.old.srtcp_index buf.now) }
        ensures next { OnOk result (self.new
            ≡ record self.old { srtcp_index = self.old.srtcp_index + 1 }) }
        ensures refused { OnErr result (self.new ≡ self.old) }
        ensures exhausted { self.old.srtcp_index ≡ SRTCP_INDEX_LIMIT
            → IsErrOf result SrtpError.KeyExhausted }
        ensures memory { self.old.srtcp_index ≢ SRTCP_INDEX_LIMIT
            → IfErr result (λ e. e ≡ SrtpError.Memory) }
        ensures bound { self.new.srtcp_index ≤ SRTCP_INDEX_LIMIT }
    {
        if self.srtcp_index == SRTCP_INDEX_LIMIT {
            return Err(SrtpError::KeyExhausted);
        }
        let index = self.srtcp_index as u32;
        let sealed = seal_packet(self.alloc, self.cipher, &self.keys, buf, index)?;
        self.srtcp_index += 1;
        Ok(sealed)
    }

    /// Opens an RTCP packet. `None` where the datagram is not the seal, under the index that it
    /// states, of a packet of at least 8 bytes: encrypted where it states the E bit, else plain
    /// with a tag.
    ///
    /// # Errors
    /// Where there is no memory.
    pub fn unprotect_rtcp(&mut self, buf: &[u8]) -> Result<Option<Vec<u8>>, AllocError>
        ensures some { IfOk result (λ r. IfSome r (λ v. RtcpOpensTo C.meaning self.old.profile self.old.keys buf.now v.items)) }
        ensures none { IfOk result (λ r. IfNone r ((p : List ℕ)
            → RtcpOpensTo C.meaning self.old.profile self.old.keys buf.now p → ⊥)) }
        ensures short { length buf.now < HEADER_LEN + WORD_LEN + tag_len self.old.profile → result ≡ Ok None }
        ensures same { self.new ≡ self.old }
    {
        open_packet(self.alloc, self.cipher, &self.keys, buf)
    }
}

/// The keys of a direction.
#[tactic(auto, using(crate::proofs::Derived::derived_nothing))]
fn keys_of<C: SrtpCipher>(
    cipher: C,
    profile: SrtpProfile,
    mat: &KeyingMaterial,
    left: bool,
) -> Keys<C>
    requires { length mat.now ≡ material_len profile }
    ensures profile { profile_of result ≡ profile }
    ensures keys { session_of C.bytes_128 result ≡ session_keys C.meaning profile mat.now left }
{
    match profile {
        SrtpProfile::Aes128CmSha1_80 => {
            Keys::Cm(cm::cm_direction(cipher, &aes_128_cm_sha1_80::MasterKey::new(mat, left)))
        }
        SrtpProfile::AeadAes128Gcm => {
            Keys::Gcm128(gcm::gcm_direction(cipher, &aead_aes_128_gcm::MasterKey::new(mat, left)))
        }
        SrtpProfile::AeadAes256Gcm => {
            Keys::Gcm256(gcm::gcm_direction(cipher, &aead_aes_256_gcm::MasterKey::new(mat, left)))
        }
    }
}

/// Opens a datagram into the front of a buffer, and tells the length of the payload.
fn open_front<C: SrtpCipher>(
    cipher: C,
    keys: &Keys<C>,
    buf: &[u8],
    header_len: usize,
    ssrc: u32,
    index: u64,
    output: &mut [u8],
) -> Option<usize>
    requires within { length buf.now ≤ MAX_DATAGRAM_LEN }
    requires header { header_len ≤ length buf.now }
    requires room { length buf.now ≤ length output.old }
    requires index { index < NUMBER_LIMIT }
    ensures same { length output.new ≡ length output.old }
    ensures len { IfSome result (λ n. n ≤ length output.new) }
    ensures opens { IfSome result (λ n. OpensTo C.meaning (profile_of keys.now) (session_of C.bytes_128 keys.now) ssrc index header_len buf.now (take n output.new)) }
    ensures none { IfNone result ((p : List ℕ)
        → OpensTo C.meaning (profile_of keys.now) (session_of C.bytes_128 keys.now) ssrc index header_len buf.now p → ⊥) }
{
    match keys {
        Keys::Cm(direction) => cm::open_rtp(
            cipher,
            &direction.rtp,
            buf,
            header_len,
            ssrc,
            index,
            output,
        ),
        Keys::Gcm128(direction) => gcm::open_rtp(
            cipher,
            &direction.rtp,
            buf,
            header_len,
            ssrc,
            index,
            output,
        ),
        Keys::Gcm256(direction) => gcm::open_rtp(
            cipher,
            &direction.rtp,
            buf,
            header_len,
            ssrc,
            index,
            output,
        ),
    }
}

#[tactic(auto, unfolding(crate::specs::RtcpSeals::sealed_rtcp))]
fn seal_packet<C: SrtpCipher>(
    alloc: Global,
    cipher: C,
    keys: &Keys<C>,
    buf: &[u8],
    index: u32,
) -> Result<Vec<u8>, AllocError>
    requires header { HEADER_LEN ≤ length buf.now }
    requires index { index < SRTCP_INDEX_LIMIT }
    ensures { IfOk result (λ v. v.items
        ≡ sealed_rtcp C.meaning (profile_of keys.now) (session_of C.bytes_128 keys.now) true index buf.now) }
{
    match keys {
        Keys::Cm(direction) => cm::seal_rtcp(alloc, cipher, &direction.rtcp, buf, index),
        Keys::Gcm128(direction) => gcm_rtcp::seal_rtcp(alloc, cipher, &direction.rtcp, buf, index),
        Keys::Gcm256(direction) => gcm_rtcp::seal_rtcp(alloc, cipher, &direction.rtcp, buf, index),
    }
}

fn open_packet<C: SrtpCipher>(
    alloc: Global,
    cipher: C,
    keys: &Keys<C>,
    buf: &[u8],
) -> Result<Option<Vec<u8>>, AllocError>
    ensures some { IfOk result (λ r. IfSome r (λ v. RtcpOpensTo C.meaning (profile_of keys.now) (session_of C.bytes_128 keys.now) buf.now v.items)) }
    ensures none { IfOk result (λ r. IfNone r ((p : List ℕ)
        → RtcpOpensTo C.meaning (profile_of keys.now) (session_of C.bytes_128 keys.now) buf.now p
        → ⊥)) }
    ensures short { length buf.now < HEADER_LEN + WORD_LEN + tag_len (profile_of keys.now) → result ≡ Ok None }
{
    match keys {
        Keys::Cm(direction) => cm::open_rtcp(alloc, cipher, &direction.rtcp, buf),
        Keys::Gcm128(direction) => gcm_rtcp::open_rtcp(alloc, cipher, &direction.rtcp, buf),
        Keys::Gcm256(direction) => gcm_rtcp::open_rtcp(alloc, cipher, &direction.rtcp, buf),
    }
}
