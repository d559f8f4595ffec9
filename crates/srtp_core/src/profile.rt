ghost use Rattle.std.specs.Prelude.{◌≡◌, ◌<◌, ◌≤◌, Some, length, IfSome, IfNone};
ghost use Rattle.srtp_core.specs.Keys.{material_len};
ghost use Rattle.srtp_core.specs.Names.{profile_name};
ghost use Rattle.srtp_core.specs.RtcpSeals.{word_place, stated_index};

use crate::srtcp::{E_BIT, WORD_LEN};
use crate::{aead_aes_128_gcm as gcm_128, aead_aes_256_gcm as gcm_256, aes_128_cm_sha1_80 as cm};
use rtp_base::wire::word;
use std::fmt;

/// A protection profile (RFC 5764 section 4.1.2, RFC 7714 section 14.2).
#[derive(Clone, Copy, Debug, PartialEq, Eq)]
pub enum SrtpProfile {
    /// AES-128 in counter mode with a tag of 80 bits (RFC 3711).
    Aes128CmSha1_80,
    /// AES-128 in Galois counter mode (RFC 7714).
    AeadAes128Gcm,
    /// AES-256 in Galois counter mode (RFC 7714).
    AeadAes256Gcm,
}

impl SrtpProfile {
    /// All profiles, the preferred one first.
    pub const ALL: [SrtpProfile; 3] = [
        SrtpProfile::AeadAes256Gcm,
        SrtpProfile::AeadAes128Gcm,
        SrtpProfile::Aes128CmSha1_80,
    ];

    /// The length of the keying material, in bytes: two keys and two salts.
    pub fn keying_material_len(&self) -> usize
        ensures { result ≡ material_len self.now }
    {
        match self {
            SrtpProfile::Aes128CmSha1_80 => 2 * (cm::KEY_LEN + cm::SALT_LEN),
            SrtpProfile::AeadAes128Gcm => 2 * (gcm_128::KEY_LEN + gcm_128::SALT_LEN),
            SrtpProfile::AeadAes256Gcm => 2 * (gcm_256::KEY_LEN + gcm_256::SALT_LEN),
        }
    }

    // How far before the end of an SRTCP datagram its word stands.
    fn word_place(&self) -> usize
        ensures { result ≡ word_place self.now }
    {
        match self {
            SrtpProfile::Aes128CmSha1_80 => cm::RTCP_WORD_PLACE,
            SrtpProfile::AeadAes128Gcm | SrtpProfile::AeadAes256Gcm => WORD_LEN,
        }
    }

    /// The index that an SRTCP datagram states (RFC 3711 section 3.4, RFC 7714 section 9), below
    /// 2^31. `None` where it is too short to state one.
    #[tactic(auto, unfolding(crate::specs::RtcpSeals::stated_word))]
    pub fn stated_index(&self, datagram: &[u8]) -> Option<u32>
        ensures some { IfSome result (λ i. i ≡ stated_index self.now datagram.now) }
        ensures long { IfSome result (λ _. word_place self.now ≤ length datagram.now) }
        ensures none { IfNone result (length datagram.now < word_place self.now) }
    {
        let place = self.word_place();
        if datagram.len() < place {
            return None;
        }
        Some(word(datagram, datagram.len() - place) % E_BIT)
    }
}

impl fmt::Display for SrtpProfile {
    ghost output = { λ p. Some (profile_name p) };

    fn fmt<W: fmt::Write>(&self, f: &mut fmt::Formatter<W>) -> fmt::Result {
        f.write_str(match self {
            SrtpProfile::Aes128CmSha1_80 => "SRTP_AES128_CM_SHA1_80",
            SrtpProfile::AeadAes128Gcm => "SRTP_AEAD_AES_128_GCM",
            SrtpProfile::AeadAes256Gcm => "SRTP_AEAD_AES_256_GCM",
        })
    }
}
