ghost use Rattle.std.specs.Prelude.{◌≡◌, ◌^◌, [], ◌∷◌};
ghost use Rattle.srtp_core.specs.Keys.{key_len, salt_len, authentication_len, tag_len};
ghost use Rattle.srtp_core.specs.declared.aead_aes_128_gcm.TheConstants.{IV_LEN as IV_128_LEN, RTCP_AAD_LEN as AAD_128_LEN};
ghost use Rattle.srtp_core.specs.declared.aead_aes_256_gcm.TheConstants.{IV_LEN as IV_256_LEN, RTCP_AAD_LEN as AAD_256_LEN};

use crate::aes_128_cm_sha1_80::RTCP_WORD_PLACE;
use crate::profile::SrtpProfile;
use crate::{
    E_BIT, HEADER_LEN, HMAC_BLOCK_LEN, IPAD, LABEL_RTCP_AES, LABEL_RTCP_AUTHENTICATION_KEY,
    LABEL_RTCP_SALT, LABEL_RTP_AES, LABEL_RTP_AUTHENTICATION_KEY, LABEL_RTP_SALT, MAX_DATAGRAM_LEN,
    MAX_DERIVED_LEN, OPAD, SRTCP_INDEX_LIMIT, SRTCP_OVERHEAD, SRTP_BLOCK_SIZE, SRTP_OVERHEAD,
    WORD_LEN,
};

/// Which numbers the names have that contracts of this crate speak of. The lengths of a profile
/// stand in its module, as `KEY_LEN`, `SALT_LEN`, `HMAC_KEY_LEN`, and `TAG_LEN` or `HMAC_TAG_LEN`.
pub fn named_numbers()
    ensures indices { SRTCP_INDEX_LIMIT ≡ 2 ^ 31 }
    ensures e_bit { E_BIT ≡ 0x8000_0000 }
    ensures header { HEADER_LEN ≡ 8 }
    ensures word { WORD_LEN ≡ 4 }
    ensures word_place { RTCP_WORD_PLACE ≡ 14 }
    ensures datagram { MAX_DATAGRAM_LEN ≡ 2000 }
    ensures overhead { SRTP_OVERHEAD ≡ 16 }
    ensures rtcp_overhead { SRTCP_OVERHEAD ≡ 20 }
    ensures block { SRTP_BLOCK_SIZE ≡ 16 }
    ensures label_0 { LABEL_RTP_AES ≡ 0 }
    ensures label_1 { LABEL_RTP_AUTHENTICATION_KEY ≡ 1 }
    ensures label_2 { LABEL_RTP_SALT ≡ 2 }
    ensures label_3 { LABEL_RTCP_AES ≡ 3 }
    ensures label_4 { LABEL_RTCP_AUTHENTICATION_KEY ≡ 4 }
    ensures label_5 { LABEL_RTCP_SALT ≡ 5 }
    ensures derived { MAX_DERIVED_LEN ≡ 2 ^ 20 }
    ensures hmac_block { HMAC_BLOCK_LEN ≡ 64 }
    ensures ipad { IPAD ≡ 0x36 }
    ensures opad { OPAD ≡ 0x5c }
    ensures cm_key { key_len SrtpProfile.Aes128CmSha1_80 ≡ 16 }
    ensures cm_salt { salt_len SrtpProfile.Aes128CmSha1_80 ≡ 14 }
    ensures cm_authentication { authentication_len SrtpProfile.Aes128CmSha1_80 ≡ 20 }
    ensures cm_tag { tag_len SrtpProfile.Aes128CmSha1_80 ≡ 10 }
    ensures gcm_128_key { key_len SrtpProfile.AeadAes128Gcm ≡ 16 }
    ensures gcm_128_salt { salt_len SrtpProfile.AeadAes128Gcm ≡ 12 }
    ensures gcm_128_tag { tag_len SrtpProfile.AeadAes128Gcm ≡ 16 }
    ensures gcm_128_iv { IV_128_LEN ≡ 12 }
    ensures gcm_128_associated { AAD_128_LEN ≡ 12 }
    ensures gcm_256_key { key_len SrtpProfile.AeadAes256Gcm ≡ 32 }
    ensures gcm_256_salt { salt_len SrtpProfile.AeadAes256Gcm ≡ 12 }
    ensures gcm_256_tag { tag_len SrtpProfile.AeadAes256Gcm ≡ 16 }
    ensures gcm_256_iv { IV_256_LEN ≡ 12 }
    ensures gcm_256_associated { AAD_256_LEN ≡ 12 }
    ensures profiles { SrtpProfile.ALL ≡ SrtpProfile.AeadAes256Gcm ∷ SrtpProfile.AeadAes128Gcm ∷ SrtpProfile.Aes128CmSha1_80 ∷ [] }
{}
