//! SRTP (RFC 3711, RFC 7714): ciphers, session keys, sealing and opening.
#![tactic(auto)]

pub mod aead_aes_128_gcm;
pub mod aead_aes_256_gcm;
pub mod aes_128_cm_sha1_80;
mod cipher;
mod cipher_key;
mod cm;
mod context;
mod counter;
mod error;
mod gcm;
mod gcm_rtcp;
mod hmac;
mod key_stream;
mod keying;
pub mod laws;
mod numbers;
mod profile;
mod sha;
mod simulated;
mod srtcp;
mod toy;

pub use cipher::SrtpCipher;
pub use context::{MAX_DATAGRAM_LEN, SRTCP_INDEX_LIMIT, SrtpContext};
pub use counter::Counter;
pub use error::SrtpError;
pub use hmac::{HMAC_BLOCK_LEN, IPAD, OPAD, sha1_hmac};
pub use keying::{
    KeyingMaterial, LABEL_RTCP_AES, LABEL_RTCP_AUTHENTICATION_KEY, LABEL_RTCP_SALT, LABEL_RTP_AES,
    LABEL_RTP_AUTHENTICATION_KEY, LABEL_RTP_SALT, MAX_DERIVED_LEN, SrtpKey,
};
pub use numbers::named_numbers;
pub use profile::SrtpProfile;
pub use sha::ShaCipher;
pub use simulated::SimulatedKey;
pub use srtcp::{E_BIT, HEADER_LEN, WORD_LEN};
pub use toy::ToyCipher;

/// The length of a block of the cipher, in bytes.
pub const SRTP_BLOCK_SIZE: usize = 16;
/// A block of the cipher.
pub type Block = [u8; SRTP_BLOCK_SIZE];
/// The most by which a sealed RTCP packet is longer than the packet, in bytes.
pub const SRTCP_OVERHEAD: usize = 20;
/// The most by which a sealed RTP datagram is longer than the datagram, in bytes.
pub const SRTP_OVERHEAD: usize = 16;
