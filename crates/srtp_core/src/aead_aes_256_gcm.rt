//! AES-256 in Galois counter mode with a tag of 128 bits (RFC 7714).

use crate::keying::SrtpKey;

/// The length of a key, in bytes.
pub const KEY_LEN: usize = 32;
/// The length of a salt, in bytes.
pub const SALT_LEN: usize = 12;
/// The length of the associated data of an encrypted RTCP packet, in bytes.
pub const RTCP_AAD_LEN: usize = 12;
/// The length of a tag, in bytes.
pub const TAG_LEN: usize = 16;
/// The length of an initial value, in bytes.
pub const IV_LEN: usize = 12;

/// A key for authenticated encryption.
pub type AeadKey = [u8; KEY_LEN];

/// A salt, of RTP or of RTCP.
pub type RtpSalt = [u8; SALT_LEN];

/// An initial value, of RTP or of RTCP.
pub type RtpIv = [u8; IV_LEN];

/// A master key with its salt.
pub(crate) type MasterKey = SrtpKey<KEY_LEN, SALT_LEN>;

pub use crate::gcm::{rtcp_iv, rtp_iv};
