//! What SRTCP has under every profile: the packet's first bytes, and the word with the E bit and
//! the index (RFC 3711 section 3.4, RFC 7714 section 9).

ghost use Rattle.std.specs.Prelude.{◌≡◌, length};
ghost use Rattle.srtp_core.specs.RtcpSeals.{sender_of};

use rtp_base::wire::word;

/// The length of what is never encrypted, in bytes: the first 8 bytes of the packet (RFC 3711
/// section 3.4).
pub const HEADER_LEN: usize = 8;

/// The length of the word that holds the E bit and the index, in bytes (RFC 3711 section 3.4).
pub const WORD_LEN: usize = 4;

/// The bit that tells that a packet is encrypted (RFC 3711 section 3.4).
pub const E_BIT: u32 = 0x8000_0000;

/// The SSRC of a packet, of its first 8 bytes.
pub(crate) fn sender(header: &[u8]) -> u32
    requires { length header.now ≡ HEADER_LEN }
    ensures { result ≡ sender_of header.now }
{
    word(header, 4)
}
