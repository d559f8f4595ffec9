//! Laws as functions that compute nothing: what they ensure is proved, and can be cited by a call.

ghost use Rattle.srtp_core.specs.Laws.{RtpSealKeepsHeader, RtpIvsApart, RtcpIvsApart, RtpSealsApart, RtpOpensOnce, RtpOpensSealed, RtcpOpensOnce, RtcpStates, RtcpOpensSealed, RtcpSealKeepsHeader, RtpSealIsLonger};

use crate::cipher::SrtpCipher;

/// No two RTP datagrams under one salt have one initial value (RFC 3711 section 9.1, RFC 7714
/// section 8.1), SSRCs being below 2^32 and indices below 2^48.
pub fn rtp_ivs_apart()
    ensures { RtpIvsApart }
{}

/// No two SRTCP datagrams under one salt have one initial value, indices being below 2^31.
pub fn rtcp_ivs_apart()
    ensures { RtcpIvsApart }
{}

/// Under one key, SSRC and index no two datagrams are sealed alike.
pub fn rtp_seals_apart<C: SrtpCipher>()
    ensures { RtpSealsApart C.meaning }
{
    C::laws();
}

/// A datagram opens to one payload at most.
pub fn rtp_opens_once<C: SrtpCipher>()
    ensures { RtpOpensOnce C.meaning }
{
    C::laws();
}

/// A datagram that was sealed opens to its payload.
pub fn rtp_opens_sealed<C: SrtpCipher>()
    ensures { RtpOpensSealed C.meaning }
{}

/// A sealed datagram begins with its header, is no shorter than the plain one, and at most 16 bytes
/// longer.
pub fn rtp_seal_keeps_header<C: SrtpCipher>()
    ensures { RtpSealKeepsHeader C.meaning }
{
    C::laws();
}

/// An SRTCP datagram opens to one packet at most.
pub fn rtcp_opens_once<C: SrtpCipher>()
    ensures { RtcpOpensOnce C.meaning }
{
    C::laws();
}

/// An SRTCP datagram that was sealed states its E bit and its index.
pub fn rtcp_states<C: SrtpCipher>()
    ensures { RtcpStates C.meaning }
{}

/// An SRTCP datagram that was sealed opens to its packet.
pub fn rtcp_opens_sealed<C: SrtpCipher>()
    ensures { RtcpOpensSealed C.meaning }
{}

/// A sealed SRTCP datagram begins with the first 8 bytes of its packet, and is longer by its word
/// of 4 bytes and its tag.
pub fn rtcp_seal_keeps_header<C: SrtpCipher>()
    ensures { RtcpSealKeepsHeader C.meaning }
{
    C::laws();
}

/// A sealed RTP datagram is longer than the plain one by its tag: 10 or 16 bytes.
pub fn rtp_seal_is_longer<C: SrtpCipher>()
    ensures { RtpSealIsLonger C.meaning }
{
    C::laws();
}
