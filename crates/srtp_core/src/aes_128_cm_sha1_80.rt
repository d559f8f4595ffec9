//! AES-128 in counter mode with a tag of 80 bits (RFC 3711 sections 4.1.1 and 4.2.1).

ghost use Rattle.std.specs.Prelude.{◌≡◌, ℕ, ◌+◌, ◌<◌, ◌≤◌, ◌↔◌, ◌++◌, length, take, drop, replicate, IsTrue};
ghost use Rattle.srtp_core.specs.Seals.{cm_source, cm_index, cm_iv, cm_rtp_tag};
ghost use Rattle.srtp_core.specs.Hmac.{hmac_of};
ghost use Rattle.media_base.specs.Text.{xored};

use crate::gcm::xor_into;
use crate::hmac::sha1_hmac;
use crate::keying::SrtpKey;
use crate::srtcp::WORD_LEN;
use crate::{Block, SRTP_BLOCK_SIZE};
use rtp_base::NUMBER_LIMIT;

/// The length of a key, in bytes.
pub const KEY_LEN: usize = 16;
/// The length of a salt, in bytes.
pub const SALT_LEN: usize = 14;
/// The length of an authentication key, in bytes.
pub const HMAC_KEY_LEN: usize = 20;
/// The length of a tag, in bytes.
pub const HMAC_TAG_LEN: usize = 10;
/// How far before the end of an SRTCP datagram its word stands, in bytes: the tag stands behind it
/// (RFC 3711 section 3.4).
pub const RTCP_WORD_PLACE: usize = WORD_LEN + HMAC_TAG_LEN;

/// A key for counter mode.
pub type AesKey = [u8; KEY_LEN];

/// A salt, of RTP or of RTCP.
pub type RtpSalt = [u8; SALT_LEN];

/// An initial value, of RTP or of RTCP.
pub type RtpIv = Block;

/// A master key with its salt.
pub(crate) type MasterKey = SrtpKey<KEY_LEN, SALT_LEN>;

fn source_bytes(ssrc: u32) -> Block
    ensures { result ≡ cm_source ssrc }
{
    let mut bytes = [0; SRTP_BLOCK_SIZE];
    let (front, _) = bytes.split_at_mut(8);
    let (_, source) = front.split_at_mut(4);
    source.copy_from_slice(&ssrc.to_be_bytes());
    bytes
}

fn index_bytes(index: u64) -> Block
    ensures { result ≡ cm_index index }
{
    let mut bytes = [0; SRTP_BLOCK_SIZE];
    let (front, _) = bytes.split_at_mut(14);
    let (_, place) = front.split_at_mut(6);
    place.copy_from_slice(&index.to_be_bytes());
    bytes
}

fn padded_salt(salt: &RtpSalt) -> Block
    ensures { result ≡ salt.now ++ replicate 2 0 }
{
    let mut bytes = [0; SRTP_BLOCK_SIZE];
    let (front, _) = bytes.split_at_mut(SALT_LEN);
    front.copy_from_slice(salt);
    bytes
}

/// The initial value of a datagram, of its index: for RTP 65,536 times the rollover count plus the
/// sequence number, for SRTCP its 31 bits (RFC 3711 section 4.1.1).
#[tactic(auto, unfolding(crate::specs::Seals::cm_iv))]
pub fn rtp_iv(salt: RtpSalt, ssrc: u32, srtp_index: u64) -> RtpIv
    ensures { result ≡ cm_iv salt ssrc srtp_index }
{
    let mut iv = source_bytes(ssrc);
    xor_into(&mut iv, &index_bytes(srtp_index));
    xor_into(&mut iv, &padded_salt(&salt));
    iv
}

/// The first bytes of a code.
fn tag_of(key: &[u8], part1: &[u8], part2: &[u8]) -> [u8; HMAC_TAG_LEN]
    ensures { result ≡ take HMAC_TAG_LEN (hmac_of key.now (part1.now ++ part2.now)) }
{
    let code = sha1_hmac(key, part1, part2);
    let (front, _) = code.split_at(HMAC_TAG_LEN);
    let mut tag = [0; HMAC_TAG_LEN];
    tag.copy_from_slice(front);
    tag
}

/// The tag of an RTP datagram, over its text and the rollover count.
pub(crate) fn rtp_tag(key: &[u8], text: &[u8], srtp_index: u64) -> [u8; HMAC_TAG_LEN]
    requires { srtp_index < NUMBER_LIMIT }
    ensures { result ≡ cm_rtp_tag key.now srtp_index text.now }
{
    let roc = (srtp_index / 65536) as u32;
    tag_of(key, text, &roc.to_be_bytes())
}

/// The tag of an SRTCP datagram, over its text.
pub(crate) fn rtcp_tag(key: &[u8], text: &[u8]) -> [u8; HMAC_TAG_LEN]
    ensures { result ≡ take HMAC_TAG_LEN (hmac_of key.now text.now) }
{
    tag_of(key, text, &[])
}

/// Writes the tag of the RTP datagram whose text stands before `hmac_start`, from there on.
pub fn rtp_hmac(key: &[u8], buf: &mut [u8], srtp_index: u64, hmac_start: usize)
    requires room { hmac_start + HMAC_TAG_LEN ≤ length buf.old }
    requires index { srtp_index < NUMBER_LIMIT }
    ensures { buf.new ≡ take hmac_start buf.old ++ cm_rtp_tag key.now srtp_index (take hmac_start buf.old) ++ drop (hmac_start + HMAC_TAG_LEN) buf.old }
{
    let (text, behind) = buf.split_at_mut(hmac_start);
    let (tag, _) = behind.split_at_mut(HMAC_TAG_LEN);
    tag.copy_from_slice(&rtp_tag(key, text, srtp_index));
}

/// Whether this is the tag of the RTP datagram whose text `buf` is.
pub fn rtp_verify(key: &[u8], buf: &[u8], srtp_index: u64, tag: &[u8]) -> bool
    requires { srtp_index < NUMBER_LIMIT }
    ensures { IsTrue result ↔ (tag.now ≡ cm_rtp_tag key.now srtp_index buf.now) }
{
    tag == rtp_tag(key, buf, srtp_index).as_slice()
}

/// Writes the tag of the SRTCP datagram whose text stands before `hmac_index`, from there on.
pub fn rtcp_hmac(key: &[u8], buf: &mut [u8], hmac_index: usize)
    requires { hmac_index + HMAC_TAG_LEN ≤ length buf.old }
    ensures { buf.new ≡ take hmac_index buf.old ++ take HMAC_TAG_LEN (hmac_of key.now (take hmac_index buf.old)) ++ drop (hmac_index + HMAC_TAG_LEN) buf.old }
{
    let (text, behind) = buf.split_at_mut(hmac_index);
    let (tag, _) = behind.split_at_mut(HMAC_TAG_LEN);
    tag.copy_from_slice(&rtcp_tag(key, text));
}

/// Whether this is the tag of the SRTCP datagram whose text `buf` is.
pub fn rtcp_verify(key: &[u8], buf: &[u8], tag: &[u8]) -> bool
    ensures { IsTrue result ↔ (tag.now ≡ take HMAC_TAG_LEN (hmac_of key.now buf.now)) }
{
    tag == rtcp_tag(key, buf).as_slice()
}
