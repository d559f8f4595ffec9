ghost use Rattle.std.specs.Prelude.{◌≡◌, ℕ, ◌≤◌, List, ◌++◌, length, slice_index};
ghost use Rattle.srtp_core.specs.Hmac.{pad_of, hmac_of};
ghost use Rattle.sha1.specs.Sha1.{sha1};

use sha1::{DIGEST_LEN, Sha1};

/// The length of a block of SHA-1, in bytes (RFC 2104 section 2).
pub const HMAC_BLOCK_LEN: usize = 64;

/// Each byte of the inner pad (RFC 2104 section 2).
pub const IPAD: u8 = 0x36;

/// Each byte of the outer pad (RFC 2104 section 2).
pub const OPAD: u8 = 0x5c;

fn byte_or_zero(bytes: &[u8], i: usize) -> u8
    ensures { result ≡ slice_index bytes.now i }
{
    if i < bytes.len() { bytes[i] } else { 0 }
}

fn pad(key: &[u8], with: u8) -> [u8; HMAC_BLOCK_LEN]
    requires { length key.now ≤ HMAC_BLOCK_LEN }
    ensures { result ≡ pad_of key.now with }
{
    let mut block = [0; HMAC_BLOCK_LEN];
    for i in 0..HMAC_BLOCK_LEN {
        block[i] = with ^ byte_or_zero(key, i);
    }
    block
}

fn keyed(key: &[u8], part1: &[u8], part2: &[u8]) -> [u8; DIGEST_LEN]
    requires { length key.now ≤ HMAC_BLOCK_LEN }
    ensures { result ≡ sha1 (pad_of key.now OPAD ++ sha1 (pad_of key.now IPAD ++ (part1.now ++ part2.now))) }
{
    let mut inner = Sha1::new();
    inner.update(&pad(key, IPAD));
    inner.update(part1);
    inner.update(part2);
    let mut outer = Sha1::new();
    outer.update(&pad(key, OPAD));
    outer.update(&inner.finalize());
    outer.finalize()
}

/// HMAC-SHA1 (RFC 2104) of two parts, one after the other.
#[tactic(auto, unfolding(crate::specs::Hmac::hmac_of))]
pub fn sha1_hmac(key: &[u8], part1: &[u8], part2: &[u8]) -> [u8; DIGEST_LEN]
    ensures { result ≡ hmac_of key.now (part1.now ++ part2.now) }
{
    if key.len() > HMAC_BLOCK_LEN {
        keyed(&Sha1::digest(key), part1, part2)
    } else {
        keyed(key, part1, part2)
    }
}
