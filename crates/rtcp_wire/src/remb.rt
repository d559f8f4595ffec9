//! The greatest rate that a receiver asks for (draft-alvestrand-rmcat-remb).
ghost use Rattle.std.specs.Prelude.{◌≡◌, ◌≤◌, ◌/◌, ◌^◌, ◌*◌, ◌<◌, IfOk, length, min};
ghost use Rattle.rtp_base.specs.Wire.{Puts};
ghost use Rattle.rtcp_wire.specs.Remb.{is_remb, remb_of, remb_body, exponent_of, mantissa_of};

use crate::row::{read_many, write_rows};
use media_base::Listed;
use media_units::{Bitrate, GREATEST_RATE};
use rtp_base::Ssrc;
use rtp_base::wire::word;
use std::alloc::{AllocError, Global};

/// The name of this kind of application feedback, `REMB` (draft-alvestrand-rmcat-remb section 2.2).
pub const REMB_IDENTIFIER: u32 = 0x5245_4d42;

/// How many bits of a rate are told (draft-alvestrand-rmcat-remb section 2.2).
pub const MANTISSA_BITS: u32 = 18;

/// The number behind the greatest of so many bits.
pub const MANTISSA_LIMIT: u32 = 1 << 18;

/// The greatest rate that the receiver of some sources asks for, over all of them.
#[derive(Debug, PartialEq, Eq, Drop)]
pub struct Remb {
    /// Who asks for it.
    pub sender_ssrc: Ssrc,
    /// On the wire the upper 18 bits of it are told, rounded down.
    pub bitrate: Bitrate,
    /// The sources, at most 255.
    pub ssrcs: Listed<Ssrc>,
}

// Whether application feedback begins with the name of this kind.
pub(crate) fn is_named_remb(body: &[u8]) -> bool
    ensures { result ≡ is_remb body.now }
{
    body.len() >= 12 && word(body, 8) == REMB_IDENTIFIER
}

// The rate of a mantissa and an exponent, which may be far above the greatest.
fn rate(mantissa: u32, exponent: u32) -> Bitrate
    requires small { mantissa < MANTISSA_LIMIT }
    requires few { exponent < 64 }
    ensures { result ≡ min (mantissa * 2 ^ exponent) GREATEST_RATE }
{
    let bits = u128::from(mantissa) << exponent;
    Bitrate::bps(bits.min(u128::from(GREATEST_RATE)) as u64)
}

#[tactic(auto, unfolding(crate::specs::Remb::remb_of))]
pub(crate) fn read_remb(alloc: Global, body: &[u8]) -> Result<Option<Remb>, AllocError>
    ensures { IfOk result (λ r. r ≡ remb_of body.now) }
{
    if body.len() < 16 {
        return Ok(None);
    }
    let fields = word(body, 12);
    let count = (fields / 0x100_0000) as usize;
    if body.len() < 16 + count * 4 {
        return Ok(None);
    }
    let (_, rows) = body.split_at(16);
    Ok(Some(Remb {
        sender_ssrc: word(body, 0).into(),
        bitrate: rate(fields % MANTISSA_LIMIT, fields / MANTISSA_LIMIT % 64),
        ssrcs: read_many(alloc, rows, count)?,
    }))
}

// The exponent and the mantissa of a rate.
#[tactic(auto, using(crate::proofs::Rates::mantissa_small))]
fn parts(rate: Bitrate) -> (u32, u32)
    ensures exponent { result.0 ≡ exponent_of rate }
    ensures mantissa { result.1 ≡ mantissa_of rate }
    ensures few { result.0 < 64 }
    ensures small { result.1 < MANTISSA_LIMIT }
{
    let bits = rate.as_u64();
    let exponent = (64 - bits.leading_zeros()).saturating_sub(MANTISSA_BITS);
    (exponent, (bits >> exponent) as u32)
}

#[tactic(auto, unfolding(crate::specs::Remb::remb_body))]
pub(crate) fn write_remb(remb: &Remb, out: &mut [u8]) -> Option<usize>
    requires { length remb.now.ssrcs ≤ 255 }
    ensures { Puts out.old 0 (remb_body remb.now) out.new result }
{
    let ssrcs = remb.ssrcs.as_slice();
    let (exponent, mantissa) = parts(remb.bitrate);
    let fields = ssrcs.len() as u32 * 0x100_0000 + exponent * MANTISSA_LIMIT + mantissa;
    let words = [remb.sender_ssrc.into(), 0, REMB_IDENTIFIER, fields];
    let at = write_rows(&words, out, 0)?;
    write_rows(ssrcs, out, at)
}
