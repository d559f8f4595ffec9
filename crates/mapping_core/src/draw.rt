ghost use Rattle.std.specs.Prelude.{◌≡◌, ℕ, Bool, true, IfOk, IfSome, OnErr};
ghost use Rattle.mapping_core.specs.Draws.{is_apart, drawn, drawn_pair, AreFree};

use rand_core::Rng;
use rtp_base::Ssrc;
use thiserror::Error;

/// How often an SSRC is drawn until one is in use by no stream: a choice.
pub const SSRC_DRAWS: u32 = 64;

/// That no SSRC is drawn.
#[derive(Clone, Copy, Debug, PartialEq, Eq, Drop, Error)]
pub enum SsrcError {
    /// Each of 64 draws for one of the two was 0, in use, or the first of the pair.
    #[error("no SSRC is free")]
    NoFreeSsrc,
}

/// What knows which SSRCs are in use.
pub trait UsedSsrcs {
    /// An SSRC is in use.
    ghost uses: { Self → ℕ → Bool };

    /// Whether an SSRC is in use.
    fn is_used(&self, ssrc: Ssrc) -> bool
        ensures { result ≡ uses self.now ssrc };
}

/// Whether a drawn SSRC may be taken beside one that was.
fn is_apart<U: UsedSsrcs>(used: &U, other: Ssrc, ssrc: Ssrc) -> bool
    ensures { result ≡ is_apart (U.uses used.now) other ssrc }
{
    ssrc != other && !ssrc.is_probe() && !used.is_used(ssrc)
}

/// Draws at most so often, until an SSRC is not 0, not this one, and not in use.
fn draw<U: UsedSsrcs, R: Rng>(used: &U, other: Ssrc, tries: u32, rng: &mut R) -> Option<Ssrc>
    ensures drawn { (result, R.stream rng.new)
        ≡ drawn tries (is_apart (U.uses used.now) other) (R.stream rng.old) }
    ensures free { IfSome result (λ n. is_apart (U.uses used.now) other n ≡ true) }
{
    for _ in 0..tries {
        let ssrc = Ssrc::from(rng.next_u32());
        if is_apart(used, other, ssrc) {
            return Some(ssrc);
        }
    }
    None
}

/// Draws an SSRC for packets and one for their repairs (RFC 3550 section 8.1, RFC 4588 section 4),
/// each the next 32 bits of the generator that are not 0, not in use, and not the other one.
/// `NoFreeSsrc` after 64 draws for one of the two. Each draw costs what `is_used` does.
pub fn new_ssrc_pair<U: UsedSsrcs, R: Rng>(used: &U, rng: &mut R) -> Result<(Ssrc, Ssrc), SsrcError>
    ensures drawn { IfOk result (λ p.
        drawn_pair (U.uses used.now) (R.stream rng.old) ≡ (Some p, R.stream rng.new)) }
    ensures free { IfOk result (λ p. AreFree (U.uses used.now) p.0 p.1) }
    ensures none { OnErr result
        (drawn_pair (U.uses used.now) (R.stream rng.old) ≡ (None, R.stream rng.new)) }
{
    let nothing = Ssrc::from(0);
    let Some(ssrc) = draw(used, nothing, SSRC_DRAWS, rng) else {
        return Err(SsrcError::NoFreeSsrc);
    };
    let Some(rtx) = draw(used, ssrc, SSRC_DRAWS, rng) else {
        return Err(SsrcError::NoFreeSsrc);
    };
    Ok((ssrc, rtx))
}
