// What the words of a pace script say.
ghost use Rattle.std.specs.Prelude.{◌≡◌, ◌≤◌, ◌<◌, ◌^◌, ◌==◌, map, IfOk};
ghost use Rattle.media_script.specs.Gives.{Gives};
ghost use Rattle.media_script.specs.Words.{narrow_of};
ghost use Rattle.pace_script.specs.Words.{rate_of, moment_of, parts_of};

use media_script::shared::{LineError, number, time};
use media_units::Bitrate;
use std::alloc::{AllocError, Global};

/// The greatest moment, in nanoseconds: some 115 days, a choice.
pub const MOST_TIME: u64 = 10_000_000_000_000_000;

// Bits a second. What is above the greatest rate is the greatest.
#[tactic(auto, unfolding(crate::specs::Words::rate_of))]
pub fn rate(word: &[u8]) -> Result<Bitrate, LineError>
    ensures { Gives (λ r. r) result (rate_of word.now) }
{
    Ok(Bitrate::bps(number(word)?))
}

// A number below a limit.
#[tactic(auto, unfolding(media_script::specs::Words::narrow_of))]
pub fn number_below(word: &[u8], limit: u64) -> Result<u64, LineError>
    ensures { Gives (λ n. n) result (narrow_of limit word.now) }
{
    let n = number(word)?;
    if n >= limit {
        return Err(LineError::Outside);
    }
    Ok(n)
}

// Nanoseconds, at most 10^16.
#[tactic(auto, unfolding(crate::specs::Words::moment_of))]
pub fn moment(word: &[u8]) -> Result<u64, LineError>
    ensures { Gives (λ t. t) result (moment_of word.now) }
{
    let nanos = time(word)?;
    if nanos > MOST_TIME {
        return Err(LineError::Outside);
    }
    Ok(nanos)
}

// The parts between single colons.
pub fn parts(alloc: Global, word: &[u8]) -> Result<Vec<&[u8]>, AllocError>
    ensures { IfOk result (λ v. map (λ p. p.now) v.items ≡ parts_of word.now) }
{
    word.split(|b| *b == b':').collect(alloc)
}
