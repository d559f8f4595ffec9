// The words for the queues of a timeout.
ghost use Rattle.std.specs.Prelude.{◌≡◌};
ghost use Rattle.media_script.specs.Gives.{Gives};
ghost use Rattle.media_script.specs.Grammar.{texts};
ghost use Rattle.pace_script.specs.Grammar.{mark_in, queue_in, queue_of, queues_of};

use crate::words::{number_below, parts};
use media_base::Listed;
use media_script::shared::{LineError, mid, name, number_32};
use media_units::{DataSize, Duration};
use pace_core::PaceQueue;
use rtp_base::MAX_NAME_LEN;
use std::alloc::Global;

/// The bytes of a queue are fewer: a choice.
pub const BYTES_LIMIT: u64 = 1 << 40;

/// The greatest wait of a queue, in nanoseconds: some 31 years, a choice.
pub const MOST_WAIT: u64 = 1_000_000_000_000_000_000;

/// The wait of a queue, in nanoseconds, is shorter.
pub const WAIT_LIMIT: u64 = MOST_WAIT + 1;

// Whether the mark for padding stands behind the numbers.
fn mark(words: &[&[u8]]) -> Result<bool, LineError>
    ensures { Gives (λ b. b) result (mark_in (texts words.now)) }
{
    match words {
        [] => Ok(false),
        [mark] if *mark == b"p".as_slice() => Ok(true),
        _ => Err(LineError::Outside),
    }
}

#[tactic(auto, unfolding(crate::specs::Grammar::queue_in))]
fn queue_in(words: &[&[u8]]) -> Result<PaceQueue, LineError>
    ensures { Gives (λ q. q) result (queue_in (texts words.now)) }
{
    match words {
        [of, count, bytes, wait, marks @ ..] => Ok(PaceQueue {
            mid: mid(name(of, MAX_NAME_LEN)?),
            count: number_32(count)?,
            bytes: DataSize::bytes(number_below(bytes, BYTES_LIMIT)?),
            wait: Duration::from_nanos(number_below(wait, WAIT_LIMIT)?),
            padding: mark(marks)?,
        }),
        _ => Err(LineError::Outside),
    }
}

fn queue(alloc: Global, word: &[u8]) -> Result<PaceQueue, LineError>
    ensures { Gives (λ q. q) result (queue_of word.now) }
{
    let parts = parts(alloc, word)?;
    queue_in(parts.as_slice())
}

// The queues of these words.
pub fn queues(alloc: Global, words: &[&[u8]]) -> Result<Listed<PaceQueue>, LineError>
    ensures { Gives (λ q. q) result (queues_of (texts words.now)) }
{
    let mut queues = Listed::new(alloc);
    for word in words {
        queues.push(queue(alloc, word)?)?;
    }
    Ok(queues)
}
