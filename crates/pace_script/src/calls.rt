// The words of a call.
ghost use Rattle.std.specs.Prelude.{◌≡◌};
ghost use Rattle.media_script.specs.Gives.{Gives};
ghost use Rattle.media_script.specs.Grammar.{texts};
ghost use Rattle.media_script.specs.Spelling.{words_of};
ghost use Rattle.pace_script.specs.Grammar.{pacing_call, padding_call, timeout_call, poll_call, send_call, call_of, rate_line_of};

use crate::queues::queues;
use crate::words::{moment, number_below, rate};
use media_script::shared::{LineError, words};
use media_units::{Bitrate, DataSize, Instant};
use pace_core::{MAX_PACKET, PaceCall};
use std::alloc::Global;

/// The bytes of a packet are fewer.
pub const SIZE_LIMIT: u64 = MAX_PACKET + 1;

fn pacing(words: &[&[u8]]) -> Result<PaceCall, LineError>
    ensures { Gives (λ c. c) result (pacing_call (texts words.now)) }
{
    match words {
        [of] => Ok(PaceCall::Pacing(rate(of)?)),
        _ => Err(LineError::Outside),
    }
}

fn padding(words: &[&[u8]]) -> Result<PaceCall, LineError>
    ensures { Gives (λ c. c) result (padding_call (texts words.now)) }
{
    match words {
        [of] => Ok(PaceCall::Padding(rate(of)?)),
        _ => Err(LineError::Outside),
    }
}

fn timeout(alloc: Global, words: &[&[u8]]) -> Result<PaceCall, LineError>
    ensures { Gives (λ c. c) result (timeout_call (texts words.now)) }
{
    match words {
        [at, rest @ ..] => {
            let now = Instant::from_nanos(moment(at)?);
            Ok(PaceCall::Timeout(now, queues(alloc, rest)?))
        }
        _ => Err(LineError::Outside),
    }
}

fn poll(words: &[&[u8]]) -> Result<PaceCall, LineError>
    ensures { Gives (λ c. c) result (poll_call (texts words.now)) }
{
    match words {
        [] => Ok(PaceCall::Poll),
        _ => Err(LineError::Outside),
    }
}

fn send(words: &[&[u8]]) -> Result<PaceCall, LineError>
    ensures { Gives (λ c. c) result (send_call (texts words.now)) }
{
    match words {
        [at, bytes] => Ok(PaceCall::Send(
            Instant::from_nanos(moment(at)?),
            DataSize::bytes(number_below(bytes, SIZE_LIMIT)?),
        )),
        _ => Err(LineError::Outside),
    }
}

#[tactic(auto, unfolding(crate::specs::Grammar::call_of))]
fn call_in(alloc: Global, words: &[&[u8]]) -> Result<PaceCall, LineError>
    ensures { Gives (λ c. c) result (call_of (texts words.now)) }
{
    match words {
        [] => Err(LineError::Outside),
        [kind, rest @ ..] => {
            if *kind == b"pacing".as_slice() {
                pacing(rest)
            } else if *kind == b"padding".as_slice() {
                padding(rest)
            } else if *kind == b"timeout".as_slice() {
                timeout(alloc, rest)
            } else if *kind == b"poll".as_slice() {
                poll(rest)
            } else if *kind == b"send".as_slice() {
                send(rest)
            } else {
                Err(LineError::Outside)
            }
        }
    }
}

// The call of a line.
pub fn call(alloc: Global, line: &[u8]) -> Result<PaceCall, LineError>
    ensures { Gives (λ c. c) result (call_of (words_of line.now)) }
{
    let words = words(alloc, line)?;
    call_in(alloc, words.as_slice())
}

#[tactic(auto, unfolding(crate::specs::Grammar::rate_line_of))]
fn rate_in(words: &[&[u8]]) -> Result<Bitrate, LineError>
    ensures { Gives (λ r. r) result (rate_line_of (texts words.now)) }
{
    match words {
        [kind, of] if *kind == b"rate".as_slice() => rate(of),
        _ => Err(LineError::Outside),
    }
}

// The rate of the second line.
pub fn first_rate(alloc: Global, line: &[u8]) -> Result<Bitrate, LineError>
    ensures { Gives (λ r. r) result (rate_line_of (words_of line.now)) }
{
    let words = words(alloc, line)?;
    rate_in(words.as_slice())
}
