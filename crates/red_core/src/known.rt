ghost use Rattle.std.specs.Prelude.{◌≡◌, ◌<◌, ◌==◌, fold, None, IfSome};
ghost use Rattle.std.specs.List.{list_any};
ghost use Rattle.red_core.specs.Known.{Known, is_at, higher, lower, below, above};

use rtp_base::{NUMBER_LIMIT, SeqNo};
use std::marker::Model;

/// A number that came or was recovered, below 2^48, and its time in ticks of the RTP clock.
#[derive(Clone, Copy, Debug, Drop)]
pub struct KnownNumber {
    number: SeqNo,
    time: u64,
}

impl Model for KnownNumber {
    ghost use Rattle.std.specs.Prelude.{◌<◌};
    ghost use Rattle.rtp_base.specs.declared.number.TheConstants.{NUMBER_LIMIT};
    ghost use Rattle.red_core.specs.Known.{Known};

    ghost Value = { Known };

    ghost view = { λ k. record { number = k.number; time = k.time } };

    ghost invariant = { λ k. k.number < NUMBER_LIMIT };

    ghost inverse = { λ k. record { number = k.number; time = k.time } };
}

impl Default for KnownNumber {
    fn default() -> Self {
        KnownNumber {
            number: SeqNo::from(0),
            time: 0,
        }
    }
}

impl KnownNumber {
    pub fn new(number: SeqNo, time: u64) -> Self
        requires { number < NUMBER_LIMIT }
        ensures { result ≡ record { number = number; time = time } }
    {
        KnownNumber { number, time }
    }

    /// The number, below 2^48.
    pub fn number(self) -> u64
        ensures value { result ≡ self.number }
        ensures small { result < NUMBER_LIMIT }
    {
        u64::from(self.number)
    }

    pub fn time(self) -> u64
        ensures { result ≡ self.time }
    {
        self.time
    }
}

/// Whether some number has this time.
pub fn is_at(known: &[KnownNumber], time: u64) -> bool
    ensures { result ≡ is_at known.now time }
{
    known.iter().any(|k| k.time() == time)
}

// The higher of two numbers, of which the second counts only where its time is before this one.
fn higher(best: Option<KnownNumber>, known: KnownNumber, time: u64) -> Option<KnownNumber>
    ensures { result ≡ higher time best known }
{
    if known.time() >= time {
        return best;
    }
    match best {
        Some(best) if best.number() >= known.number() => Some(best),
        _ => Some(known),
    }
}

// The lower of two numbers, of which the second counts only where its time is after this one.
fn lower(best: Option<KnownNumber>, known: KnownNumber, time: u64) -> Option<KnownNumber>
    ensures { result ≡ lower time best known }
{
    if known.time() <= time {
        return best;
    }
    match best {
        Some(best) if best.number() <= known.number() => Some(best),
        _ => Some(known),
    }
}

fn highest_before(known: &[KnownNumber], time: u64) -> Option<KnownNumber>
    ensures { result ≡ below known.now time }
{
    known.iter().fold(None, |best, k| higher(best, *k, time))
}

fn lowest_after(known: &[KnownNumber], time: u64) -> Option<KnownNumber>
    ensures { result ≡ above known.now time }
{
    known.iter().fold(None, |best, k| lower(best, *k, time))
}

/// The greatest of the numbers with an earlier time; of equal ones the first.
pub fn below(known: &[KnownNumber], time: u64) -> Option<KnownNumber>
    ensures value { result ≡ below known.now time }
    ensures earlier { IfSome result (λ k. k.time < time) }
{
    highest_before(known, time)
}

/// The least of the numbers with a later time; of equal ones the first.
pub fn above(known: &[KnownNumber], time: u64) -> Option<KnownNumber>
    ensures value { result ≡ above known.now time }
    ensures later { IfSome result (λ k. time < k.time) }
{
    lowest_after(known, time)
}
