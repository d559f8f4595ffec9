ghost use Rattle.std.specs.Prelude.{◌≡◌, ◌<◌, ◌+◌, ◌++◌, ◌∷◌, [], true, false, length, OnOk, OnErr};
ghost use Rattle.rtx_core.specs.Ratio.{bytes_in, is_old, recent, without_last};

use media_units::{Duration, Instant};
use std::alloc::{AllocError, Global};
use std::collections::VecDeque;
use std::marker::Model;

/// How long the bytes of a payload that was sent count, in seconds: a choice.
pub const COUNTING_AGE: u64 = 1;

/// The bytes of payloads that were sent, with their moments, and their sum.
#[derive(Debug, Drop)]
pub struct ByteLog {
    entries: VecDeque<(Instant, usize)>,
    total: u64,
}

impl Model for ByteLog {
    ghost use Rattle.std.specs.Prelude.{◌≡◌, ℕ, List};
    ghost use Rattle.rtx_core.specs.Ratio.{bytes_in};

    ghost Value = { List (ℕ × ℕ) };

    ghost view = { λ l. l.entries.items };

    ghost invariant = { λ l. l.total ≡ bytes_in l.entries.items };
}

/// Whether bytes that were sent at a moment count no more: only those of the last second do.
fn is_old(moment: Instant, now: Instant) -> bool
    ensures { result ≡ is_old now moment }
{
    now.saturating_duration_since(moment) > Duration::from_secs(COUNTING_AGE)
}

impl ByteLog {
    /// Nothing was sent.
    pub fn new(alloc: Global) -> Self
        ensures { result ≡ [] }
    {
        ByteLog {
            entries: VecDeque::new(alloc),
            total: 0,
        }
    }

    /// Adds the bytes of a payload. Without memory, or where their sum would have more than 64
    /// bits, nothing is added.
    #[tactic(auto, using(crate::proofs::Logs::bytes_snoc))]
    pub fn push(&mut self, moment: Instant, bytes: usize) -> Result<(), AllocError>
        ensures ok { OnOk result (self.new ≡ self.old ++ (moment, bytes) ∷ []) }
        ensures err { OnErr result (self.new ≡ self.old) }
    {
        let Some(total) = self.total.checked_add(bytes as u64) else {
            return Err(AllocError);
        };
        self.entries.push_back((moment, bytes))?;
        self.total = total;
        Ok(())
    }

    /// Takes back what was added last.
    #[tactic(auto, using(crate::proofs::Logs::bytes_snoc))]
    pub fn take_back(&mut self)
        ensures { self.new ≡ without_last self.old }
    {
        if let Some((_, bytes)) = self.entries.pop_back() {
            self.total -= bytes as u64;
        }
    }

    /// Lets go of the first, if it counts no more, and tells whether it did.
    fn forget_first(&mut self, now: Instant) -> bool
        ensures rest { recent now self.new ≡ recent now self.old }
        ensures shorter { result ≡ true → length self.new < length self.old }
        ensures done { result ≡ false → self.new ≡ recent now self.old }
    {
        let Some((moment, bytes)) = self.entries.front().copied() else {
            return false;
        };
        if !is_old(moment, now) {
            return false;
        }
        self.entries.pop_front();
        self.total -= bytes as u64;
        true
    }

    /// Lets go of what counts no more, from the first on, up to one that does: each entry goes
    /// once.
    pub fn forget_old(&mut self, now: Instant)
        ensures { self.new ≡ recent now self.old }
    {
        while self.forget_first(now) {}
    }

    /// The sum of the bytes that count at a moment. It looks at those that count no more.
    pub fn sum(&self, now: Instant) -> u64
        ensures { result ≡ bytes_in (recent now self.now) }
    {
        let mut total = self.total;
        for place in 0..self.entries.len() {
            let (moment, bytes) = self.entries[place];
            if !is_old(moment, now) {
                return total;
            }
            total -= bytes as u64;
        }
        total
    }
}
