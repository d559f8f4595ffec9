// Amounts that count for some time after they were added.
ghost use Rattle.std.specs.Prelude.{◌≡◌, ◌+◌, ◌-◌, ◌^◌, ◌<◌, ◌≤◌, ℕ, [], ◌∷◌, ◌++◌, List, OnOk, OnErr, length, true, false};
ghost use Rattle.media_units.specs.History.{StandsFor, total_of, purged, recent, IsUnfalling};

use crate::{Duration, Instant};
use std::alloc::{AllocError, Global};
use std::collections::VecDeque;
use std::marker::Model;

/// A number that can be added up.
pub trait Amount: Copy {
    /// The number.
    ghost number: { Self → ℕ };

    /// The least number that is too large.
    ghost bound: { ℕ };

    /// Nothing.
    fn zero() -> Self
        ensures { number result ≡ 0 };

    /// The sum.
    fn plus(self, more: Self) -> Self
        requires { number self + number more < bound }
        ensures { number result ≡ number self + number more };

    /// The difference.
    fn minus(self, less: Self) -> Self
        requires { number less ≤ number self }
        ensures { number result ≡ number self - number less };
}

impl Amount for u64 {
    ghost number = { λ n. n };

    ghost bound = { 2 ^ 64 };

    fn zero() -> Self {
        0
    }

    fn plus(self, more: Self) -> Self {
        self + more
    }

    fn minus(self, less: Self) -> Self {
        self - less
    }
}

impl Amount for u128 {
    ghost number = { λ n. n };

    ghost bound = { 2 ^ 128 };

    fn zero() -> Self {
        0
    }

    fn plus(self, more: Self) -> Self {
        self + more
    }

    fn minus(self, less: Self) -> Self {
        self - less
    }
}

/// How long an amount counts after it was added, in nanoseconds: a choice.
pub const HISTORY_NANOS: u64 = 1_000_000_000;

/// Amounts that count for 1 s after they were added, and their sum.
#[derive(Drop)]
pub struct ValueHistory<T: Amount> {
    total: T,
    entries: VecDeque<(Instant, T)>,
    longest: Duration,
}

impl<T: Amount> Model for ValueHistory<T> {
    ghost use Rattle.std.specs.Prelude.{◌≤◌, ◌-◌, map};
    ghost use Rattle.media_units.specs.History.{History, amount_of};

    ghost Value = { History };

    ghost view = { λ h. let held = map (λ p. (p.0, T.number p.1)) h.entries.items in
        record { start = T.number h.total - amount_of held; held = held; limit = h.longest } };

    ghost invariant = { λ h. amount_of (map (λ p. (p.0, T.number p.1)) h.entries.items) ≤ T.number h.total };
}

impl<T: Amount> ValueHistory<T> {
    /// A history of nothing.
    pub fn new(alloc: Global) -> Self
        ensures empty { result ≡ record { start = 0; held = []; limit = HISTORY_NANOS } }
        ensures stands { StandsFor result [] 0 }
    {
        Self::starting_at(alloc, T::zero())
    }

    /// A history that begins with an amount, which counts always.
    pub fn starting_at(alloc: Global, start: T) -> Self
        ensures empty { result ≡ record { start = T.number start; held = []; limit = HISTORY_NANOS } }
        ensures stands { StandsFor result [] 0 }
    {
        ValueHistory {
            total: start,
            entries: VecDeque::new(alloc),
            longest: Duration::from_nanos(HISTORY_NANOS),
        }
    }

    /// Adds an amount. Without memory nothing is added.
    pub fn push(&mut self, moment: Instant, amount: T) -> Result<(), AllocError>
        requires { total_of self.old + T.number amount < T.bound }
        ensures ok { OnOk result
            (self.new ≡ record self.old { held = self.old.held ++ (moment, T.number amount) ∷ [] }) }
        ensures err { OnErr result (self.new ≡ self.old) }
        ensures stands { (pushes : List (ℕ × ℕ)) (purged_at : ℕ) → StandsFor self.old pushes purged_at
            → purged_at ≤ moment → IsUnfalling (pushes ++ (moment, T.number amount) ∷ [])
            → OnOk result (StandsFor self.new (pushes ++ (moment, T.number amount) ∷ []) purged_at) }
    {
        self.entries.push_back((moment, amount))?;
        self.total = self.total.plus(amount);
        Ok(())
    }

    /// The sum of the start and of all that is held.
    pub fn sum(&self) -> T
        ensures { T.number result ≡ total_of self.now }
    {
        self.total
    }

    /// Lets go of what was added longer ago than 1 s, up to the first that was not. Where the
    /// moments do not fall, what is held then is all that is not older.
    pub fn purge_old(&mut self, now: Instant)
        ensures purged { self.new ≡ record self.old { held = purged self.old.limit now self.old.held } }
        ensures unfalling { IsUnfalling self.old.held
            → self.new.held ≡ recent self.old.limit now self.old.held }
        ensures stands { (pushes : List (ℕ × ℕ)) (purged_at : ℕ) → StandsFor self.old pushes purged_at
            → purged_at ≤ now → StandsFor self.new pushes now }
    {
        while self.drop_old(now) {}
    }

    // Lets go of the first, if it is too old, and says so.
    fn drop_old(&mut self, now: Instant) -> bool
        ensures same { self.new ≡ record self.old { held = self.new.held } }
        ensures purged { purged self.old.limit now self.new.held ≡ purged self.old.limit now self.old.held }
        ensures shorter { result ≡ true → length self.new.held < length self.old.held }
        ensures done { result ≡ false → self.new.held ≡ purged self.old.limit now self.new.held }
    {
        let Some((moment, amount)) = self.entries.front().copied() else {
            return false;
        };
        if now.saturating_duration_since(moment) <= self.longest {
            return false;
        }
        self.entries.pop_front();
        self.total = self.total.minus(amount);
        true
    }
}
