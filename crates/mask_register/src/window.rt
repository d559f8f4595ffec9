ghost use Rattle.std.specs.Prelude.{◌≡◌, ℕ, ◌+◌, ◌<◌, ◌≤◌, false};
ghost use Rattle.std.specs.Bool.{OnTrue};
ghost use Rattle.rtp_base.specs.declared.number.TheConstants.{NUMBER_LIMIT};

use crate::mask::Mask;
use repair_core::MAX_MISORDER;

/// The first number that was taken, the greatest, and which of the last 101 were. Numbers are below
/// 2^48.
#[derive(Clone, Copy, Debug)]
pub struct Window {
    pub first: u64,
    pub greatest: u64,
    taken: Mask,
    ghost ordered: { first ≤ greatest },
    ghost small: { greatest < NUMBER_LIMIT },
}

impl Window {
    ghost use Rattle.std.specs.Prelude.{◌∷◌, []};
    ghost use Rattle.mask_register.specs.Window.{is_missing, accepts_number, lowest_in, Takes, Holds};

    /// The window after its first number.
    pub fn begun(number: u64) -> Self
        requires { number < NUMBER_LIMIT }
        ensures { Holds result number (number ∷ []) }
    {
        Window {
            first: number,
            greatest: number,
            taken: Mask::alone(),
        }
    }

    /// Whether a number up to the greatest, and at most 100 below it, was not taken.
    pub fn is_missing(&self, number: u64) -> bool
        requires low { self.now.greatest ≤ number + MAX_MISORDER }
        requires high { number ≤ self.now.greatest }
        ensures { result ≡ is_missing self.now number }
    {
        !self.taken.has(self.greatest - number)
    }

    /// Whether the number may still be taken.
    pub fn accepts(&self, number: u64) -> bool
        requires { number < NUMBER_LIMIT }
        ensures { result ≡ accepts_number self.now number }
    {
        if self.greatest < number {
            return true;
        }
        self.first <= number && self.greatest <= number + MAX_MISORDER && self.is_missing(number)
    }

    /// The window after one more number was taken, at most 100 below the greatest.
    pub fn with(self, number: u64) -> Self
        requires small { number < NUMBER_LIMIT }
        requires near { self.greatest ≤ number + MAX_MISORDER }
        ensures { Takes self result number }
    {
        let mut taken = self.taken;
        if self.greatest < number {
            taken.shift(number - self.greatest);
            taken.add(0);
        } else {
            taken.add(self.greatest - number);
        }
        Window {
            first: self.first,
            greatest: self.greatest.max(number),
            taken,
        }
    }

    /// The lowest number that may be missing.
    pub fn lowest(&self) -> u64
        ensures { result ≡ lowest_in self.now }
    {
        self.first.max(self.greatest.saturating_sub(MAX_MISORDER))
    }

    /// Whether no number is missing.
    pub fn is_whole(&self) -> bool
        ensures { OnTrue result ((k : ℕ) → lowest_in self.now ≤ k → k < self.now.greatest → is_missing self.now k ≡ false) }
    {
        self.greatest - self.lowest() < self.taken.run()
    }
}
