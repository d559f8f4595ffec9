ghost use Rattle.std.specs.Prelude.{◌≡◌, ℕ, ◌-◌, ◌<◌, ◌≤◌, ◌==◌, ◌&&◌, ◌||◌, true, nat_le, nat_eq};
ghost use Rattle.mask_register.specs.Mask.{has};

use repair_core::MAX_MISORDER;

/// Which of the numbers up to the greatest were taken: the bit of weight 2^i stands for the number
/// that is `i` below it. The bits up to 100 are used.
#[derive(Clone, Copy, Debug)]
pub struct Mask {
    bits: u128,
}

impl Mask {
    /// The greatest number alone.
    #[tactic(auto, using(crate::proofs::MaskLaws::alone_has))]
    pub fn alone() -> Self
        ensures { (i : ℕ) → has result i ≡ nat_eq i 0 }
    {
        Mask { bits: 1 }
    }

    /// Whether the number that is so far below the greatest was taken.
    #[tactic(auto, using(crate::proofs::MaskLaws::has_is))]
    pub fn has(&self, back: u64) -> bool
        requires { back ≤ MAX_MISORDER }
        ensures { result ≡ has self.now back }
    {
        self.bits >> back & 1 == 1
    }

    /// Takes the number that is so far below the greatest.
    #[tactic(auto, using(crate::proofs::MaskLaws::added_has))]
    pub fn add(&mut self, back: u64)
        requires { back ≤ MAX_MISORDER }
        ensures { (i : ℕ) → has self.new i ≡ (nat_eq i back || has self.old i) }
    {
        self.bits |= 1 << back;
    }

    /// Goes on to a greatest number that is so much greater, and was not taken.
    #[tactic(auto, using(crate::proofs::MaskLaws::shifted_has))]
    pub fn shift(&mut self, by: u64)
        ensures { (i : ℕ) → i ≤ MAX_MISORDER → has self.new i ≡ (nat_le by i && has self.old (i - by)) }
    {
        self.bits = if by <= MAX_MISORDER {
            self.bits << by
        } else {
            0
        };
    }

    /// How many numbers were taken from the greatest down to the first that was not.
    pub fn run(&self) -> u64
        ensures { (i : ℕ) → i < result → has self.now i ≡ true }
    {
        u64::from(self.bits.trailing_ones())
    }
}
