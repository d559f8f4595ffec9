ghost use Rattle.std.specs.Prelude.{◌≡◌, ◌≤◌, nat_le, if◌then◌else◌, Some, None};

use rtp_base::NUMBER_LIMIT;
use std::marker::Model;

/// The number that the first packet of a kind has under an SSRC (RFC 3711 section 3.3.1), at most
/// 2^48, behind the last one. Contracts see the number.
#[derive(Clone, Copy, Debug, PartialEq, Eq, PartialOrd, Ord, Hash)]
pub struct FirstNumber(u64);

impl Model for FirstNumber {
    ghost use Rattle.std.specs.Prelude.{ℕ, ◌≤◌};
    ghost use Rattle.rtp_base.specs.declared.number.TheConstants.{NUMBER_LIMIT};

    ghost Value = { ℕ };

    ghost view = { λ i. i.0 };

    ghost invariant = { λ i. i.0 ≤ NUMBER_LIMIT };

    ghost inverse = { λ n. record { 0 = n } };
}

impl FirstNumber {
    /// The least one.
    pub const ZERO: FirstNumber = FirstNumber(0);

    /// A number. None exactly above 2^48.
    pub fn new(number: u64) -> Option<Self>
        ensures { result ≡ (if nat_le number NUMBER_LIMIT then Some number else None) }
    {
        if number <= NUMBER_LIMIT {
            Some(FirstNumber(number))
        } else {
            None
        }
    }

    /// The number, at most 2^48.
    pub fn get(self) -> u64
        ensures value { result ≡ self }
        ensures bounded { self ≤ NUMBER_LIMIT }
    {
        self.0
    }
}
