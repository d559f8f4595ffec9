ghost use Rattle.std.specs.Prelude.{◌≡◌, ◌<◌, ◌*◌, ◌/◌, ◌-◌, ◌^◌, min, ◌==◌, if◌then◌else◌, Some, None};

use std::marker::Model;

/// The ticks of a clock in a second, at least 1. Contracts see the number.
#[derive(Clone, Copy, Debug, PartialEq, Eq, PartialOrd, Ord, Hash)]
pub struct Frequency(u32);

impl Model for Frequency {
    ghost use Rattle.std.specs.Prelude.{ℕ, ◌<◌};

    ghost Value = { ℕ };

    ghost view = { λ f. f.0 };

    ghost invariant = { λ f. 0 < f.0 };

    ghost inverse = { λ n. record { 0 = n } };
}

impl Frequency {
    /// One tick in a second.
    pub const SECONDS: Frequency = Frequency(1);
    /// Ticks of 10 ms.
    pub const HUNDREDTHS: Frequency = Frequency(100);

    /// Ticks of 1 ms.
    pub const MILLIS: Frequency = Frequency(1_000);

    /// Ticks of 1 us.
    pub const MICROS: Frequency = Frequency(1_000_000);

    /// Ticks of 1 ns.
    pub const NANOS: Frequency = Frequency(1_000_000_000);
    /// The clock of G.711 (RFC 3551 section 4.5).
    pub const EIGHT_KHZ: Frequency = Frequency(8_000);
    /// The clock of Opus (RFC 7587 section 4.1).
    pub const FORTY_EIGHT_KHZ: Frequency = Frequency(48_000);
    /// The clock of video (RFC 3551 section 5).
    pub const NINETY_KHZ: Frequency = Frequency(90_000);

    /// The frequency of so many ticks in a second. None exactly at 0.
    pub fn new(ticks: u32) -> Option<Self>
        ensures { result ≡ (if ticks == 0 then None else Some ticks) }
    {
        if ticks == 0 {
            None
        } else {
            Some(Frequency(ticks))
        }
    }

    /// The ticks in a second, at least 1.
    pub fn get(self) -> u32
        ensures value { result ≡ self }
        ensures positive { 0 < self }
    {
        self.0
    }
}

/// A time in ticks of a clock: `numer` ticks of 1 / `frequency` seconds. Two times are equal where
/// both fields are.
#[derive(Clone, Copy, Debug, PartialEq, Eq, Hash)]
pub struct MediaTime {
    /// How many ticks.
    pub numer: u64,
    /// How many ticks are a second.
    pub frequency: Frequency,
}

impl MediaTime {
    /// So many ticks of a clock.
    pub fn new(numer: u64, frequency: Frequency) -> Self
        ensures ticks { result.numer ≡ numer }
        ensures clock { result.frequency ≡ frequency }
    {
        MediaTime { numer, frequency }
    }

    /// The ticks.
    pub fn numer(self) -> u64
        ensures { result ≡ self.numer }
    {
        self.numer
    }

    /// The clock.
    pub fn frequency(self) -> Frequency
        ensures { result ≡ self.frequency }
    {
        self.frequency
    }

    /// The same time in ticks of another clock, rounded down. Ticks past 64 bits are the greatest
    /// number of 64 bits.
    pub fn rebase(self, clock: Frequency) -> Self
        ensures ticks { result.numer ≡ min (self.numer * clock / self.frequency) (2 ^ 64 - 1) }
        ensures clock { result.frequency ≡ clock }
    {
        let ticks = u128::from(self.numer) * u128::from(clock.get());
        let rebased = ticks / u128::from(self.frequency.get());
        let numer = if rebased > u128::from(u64::MAX) {
            u64::MAX
        } else {
            rebased as u64
        };
        MediaTime {
            numer,
            frequency: clock,
        }
    }
}
