ghost use Rattle.std.specs.Prelude.{◌≡◌, ◌+◌, ◌/◌, ◌<◌, ◌^◌, ◌==◌, Some};
ghost use Rattle.std.specs.Fmt.{decimal};

use std::fmt;
use std::marker::Model;

/// A synchronization source (RFC 3550 section 3). Contracts see the number.
#[derive(Clone, Copy, Debug, Default, PartialEq, Eq, PartialOrd, Ord, Hash)]
pub struct Ssrc(u32);

impl Model for Ssrc {
    ghost use Rattle.std.specs.Prelude.{ℕ};

    ghost Value = { ℕ };

    ghost view = { λ s. s.0 };

    ghost inverse = { λ n. record { 0 = n } };
}

impl From<u32> for Ssrc {
    ghost from_gives = { λ n s. s ≡ n };

    fn from(number: u32) -> Self {
        Ssrc(number)
    }
}

impl From<Ssrc> for u32 {
    ghost from_gives = { λ s n. n ≡ s };

    fn from(ssrc: Ssrc) -> Self {
        ssrc.0
    }
}

impl fmt::Display for Ssrc {
    ghost output = { λ s. Some (decimal s) };

    fn fmt<W: fmt::Write>(&self, f: &mut fmt::Formatter<W>) -> fmt::Result {
        let number = self.0;
        write!(f, "{number}")
    }
}

impl Ssrc {
    /// Whether it is 0, under which probes are sent.
    pub fn is_probe(self) -> bool
        ensures { result ≡ (self == 0) }
    {
        self.0 == 0
    }
}

/// A payload type (RFC 3550 section 5.1). Contracts see the number.
#[derive(Clone, Copy, Debug, PartialEq, Eq, PartialOrd, Ord, Hash)]
pub struct Pt(u8);

impl Model for Pt {
    ghost use Rattle.std.specs.Prelude.{ℕ};

    ghost Value = { ℕ };

    ghost view = { λ p. p.0 };

    ghost inverse = { λ n. record { 0 = n } };
}

impl From<u8> for Pt {
    ghost from_gives = { λ n p. p ≡ n };

    fn from(number: u8) -> Self {
        Pt(number)
    }
}

impl From<Pt> for u8 {
    ghost from_gives = { λ p n. n ≡ p };

    fn from(pt: Pt) -> Self {
        pt.0
    }
}

impl fmt::Display for Pt {
    ghost output = { λ p. Some (decimal p) };

    fn fmt<W: fmt::Write>(&self, f: &mut fmt::Formatter<W>) -> fmt::Result {
        let number = self.0;
        write!(f, "{number}")
    }
}

/// The number behind the last one of a packet: a rollover count of 32 bits and a sequence number of
/// 16 (RFC 3711 section 3.3.1).
pub const NUMBER_LIMIT: u64 = 1 << 48;

/// How many packets back a redundant frame may be to be taken: how far below its datagram its
/// number is at most. A choice.
pub const MAX_RED_RECOVERY_DEPTH: u64 = 8;

/// An extended sequence number, 65,536 times the rollover count plus the 16 bits of the header
/// (RFC 3711 section 3.3.1). Contracts see the number.
#[derive(Clone, Copy, Debug, Default, PartialEq, Eq, PartialOrd, Ord, Hash)]
pub struct SeqNo(u64);

impl Model for SeqNo {
    ghost use Rattle.std.specs.Prelude.{ℕ};

    ghost Value = { ℕ };

    ghost view = { λ n. n.0 };

    ghost inverse = { λ n. record { 0 = n } };
}

impl From<u64> for SeqNo {
    ghost from_gives = { λ n s. s ≡ n };

    fn from(number: u64) -> Self {
        SeqNo(number)
    }
}

impl From<SeqNo> for u64 {
    ghost from_gives = { λ s n. n ≡ s };

    fn from(number: SeqNo) -> Self {
        number.0
    }
}

impl fmt::Display for SeqNo {
    ghost output = { λ n. Some (decimal n) };

    fn fmt<W: fmt::Write>(&self, f: &mut fmt::Formatter<W>) -> fmt::Result {
        let number = self.0;
        write!(f, "{number}")
    }
}

impl SeqNo {
    /// Gives the number, and moves on to the next.
    pub fn inc(&mut self) -> SeqNo
        requires { self.old + 1 < 2 ^ 64 }
        ensures number { result ≡ self.old }
        ensures next { self.new ≡ self.old + 1 }
    {
        let number = *self;
        self.0 += 1;
        number
    }

    /// The rollover count.
    pub fn roc(self) -> u64
        ensures { result ≡ self / 65536 }
    {
        self.0 / 65536
    }
}
