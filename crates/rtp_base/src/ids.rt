ghost use Rattle.std.specs.Prelude.{◌≡◌, ◌↔◌, ◌⊎◌, IsTrue, Some, None};
ghost use Rattle.rtp_base.specs.Ids.{halved, Matches, sends, receives, turned_round};

use crate::name::{Mid, Rid};
use crate::number::SeqNo;
use std::marker::Model;

/// One more than the greatest identification of a session: a choice.
pub const SESSION_ID_LIMIT: u64 = 1 << 62;

/// The identification of a session in an offer, at most 2^62 - 1. Contracts see the number.
#[derive(Clone, Copy, Debug, PartialEq, Eq, PartialOrd, Ord, Hash)]
pub struct SessionId(u64);

impl Model for SessionId {
    ghost use Rattle.std.specs.Prelude.{ℕ, ◌<◌};
    ghost use Rattle.rtp_base.specs.declared.ids.TheConstants.{SESSION_ID_LIMIT};

    ghost Value = { ℕ };

    ghost view = { λ s. s.0 };

    ghost invariant = { λ s. s.0 < SESSION_ID_LIMIT };

    ghost inverse = { λ n. record { 0 = n } };
}

impl SessionId {
    /// The number, halved while it is above 2^62 - 1.
    pub fn new(number: u64) -> Self
        ensures { result ≡ halved number }
    {
        if number < SESSION_ID_LIMIT {
            SessionId(number)
        } else if number < 1 << 63 {
            SessionId(number / 2)
        } else {
            SessionId(number / 4)
        }
    }

    /// The number, at most 2^62 - 1.
    pub fn get(self) -> u64
        ensures { result ≡ self }
    {
        self.0
    }
}

/// A cluster of probes. Contracts see the number.
#[derive(Clone, Copy, Debug, PartialEq, Eq, PartialOrd, Ord, Hash)]
pub struct TwccClusterId(u64);

impl Model for TwccClusterId {
    ghost use Rattle.std.specs.Prelude.{ℕ};

    ghost Value = { ℕ };

    ghost view = { λ c. c.0 };

    ghost inverse = { λ n. record { 0 = n } };
}

impl From<u64> for TwccClusterId {
    ghost from_gives = { λ n c. c ≡ n };

    fn from(number: u64) -> Self {
        TwccClusterId(number)
    }
}

impl From<TwccClusterId> for u64 {
    ghost from_gives = { λ c n. n ≡ c };

    fn from(cluster: TwccClusterId) -> Self {
        cluster.0
    }
}

/// The number of a packet on its transport, and the cluster of probes that it belongs to, if it is
/// a probe.
#[derive(Clone, Copy, Debug, PartialEq, Eq, PartialOrd, Ord, Hash)]
pub struct TwccPacketId {
    /// Its number, which counts all packets of the transport.
    pub seq: SeqNo,
    /// The cluster that it belongs to, None where it is no probe.
    pub cluster: Option<TwccClusterId>,
}

impl TwccPacketId {
    /// The packet with this number, which is no probe.
    pub fn new(seq: SeqNo) -> Self
        ensures number { result.seq ≡ seq }
        ensures no_probe { result.cluster ≡ None }
    {
        TwccPacketId { seq, cluster: None }
    }

    /// The probe with this number, of a cluster.
    pub fn with_cluster(seq: SeqNo, cluster: TwccClusterId) -> Self
        ensures number { result.seq ≡ seq }
        ensures probe { result.cluster ≡ Some cluster }
    {
        TwccPacketId {
            seq,
            cluster: Some(cluster),
        }
    }
}

/// A media section, and one of its streams or all of them.
#[derive(Clone, Copy, Debug, PartialEq, Eq)]
pub struct MidRid(pub Mid, pub Option<Rid>);

impl MidRid {
    /// Whether a stream is asked for by `self`: it has the same mid, and the same rid where one is
    /// asked for.
    pub fn special_equals(&self, held: &MidRid) -> bool
        ensures { IsTrue result ↔ Matches self.now held.now }
    {
        self.0 == held.0 && (self.1.is_none() || self.1 == held.1)
    }
}

/// In which direction media goes (RFC 8866 section 6.7).
#[derive(Clone, Copy, Debug, PartialEq, Eq, PartialOrd, Ord, Hash)]
pub enum Direction {
    /// Media is sent, and none received.
    SendOnly,
    /// Media is received, and none sent.
    RecvOnly,
    /// Media is sent and received.
    SendRecv,
    /// Media is neither sent nor received.
    Inactive,
}

impl Direction {
    /// Whether media is sent (RFC 8866 section 6.7).
    pub fn is_sending(self) -> bool
        ensures { result ≡ sends self }
    {
        matches!(self, Direction::SendOnly | Direction::SendRecv)
    }

    /// Whether media is received (RFC 8866 section 6.7).
    pub fn is_receiving(self) -> bool
        ensures { result ≡ receives self }
    {
        matches!(self, Direction::RecvOnly | Direction::SendRecv)
    }

    /// The direction as the other side sees it.
    pub fn invert(self) -> Self
        ensures { result ≡ turned_round self }
    {
        match self {
            Direction::SendOnly => Direction::RecvOnly,
            Direction::RecvOnly => Direction::SendOnly,
            Direction::SendRecv => Direction::SendRecv,
            Direction::Inactive => Direction::Inactive,
        }
    }
}
