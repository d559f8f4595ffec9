ghost use Rattle.std.specs.Prelude.{◌≡◌, ◌≤◌, nat_le, if◌then◌else◌, Some, None};

use srtp_core::SRTCP_INDEX_LIMIT;
use std::marker::Model;

/// The index that a side's next SRTCP datagram has (RFC 3711 section 3.4), at most 2^31, behind the
/// last one. Contracts see the number.
#[derive(Clone, Copy, Debug, PartialEq, Eq, PartialOrd, Ord, Hash)]
pub struct SrtcpIndex(u64);

impl Model for SrtcpIndex {
    ghost use Rattle.std.specs.Prelude.{ℕ, ◌≤◌};
    ghost use Rattle.srtp_core.specs.declared.context.TheConstants.{SRTCP_INDEX_LIMIT};

    ghost Value = { ℕ };

    ghost view = { λ i. i.0 };

    ghost invariant = { λ i. i.0 ≤ SRTCP_INDEX_LIMIT };

    ghost inverse = { λ n. record { 0 = n } };
}

impl SrtcpIndex {
    /// That of the first datagram under a key.
    pub const FIRST: SrtcpIndex = SrtcpIndex(0);

    /// An index. None exactly above 2^31.
    pub fn new(index: u64) -> Option<Self>
        ensures { result ≡ (if nat_le index SRTCP_INDEX_LIMIT then Some index else None) }
    {
        if index <= SRTCP_INDEX_LIMIT {
            Some(SrtcpIndex(index))
        } else {
            None
        }
    }

    /// The number, at most 2^31.
    pub fn get(self) -> u64
        ensures value { result ≡ self }
        ensures bounded { self ≤ SRTCP_INDEX_LIMIT }
    {
        self.0
    }
}
