ghost use Rattle.std.specs.Prelude.{◌≡◌, ◌∷◌, ◌<◌, ◌^◌};
ghost use Rattle.rtp_base.specs.NackEntry.{named_below};

use crate::number::NUMBER_LIMIT;
use crate::{SeqNo, widen16};
use arrayvec::{ArrayVec, IntoIter};

/// The most packets that an entry of a NACK names: that of `pid`, and one for each bit of `blp` (RFC
/// 4585 section 6.2.1).
pub const MAX_NACK_ENTRY_NUMBERS: usize = 17;

/// An entry of a NACK (RFC 4585 section 6.2.1): a packet that is missing, and which of the next 16
/// are missing too.
#[derive(Clone, Copy, Debug, Default, PartialEq, Eq)]
pub struct NackEntry {
    /// The low 16 bits of the number of the first missing packet.
    pub pid: u16,
    /// Bit i, from the lowest on, says that the packet `pid` + i + 1 is missing too.
    pub blp: u16,
}

impl NackEntry {
    ghost use Rattle.rtp_base.specs.NackEntry.{named_by};
    ghost use Rattle.std.specs.Option.{ForSome};

    /// The numbers that are missing, the lowest first: `pid` widened by the last number, and that
    /// number + i + 1 for each bit i. The last number is below 2^48.
    pub fn into_iter(self, last: Option<SeqNo>) -> IntoIter<SeqNo, MAX_NACK_ENTRY_NUMBERS>
        requires { ForSome last (λ p. p < NUMBER_LIMIT) }
        ensures { result ≡ named_by last self }
    {
        let last = match last {
            Some(number) => Some(number.into()),
            None => None,
        };
        numbers_from(widen16(last, self.pid), self.blp)
    }
}

#[tactic(auto, unfolding(crate::specs::NackEntry::named_below))]
fn numbers_from(first: u64, bits: u16) -> IntoIter<SeqNo, MAX_NACK_ENTRY_NUMBERS>
    requires { first < NUMBER_LIMIT }
    ensures { result ≡ first ∷ named_below first bits 16 }
{
    let mut numbers = ArrayVec::new();
    numbers.push(SeqNo::from(first));
    for i in 0..16u32 {
        if (bits >> i) % 2 == 1 {
            numbers.push(SeqNo::from(first + u64::from(i) + 1));
        }
    }
    numbers.into_iter()
}
