ghost use Rattle.std.specs.Prelude.{◌≡◌, ◌<◌};
ghost use Rattle.std.specs.Option.{ForSome};
ghost use Rattle.rtp_base.specs.Widen.{rollover, widen16 as widened16, widen32 as widened32, WidensToItself};

use crate::number::NUMBER_LIMIT;

// The rollover count of a number with low part `low`, after one with rollover count `roc` and low
// part `last`.
fn rollover_after(half: u64, roc: u64, last: u64, low: u64) -> u64
    ensures { result ≡ rollover half roc last low }
{
    if last < half {
        if low.saturating_sub(last) > half {
            roc.saturating_sub(1)
        } else {
            roc
        }
    } else if low < last - half && roc < 0xffff_ffff {
        roc + 1
    } else {
        roc
    }
}

/// The sequence number of which a header has the low 16 bits, after the last one. A rollover count
/// of 0 is not lowered, and one of 2^32 - 1 is not raised (RFC 3711 section 3.3.1 and appendix A).
pub fn widen16(last: Option<u64>, low: u16) -> u64
    ensures value { result ≡ widened16 last low }
    ensures bound { ForSome last (λ p. p < NUMBER_LIMIT) → result < NUMBER_LIMIT }
{
    let low = u64::from(low);
    let Some(last) = last else {
        return low;
    };
    rollover_after(32768, last / 65536, last % 65536, low) * 65536 + low
}

/// The number of which `low` is the low 32 bits, after the last one. The high part 0 is not
/// lowered, and 2^32 - 1 is not raised.
pub fn widen32(last: Option<u64>, low: u32) -> u64
    ensures { result ≡ widened32 last low }
{
    let low = u64::from(low);
    let Some(last) = last else {
        return low;
    };
    rollover_after(0x8000_0000, last >> 32, last & 0xffff_ffff, low) * 0x1_0000_0000 + low
}

/// Which numbers widen to themselves.
pub fn widens_to_itself()
    ensures { WidensToItself }
{}
