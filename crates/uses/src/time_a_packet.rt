//! When a packet has left at a rate.
ghost use Rattle.std.specs.Prelude.{◌≡◌, ◌<◌, ◌+◌, ◌*◌, ◌^◌, ◌-◌, min, None, SomeIff};
ghost use Rattle.std.specs.Int.{div_ceil};

use media_units::{Bitrate, DataSize, Instant};

/// When so many bytes have left at a rate, where they begin to leave now. None where nothing leaves
/// at it, and where that is past the last moment.
pub fn leaves_at(now: Instant, size: DataSize, rate: Bitrate) -> Option<Instant>
    ensures still { rate ≡ 0 → result ≡ None }
    ensures moment { (rate ≡ 0 → ⊥)
        → let t = now + min (div_ceil (size * 8000000000) rate) (2 ^ 64 - 1) in
        SomeIff result (t < 2 ^ 64) t }
{
    if rate.is_zero() {
        return None;
    }
    let owed = size.to_debt();
    now.checked_add(owed.drain_time(rate))
}
