//! The mark below which a store takes no position.
ghost use Rattle.std.specs.Prelude.{◌≡◌, Some, unwrap_or};
ghost use Rattle.resend_core.specs.ResendStore.{raised_to};

/// Sets the mark at the first position that is pushed.
#[inline(always)]
pub fn begin(mark: &mut Option<u64>, position: u64)
    ensures { mark.new ≡ Some (unwrap_or mark.old position) }
{
    match mark {
        Some(_) => {}
        None => *mark = Some(position),
    }
}

/// The mark after the value of a position was dropped.
#[inline(always)]
pub fn raised(mark: Option<u64>, dropped: u64) -> Option<u64>
    ensures { result ≡ raised_to mark dropped }
{
    let next = dropped.saturating_add(1);
    match mark {
        Some(mark) => Some(mark.max(next)),
        None => Some(next),
    }
}
