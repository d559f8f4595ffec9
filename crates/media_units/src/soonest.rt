ghost use Rattle.std.specs.Prelude.{◌≡◌};
ghost use Rattle.media_units.specs.Soonest.{IsSoonest, earlier};

use crate::Instant;

/// What may be due at a moment, and so earlier or later than another.
pub trait Soonest: Sized {
    /// What may be answered for a pair and another.
    ghost soonest_gives: { Self → Self → Self → Type 0 };

    /// The earlier of two, where a moment that is not there never comes.
    fn soonest(self, other: Self) -> Self
        ensures { soonest_gives self other result };
}

/// A moment that may be there, and what comes with it. On a tie it is the second pair. With no
/// moment it is None and a default.
impl<T: Default + Drop> Soonest for (Option<Instant>, T) {
    ghost soonest_gives = { IsSoonest T.is_default };

    fn soonest(self, other: Self) -> Self {
        match (self.0, other.0) {
            (Some(one), Some(another)) => { if one < another { self } else { other } }
            (Some(_), None) => self,
            (None, Some(_)) => other,
            (None, None) => (None, T::default()),
        }
    }
}

/// The earlier of two moments that may be there.
pub fn earlier(one: Option<Instant>, other: Option<Instant>) -> Option<Instant>
    ensures { result ≡ earlier one other }
{
    match (one, other) {
        (Some(one), Some(other)) => Some(one.min(other)),
        (Some(one), None) => Some(one),
        (None, other) => other,
    }
}
