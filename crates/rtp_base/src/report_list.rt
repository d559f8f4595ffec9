ghost use Rattle.std.specs.Prelude.{◌≡◌, ◌==◌, ◌<◌, ◌≤◌, ◌∷◌, ◌++◌, [], length};
ghost use Rattle.std.specs.Slice.Iter.{iter_rest};
ghost use Rattle.std.specs.Iterator.Adapters.{IterYieldsInOrder};

use arrayvec::ArrayVec;
use std::marker::Model;
use std::slice;

/// The most values of a list: the count in the header of RTCP has 5 bits (RFC 3550 section 6.4.1).
pub const MAX_REPORTS: usize = 31;

/// At most 31 values in a row, as many as the 5-bit count of an RTCP header can say (RFC 3550
/// section 6.4.1). It takes no memory of its own. Contracts see the list of them.
#[derive(Debug, Drop)]
pub struct ReportList<T> {
    all: ArrayVec<T, MAX_REPORTS>,
}

impl<T> Model for ReportList<T> {
    ghost use Rattle.std.specs.Prelude.{List};

    ghost Value = { List T };

    ghost view = { λ l. l.all.items };
}

impl<T: PartialEq> PartialEq for ReportList<T> {
    ghost use Rattle.std.proofs.Common.{rules};
    ghost use Rattle.std.specs.Cmp.Lexicographic.{pointwise};
    ghost use Rattle.std.specs.Cmp.Rules.{comparing};

    ghost eq = { pointwise T.eq };

    ghost laws = { Prim.search (comparing, rules) };

    fn eq(&self, other: &ReportList<T>) -> bool {
        self.all.as_slice() == other.all.as_slice()
    }
}

impl<T: Eq> Eq for ReportList<T> {
    ghost use Rattle.std.proofs.Common.{rules};
    ghost use Rattle.std.specs.Cmp.Rules.{comparing};

    ghost laws = { Prim.search (comparing, rules) };
}

impl<T: Default> ReportList<T> {
    /// An empty list.
    pub fn new() -> Self
        ensures { result ≡ [] }
    {
        ReportList {
            all: ArrayVec::new(),
        }
    }
}

impl<T> ReportList<T> {
    /// The number of values, at most 31.
    pub fn len(&self) -> usize
        ensures value { result ≡ length self.now }
        ensures fits { result ≤ MAX_REPORTS }
    {
        self.all.len()
    }

    /// Whether it has no values.
    pub fn is_empty(&self) -> bool
        ensures { result ≡ (length self.now == 0) }
    {
        self.all.is_empty()
    }

    /// Whether it has 31 values, and so no room for another.
    pub fn is_full(&self) -> bool
        ensures value { result ≡ (length self.now == MAX_REPORTS) }
        ensures fits { length self.now ≤ MAX_REPORTS }
    {
        self.all.is_full()
    }

    /// The values, one after another.
    pub fn iter(&self) -> slice::Iter<'_, T>
        ensures rest { iter_rest result ≡ self.now }
        ensures runs { IterYieldsInOrder T }
    {
        self.all.as_slice().iter()
    }

    /// The values in order, at most 31.
    pub fn as_slice(&self) -> &[T]
        ensures value { result.now ≡ self.now }
        ensures fits { length result.now ≤ MAX_REPORTS }
    {
        self.all.as_slice()
    }
}

impl<T: Default + Drop> ReportList<T> {
    /// Adds a value at the end.
    pub fn push(&mut self, value: T)
        requires { length self.old < MAX_REPORTS }
        ensures { self.new ≡ self.old ++ value ∷ [] }
    {
        self.all.push(value);
    }

    /// Drops all values.
    pub fn clear(&mut self)
        ensures { self.new ≡ [] }
    {
        self.all.clear();
    }
}
