ghost use Rattle.std.specs.Prelude.{◌≡◌, ◌==◌, ◌+◌, ◌≤◌, IfOk, length, take, drop};
ghost use Rattle.std.specs.Rc.{rc_slice_items};

use std::alloc::{AllocError, Global};
use std::marker::Model;
use std::rc::RcSlice;

/// The bytes behind the header of a packet, which several packets may share: a run of bytes that
/// are held once. Contracts see the list of the run.
#[derive(Debug, Drop)]
pub struct Payload {
    all: RcSlice<u8>,
    start: usize,
    count: usize,
}

impl Model for Payload {
    ghost use Rattle.std.specs.Prelude.{ℕ, List, ◌+◌, ◌≤◌, length, take, drop};
    ghost use Rattle.std.specs.Rc.{rc_slice_items};

    ghost Value = { List ℕ };

    ghost view = { λ p. take p.count (drop p.start (rc_slice_items p.all)) };

    ghost invariant = { λ p. p.start + p.count ≤ length (rc_slice_items p.all) };
}

impl PartialEq for Payload {
    ghost use Rattle.std.specs.Prelude.{◌==◌};
    ghost use Rattle.std.proofs.Common.{rules};
    ghost use Rattle.std.specs.Cmp.Lexicographic.{pointwise};
    ghost use Rattle.std.specs.Cmp.Rules.{comparing};

    ghost eq = { pointwise ◌==◌ };

    ghost laws = { Prim.search (comparing, rules) };

    fn eq(&self, other: &Payload) -> bool {
        self.as_slice() == other.as_slice()
    }
}

impl Eq for Payload {
    ghost use Rattle.std.proofs.Common.{rules};
    ghost use Rattle.std.specs.Cmp.Rules.{comparing};

    ghost laws = { Prim.search (comparing, rules) };
}

impl From<RcSlice<u8>> for Payload {
    ghost use Rattle.std.specs.Prelude.{◌≡◌};
    ghost use Rattle.std.specs.Rc.{rc_slice_items};

    ghost from_gives = { λ all p. p ≡ rc_slice_items all };

    fn from(all: RcSlice<u8>) -> Self {
        let count = all.len();
        Payload {
            all,
            start: 0,
            count,
        }
    }
}

impl Payload {
    /// The bytes of a vector, which is not copied.
    pub fn from_vec(bytes: Vec<u8>) -> Result<Self, AllocError>
        ensures { IfOk result (λ p. p ≡ bytes.items) }
    {
        Ok(Payload::from(RcSlice::from_vec(bytes)?))
    }

    /// A copy of the bytes.
    pub fn from_slice(alloc: Global, bytes: &[u8]) -> Result<Self, AllocError>
        ensures { IfOk result (λ p. p ≡ bytes.now) }
    {
        Ok(Payload::from(RcSlice::from_slice(alloc, bytes)?))
    }

    /// The same bytes once more, which are not copied.
    pub fn shared(&self) -> Result<Self, AllocError>
        ensures { IfOk result (λ p. p ≡ self.now) }
    {
        Ok(Payload {
            all: self.all.clone()?,
            start: self.start,
            count: self.count,
        })
    }

    /// So many of the bytes from an index on, which are not copied.
    #[tactic(auto, using(crate::proofs::Parts::part_is))]
    pub fn part(&self, start: usize, count: usize) -> Result<Self, AllocError>
        requires { start + count ≤ length self.now }
        ensures { IfOk result (λ p. p ≡ take count (drop start self.now)) }
    {
        Ok(Payload {
            all: self.all.clone()?,
            start: self.start + start,
            count,
        })
    }

    /// The bytes, borrowed.
    pub fn as_slice(&self) -> &[u8]
        ensures { result.now ≡ self.now }
    {
        &self.all.as_slice()[self.start..self.start + self.count]
    }

    /// How many bytes they are.
    pub fn len(&self) -> usize
        ensures { result ≡ length self.now }
    {
        self.count
    }

    /// Whether there are none.
    pub fn is_empty(&self) -> bool
        ensures { result ≡ (length self.now == 0) }
    {
        self.count == 0
    }
}
