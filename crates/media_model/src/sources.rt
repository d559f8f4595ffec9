ghost use Rattle.std.specs.Prelude.{◌≡◌, ◌==◌, ℕ, [], length, IfOk};
ghost use Rattle.std.specs.Slice.Iter.{iter_rest};
ghost use Rattle.std.specs.Iterator.Adapters.{IterYieldsInOrder};

use media_base::Listed;
use std::alloc::{AllocError, Global};
use std::marker::Model;
use std::slice;

/// The contributing sources of a packet (RFC 3550 section 5.1), in 16 bytes and without memory of
/// their own where there are none, as in most packets. Contracts see the list of them.
#[derive(Debug, Drop)]
pub struct Sources {
    kept: Option<Box<Listed<u32>>>,
}

impl Model for Sources {
    ghost use Rattle.std.specs.Prelude.{ℕ, List, [], option_map, unwrap_or};

    ghost Value = { List ℕ };

    ghost view = { λ s. unwrap_or (option_map (λ all. all.value) s.kept) [] };
}

impl PartialEq for Sources {
    ghost use Rattle.std.specs.Prelude.{◌==◌};
    ghost use Rattle.std.proofs.Common.{rules};
    ghost use Rattle.std.specs.Cmp.Lexicographic.{pointwise};
    ghost use Rattle.std.specs.Cmp.Rules.{comparing};

    ghost eq = { pointwise ◌==◌ };

    ghost laws = { Prim.search (comparing, rules) };

    fn eq(&self, other: &Sources) -> bool {
        self.as_slice() == other.as_slice()
    }
}

impl Eq for Sources {
    ghost use Rattle.std.proofs.Common.{rules};
    ghost use Rattle.std.specs.Cmp.Rules.{comparing};

    ghost laws = { Prim.search (comparing, rules) };
}

impl Sources {
    /// No sources. Nothing is allocated.
    pub fn none() -> Sources
        ensures { result ≡ [] }
    {
        Sources { kept: None }
    }

    /// The sources of a vector, which is not copied. For an empty one nothing is allocated.
    pub fn from_vec(alloc: Global, all: Vec<u32>) -> Result<Sources, AllocError>
        ensures { IfOk result (λ s. s ≡ all.items) }
    {
        if all.is_empty() {
            return Ok(Sources::none());
        }
        let kept = Box::new(alloc, Listed::from_vec(all))?;
        Ok(Sources { kept: Some(kept) })
    }

    /// A copy of the sources.
    pub fn clone(&self, alloc: Global) -> Result<Sources, AllocError>
        ensures { IfOk result (λ s. s ≡ self.now) }
    {
        match &self.kept {
            None => Ok(Sources::none()),
            Some(all) => Sources::from_vec(alloc, all.as_slice().to_vec(alloc)?),
        }
    }

    /// The sources, borrowed.
    pub fn as_slice(&self) -> &[u32]
        ensures { result.now ≡ self.now }
    {
        match &self.kept {
            None => &[],
            Some(all) => all.as_slice(),
        }
    }

    /// The number of sources.
    pub fn len(&self) -> usize
        ensures { result ≡ length self.now }
    {
        self.as_slice().len()
    }

    /// Whether there are none.
    pub fn is_empty(&self) -> bool
        ensures { result ≡ (length self.now == 0) }
    {
        self.as_slice().is_empty()
    }

    /// The sources, one after another.
    pub fn iter(&self) -> slice::Iter<'_, u32>
        ensures rest { iter_rest result ≡ self.now }
        ensures runs { IterYieldsInOrder ℕ }
    {
        self.as_slice().iter()
    }
}
