ghost use Rattle.std.specs.Prelude.{◌≡◌, ◌==◌, ◌∷◌, ◌++◌, [], length, OnOk, OnErr, take};
ghost use Rattle.std.specs.Slice.Iter.{iter_rest};
ghost use Rattle.std.specs.Iterator.Adapters.{IterYieldsInOrder};
ghost use Rattle.media_model.specs.declared.entry.Entry.{Entry as Happening};

use crate::entry::Entry;
use std::alloc::{AllocError, Global};
use std::marker::Model;
use std::slice;

/// What happened in a run, in order. Contracts see the list of the entries.
#[derive(Debug, Drop)]
pub struct Transcript {
    all: Vec<Entry>,
}

impl Model for Transcript {
    ghost use Rattle.std.specs.Prelude.{List};
    ghost use Rattle.media_model.specs.declared.entry.Entry.{Entry};

    ghost Value = { List Entry };

    ghost view = { λ t. t.all.items };
}

impl Transcript {
    /// A transcript without entries.
    pub fn new(alloc: Global) -> Self
        ensures { result ≡ [] }
    {
        Transcript {
            all: Vec::new(alloc),
        }
    }

    /// Adds an entry at the end. Without memory nothing is added.
    pub fn push(&mut self, entry: Entry) -> Result<(), AllocError>
        ensures ok { OnOk result (self.new ≡ self.old ++ entry ∷ []) }
        ensures err { OnErr result (self.new ≡ self.old) }
    {
        self.all.push(entry)?;
        Ok(())
    }

    /// Cuts the transcript after so many entries.
    pub fn truncate(&mut self, len: usize)
        ensures { self.new ≡ take len self.old }
    {
        self.all.truncate(len);
    }

    /// The number of entries.
    pub fn len(&self) -> usize
        ensures { result ≡ length self.now }
    {
        self.all.len()
    }

    /// Whether it has no entries.
    pub fn is_empty(&self) -> bool
        ensures { result ≡ (length self.now == 0) }
    {
        self.all.is_empty()
    }

    /// The entries, one after another.
    pub fn iter(&self) -> slice::Iter<'_, Entry>
        ensures rest { iter_rest result ≡ self.now }
        ensures runs { IterYieldsInOrder Happening }
    {
        self.all.iter()
    }

    /// The entries, in order.
    pub fn entries(&self) -> &[Entry]
        ensures { result.now ≡ self.now }
    {
        self.all.as_slice()
    }
}
