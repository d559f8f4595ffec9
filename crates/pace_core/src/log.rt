//! The log of a run.
ghost use Rattle.std.specs.Prelude.{◌≡◌, ◌==◌, ◌∷◌, ◌++◌, [], length, OnOk, OnErr};
ghost use Rattle.std.specs.Slice.Iter.{iter_rest};
ghost use Rattle.std.specs.Iterator.Adapters.{IterYieldsInOrder};
ghost use Rattle.pace_core.specs.declared.log.PaceEntry.{PaceEntry as Answer};

use media_units::{Bitrate, DataSize, Debt, Instant};
use rtp_base::Mid;
use std::alloc::{AllocError, Global};
use std::marker::Model;
use std::slice;

/// What a call answered.
#[derive(Clone, Copy, Debug, PartialEq, Eq)]
pub enum PaceEntry {
    /// A rate was set.
    Set,
    /// A timeout, with the padding that it asks for: the media, and the bytes.
    Timed(Option<(Mid, DataSize)>),
    /// A poll gave the queue of this media.
    Chose(Mid),
    /// A poll gave none. The next timeout is wanted at this moment, if ever.
    Idle(Option<Instant>),
    /// A packet was sent.
    Sent {
        /// Its bits.
        bits: u64,
        /// What is owed after it.
        debt: Debt,
        /// The rate of the timeout before it.
        rate: Bitrate,
    },
}

/// What the calls of a run answered, in order. Contracts see the list of the entries.
#[derive(Debug, Drop)]
pub struct PaceLog {
    all: Vec<PaceEntry>,
}

impl Model for PaceLog {
    ghost use Rattle.std.specs.Prelude.{List};
    ghost use Rattle.pace_core.specs.declared.log.PaceEntry.{PaceEntry};

    ghost Value = { List PaceEntry };

    ghost view = { λ l. l.all.items };
}

impl PaceLog {
    /// A log without entries.
    pub fn new(alloc: Global) -> Self
        ensures { result ≡ [] }
    {
        PaceLog {
            all: Vec::new(alloc),
        }
    }

    /// Adds an entry at the end. Without memory nothing is added.
    pub fn push(&mut self, entry: PaceEntry) -> Result<(), AllocError>
        ensures ok { OnOk result (self.new ≡ self.old ++ entry ∷ []) }
        ensures err { OnErr result (self.new ≡ self.old) }
    {
        // The check has to meet the types that an entry may hold.
        let _none: (Option<(Mid, DataSize)>, Option<Instant>) = (None, None);
        self.all.push(entry)?;
        Ok(())
    }

    /// The number of entries.
    pub fn len(&self) -> usize
        ensures { result ≡ length self.now }
    {
        self.all.len()
    }

    /// Whether it has no entries.
    pub fn is_empty(&self) -> bool
        ensures { result ≡ (length self.now == 0) }
    {
        self.all.is_empty()
    }

    /// The entries, one after another.
    pub fn iter(&self) -> slice::Iter<'_, PaceEntry>
        ensures rest { iter_rest result ≡ self.now }
        ensures runs { IterYieldsInOrder Answer }
    {
        self.all.iter()
    }

    /// The entries, in order.
    pub fn as_slice(&self) -> &[PaceEntry]
        ensures { result.now ≡ self.now }
    {
        self.all.as_slice()
    }
}
