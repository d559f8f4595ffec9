//! What feedback says of packets in a row, in runs.
ghost use Rattle.std.specs.Prelude.{◌≡◌, ◌==◌, ◌∷◌, ◌++◌, [], length, IfOk, OnOk, OnErr};
ghost use Rattle.std.specs.Option.{IfSome};
ghost use Rattle.std.specs.Cmp.Lexicographic.{pointwise};
ghost use Rattle.twcc_core.specs.Runs.{rows_of, rows_of_run, left_of};

use crate::PacketStatus;
use std::alloc::{AllocError, Global};
use std::marker::Model;

// One row that tells an arrival, or rows one after another that tell none.
#[derive(Clone, Copy, Debug, PartialEq, Eq)]
enum Run {
    // One packet and so many more did not come.
    Gap(u16),
    // A packet came, so many steps of 250 us after the received one before it.
    Arrival(i16),
}

impl Run {
    // The run of one row.
    fn of(row: PacketStatus) -> Self
        ensures { rows_of_run result ≡ row ∷ [] }
    {
        match row {
            PacketStatus::NotReceived => Run::Gap(0),
            PacketStatus::Received(delta) => Run::Arrival(delta),
        }
    }

    // The run with another row behind it, if one run can hold both.
    fn joined(self, row: PacketStatus) -> Option<Self>
        ensures { IfSome result (λ run. rows_of_run run ≡ rows_of_run self ++ row ∷ []) }
    {
        match (self, row) {
            (Run::Gap(more), PacketStatus::NotReceived) => Some(Run::Gap(more.checked_add(1)?)),
            _ => None,
        }
    }
}

// Adds a row behind the runs: the last run takes it, or it is a run of its own.
fn add_row(runs: &mut Vec<Run>, row: PacketStatus) -> Result<(), AllocError>
    ensures ok { OnOk result (rows_of runs.new.items ≡ rows_of runs.old.items ++ row ∷ []) }
    ensures err { OnErr result (runs.new.items ≡ runs.old.items) }
{
    if let Some(last) = runs.last_mut() {
        if let Some(longer) = last.joined(row) {
            *last = longer;
            return Ok(());
        }
    }
    runs.push(Run::of(row))?;
    Ok(())
}

/// What feedback says of packets in a row, a row for each. Rows that tell no arrival are held in
/// runs of up to 65,536, so it takes 4 bytes for each packet that came and for each gap. Contracts
/// see the list of rows.
#[derive(Debug, Drop)]
pub struct StatusList {
    runs: Vec<Run>,
    // How many rows the runs stand for.
    len: usize,
}

impl Model for StatusList {
    ghost use Rattle.std.specs.Prelude.{◌≡◌, List, length};
    ghost use Rattle.twcc_core.specs.Runs.{rows_of};
    ghost use Rattle.twcc_core.specs.declared.status.PacketStatus.{PacketStatus};

    ghost Value = { List PacketStatus };

    ghost view = { λ l. rows_of l.runs.items };

    ghost invariant = { λ l. l.len ≡ length (rows_of l.runs.items) };
}

impl StatusList {
    /// No rows.
    pub fn new(alloc: Global) -> Self
        ensures { result ≡ [] }
    {
        StatusList {
            runs: Vec::new(alloc),
            len: 0,
        }
    }

    /// No rows, with room for so many arrivals and gaps.
    pub fn with_capacity(alloc: Global, runs: usize) -> Result<Self, AllocError>
        ensures { IfOk result (λ rows. rows ≡ []) }
    {
        Ok(StatusList {
            runs: Vec::with_capacity(alloc, runs)?,
            len: 0,
        })
    }

    /// Adds a row at the end. Without memory, or above `usize::MAX` rows, nothing is added.
    pub fn push(&mut self, row: PacketStatus) -> Result<(), AllocError>
        ensures ok { OnOk result (self.new ≡ self.old ++ row ∷ []) }
        ensures err { OnErr result (self.new ≡ self.old) }
    {
        let Some(len) = self.len.checked_add(1) else {
            return Err(AllocError);
        };
        add_row(&mut self.runs, row)?;
        self.len = len;
        Ok(())
    }

    /// The number of rows.
    pub fn len(&self) -> usize
        ensures { result ≡ length self.now }
    {
        self.len
    }

    /// Whether it has no rows.
    pub fn is_empty(&self) -> bool
        ensures { result ≡ (length self.now == 0) }
    {
        self.len == 0
    }

    /// The rows, one after another.
    pub fn iter(&self) -> StatusIter<'_>
        ensures { left_of result ≡ self.now }
    {
        StatusIter {
            gap: 0,
            runs: self.runs.as_slice(),
        }
    }
}

/// The rows of a `StatusList`, one after another: an iterator, which takes no memory.
#[derive(Clone, Copy, Debug)]
pub struct StatusIter<'a> {
    // How many rows that tell no arrival are left of the run begun.
    gap: u16,
    runs: &'a [Run],
}

impl<'a> StatusIter<'a> {
    /// Whether no rows are left.
    pub fn is_empty(&self) -> bool
        ensures { result ≡ (length (left_of self.now) == 0) }
    {
        self.gap == 0 && self.runs.is_empty()
    }
}

impl<'a> Iterator for StatusIter<'a> {
    ghost use Rattle.std.specs.Iterator.{item_count, YieldsFirst};
    ghost use Rattle.twcc_core.specs.Runs.{left_of};

    type Item = PacketStatus;

    ghost next_gives = { YieldsFirst left_of };

    ghost remaining = { item_count left_of };

    fn next(&mut self) -> Option<PacketStatus> {
        if let Some(gap) = self.gap.checked_sub(1) {
            self.gap = gap;
            return Some(PacketStatus::NotReceived);
        }
        let (first, runs) = self.runs.split_first()?;
        self.runs = runs;
        match *first {
            Run::Gap(more) => {
                self.gap = more;
                Some(PacketStatus::NotReceived)
            }
            Run::Arrival(delta) => Some(PacketStatus::Received(delta)),
        }
    }
}

// Whether the same rows come from both.
fn are_same(mut left: StatusIter<'_>, mut right: StatusIter<'_>) -> bool
    ensures { result ≡ pointwise ⟦<PacketStatus as PartialEq>⟧.eq (left_of left.entry) (left_of right.entry) }
{
    while let Some(row) = left.next() {
        let Some(other) = right.next() else {
            return false;
        };
        if row != other {
            return false;
        }
    }
    right.next().is_none()
}

impl PartialEq for StatusList {
    ghost use Rattle.std.specs.Cmp.Lexicographic.{pointwise, lists_per};
    ghost use Rattle.twcc_core.specs.contracts.status.PacketStatusPartialEq.TheImpl.Laws.{lawful};

    ghost eq = { pointwise ⟦<PacketStatus as PartialEq>⟧.eq };

    ghost laws = { lists_per lawful.laws };

    fn eq(&self, other: &StatusList) -> bool {
        are_same(self.iter(), other.iter())
    }
}

impl Eq for StatusList {
    ghost use Rattle.std.specs.Cmp.Lexicographic.{lists_equiv};
    ghost use Rattle.twcc_core.specs.contracts.status.PacketStatusEq.TheImpl.Laws.{lawful};

    ghost laws = { lists_equiv lawful.laws };
}
