ghost use Rattle.std.specs.Prelude.{◌≡◌, ℕ, ◌+◌, ◌-◌, ◌*◌, ◌^◌, ◌<◌, ◌≤◌, [], drop, length, slice_set, IfOk, IfSome, IfErr, IsNone, OnOk, OnErr};
ghost use Rattle.std.specs.List.{insert};
ghost use Rattle.queue_store.specs.Queue.{index_of};
ghost use Rattle.queue_store.specs.Stamps.{stamp_at, first_of, IsFound, IsPlace, AllAbove, IsGreatest};

use crate::steps::Steps;
use media_units::Instant;
use std::alloc::{AllocError, Global};
use std::cmp::Ordering;
use std::collections::VecDeque;
use std::marker::{Brand, Model};
use std::sync::ledger::{Blank, Ledger};

/// A position, and when its value was stored.
#[derive(Clone, Copy, Debug)]
pub struct Stamp {
    pub position: u64,
    pub moment: Instant,
}

/// Rising positions, each with a moment. The lowest and the greatest stand beside them. Contracts
/// see the list.
#[derive(Debug, Drop)]
pub struct Stamps {
    all: VecDeque<Stamp>,
    low: u64,
    high: u64,
}

impl Model for Stamps {
    ghost use Rattle.std.specs.Prelude.{List};
    ghost use Rattle.queue_store.specs.declared.stamps.Stamp.{Stamp};
    ghost use Rattle.queue_store.specs.Stamps.{Rises, AreEnds};

    ghost Value = { List Stamp };

    ghost view = { λ s. s.all.items };

    ghost invariant = { λ s. Rises 0 s.all.items × AreEnds s.all.items s.low s.high };
}

impl Stamps {
    pub fn new(alloc: Global) -> Self
        ensures { result ≡ [] }
    {
        Stamps {
            all: VecDeque::new(alloc),
            low: 0,
            high: 0,
        }
    }

    /// The index of a position, else the index where it would stand, found by halving. Each
    /// comparison is a step; where it does not stand here, there are no fewer than halving needs.
    pub fn search_counted<L: Ledger>(
        &self,
        position: u64,
        steps: &mut Steps<L>,
    ) -> Result<usize, usize>
        ensures found { IfOk result (IsFound self.now position) }
        ensures missed { IfErr result (IsPlace self.now position) }
        ensures cost { 2 ^ (steps.new - steps.old) ≤ 2 * length self.now + 1 }
        ensures counted { IfErr result (λ _. length self.now + 2 ≤ 2 ^ (steps.new - steps.old + 1)) }
    {
        let mut low = 0;
        let mut high = self.all.len();
        while low < high {
            let middle = low + (high - low) / 2;
            steps.tick();
            match self.all[middle].position.cmp(&position) {
                Ordering::Less => low = middle + 1,
                Ordering::Equal => return Ok(middle),
                Ordering::Greater => high = middle,
            }
        }
        Err(low)
    }

    #[inline(never)]
    fn search_on<L: Ledger>(&self, position: u64, blank: Blank) -> Result<usize, usize>
        requires name { blank.name ≡ L.name }
        requires parts { blank.parts ≡ L.parts }
        requires some { 0 < L.parts }
        ensures found { IfOk result (IsFound self.now position) }
        ensures missed { IfErr result (IsPlace self.now position) }
    {
        let mut steps: Steps<L> = Steps::new(blank);
        self.search_counted(position, &mut steps)
    }

    // The index of a position that stands so far before the greatest, where none between them is
    // left out.
    #[inline(always)]
    fn index_from_end(&self, position: u64, distance: u64) -> Option<usize>
        ensures { IfSome result (IsFound self.now position) }
    {
        let count = self.all.len();
        if count as u64 <= distance {
            return None;
        }
        let index = count - 1 - distance as usize;
        if self.all[index].position == position {
            Some(index)
        } else {
            None
        }
    }

    /// The index of a position, where none is left out between the lowest and the greatest.
    #[inline(always)]
    fn index_in_row(&self, position: u64) -> Option<usize>
        ensures { IfSome result (IsFound self.now position) }
    {
        let count = self.all.len();
        if count == 0 || position < self.low || self.high < position {
            return None;
        }
        if self.high - self.low != count as u64 - 1 {
            return None;
        }
        Some((position - self.low) as usize)
    }

    /// The index of a position, else the index where it would stand: at once where all between it
    /// and the greatest stand here, else by halving.
    #[inline(never)]
    fn search_far(&self, position: u64) -> Result<usize, usize>
        ensures found { IfOk result (IsFound self.now position) }
        ensures missed { IfErr result (IsPlace self.now position) }
    {
        match self.index_from_end(position, self.high.saturating_sub(position)) {
            Some(index) => Ok(index),
            None => self.search_on::<Brand>(position, Blank::new(1)),
        }
    }

    /// The index of a position, else the index where it would stand: at once where it is above all,
    /// or where all between it and the greatest stand here, else by halving.
    #[inline(always)]
    pub fn search(&self, position: u64) -> Result<usize, usize>
        ensures found { IfOk result (IsFound self.now position) }
        ensures missed { IfErr result (IsPlace self.now position) }
    {
        let count = self.all.len();
        if count == 0 || self.high < position {
            return Err(count);
        }
        match self.index_in_row(position) {
            Some(index) => Ok(index),
            None => self.search_far(position),
        }
    }

    /// The index of a position, where it stands here.
    #[tactic(auto, using(crate::proofs::RowLaws::found_index, crate::proofs::RowLaws::missed_index))]
    #[inline(always)]
    pub fn index(&self, position: u64) -> Option<usize>
        ensures { result ≡ index_of self.now position }
    {
        self.search(position).ok()
    }

    /// The index of a position, where it stands here, found by halving. Each comparison is a step.
    pub fn index_counted<L: Ledger>(&self, position: u64, steps: &mut Steps<L>) -> Option<usize>
        ensures value { result ≡ index_of self.now position }
        ensures cost { 2 ^ (steps.new - steps.old) ≤ 2 * length self.now + 1 }
        ensures counted { IsNone result → length self.now + 2 ≤ 2 ^ (steps.new - steps.old + 1) }
    {
        self.search_counted(position, steps).ok()
    }

    /// Makes room for so many more stamps. Without memory nothing changes.
    pub fn reserve(&mut self, more: usize) -> Result<(), AllocError>
        ensures { self.new ≡ self.old }
    {
        self.all.reserve_exact(more)
    }

    /// Puts a stamp at its place. Without memory nothing changes.
    #[inline(never)]
    fn insert_inside(&mut self, index: usize, stamp: Stamp) -> Result<(), AllocError>
        requires place { IsPlace self.old stamp.position index }
        requires inside { index < length self.old }
        ensures ok { OnOk result (self.new ≡ insert self.old index stamp) }
        ensures err { OnErr result (self.new ≡ self.old) }
    {
        let position = stamp.position;
        self.all.insert(index, stamp)?;
        if index == 0 {
            self.low = position;
        }
        Ok(())
    }

    /// Puts a stamp at its place, at the end without moving another. Without memory nothing
    /// changes.
    #[inline(always)]
    #[tactic(auto, using(std::proofs::lemmas::List::Edits::insert_end))]
    pub fn insert(&mut self, index: usize, stamp: Stamp) -> Result<(), AllocError>
        requires { IsPlace self.old stamp.position index }
        ensures ok { OnOk result (self.new ≡ insert self.old index stamp) }
        ensures err { OnErr result (self.new ≡ self.old) }
    {
        let position = stamp.position;
        if index == self.all.len() {
            self.all.push_back(stamp)?;
            if index == 0 {
                self.low = position;
            }
            self.high = position;
            return Ok(());
        }
        self.insert_inside(index, stamp)
    }

    /// Changes the moment of a position.
    #[inline(always)]
    pub fn set(&mut self, index: usize, stamp: Stamp)
        requires within { index < length self.old }
        requires same { (stamp_at self.old index).position ≡ stamp.position }
        ensures { self.new ≡ slice_set self.old index stamp }
    {
        self.all[index] = stamp;
    }

    /// The lowest position.
    #[inline(always)]
    pub fn first(&self) -> Option<Stamp>
        ensures value { result ≡ first_of self.now }
        ensures above { IfSome result (λ s. AllAbove s.position (drop 1 self.now)) }
    {
        self.all.front().copied()
    }

    /// The greatest position.
    #[inline(always)]
    pub fn last(&self) -> Option<Stamp>
        ensures some { IfSome result (λ s. IsGreatest self.now s) }
        ensures none { IsNone result → self.now ≡ [] }
    {
        let count = self.all.len();
        if count == 0 {
            return None;
        }
        Some(self.all[count - 1])
    }

    /// How far the greatest position lies above the lowest, where there are any.
    #[inline(always)]
    pub fn span(&self) -> u64
        ensures { 0 < length self.now → (stamp_at self.now (length self.now - 1)).position - (stamp_at self.now 0).position ≡ result }
    {
        self.high.saturating_sub(self.low)
    }

    /// Takes the lowest position out.
    #[inline(always)]
    pub fn pop_first(&mut self)
        ensures { self.new ≡ drop 1 self.old }
    {
        self.all.pop_front();
        if let Some(first) = self.all.front() {
            self.low = first.position;
        }
    }

    pub fn clear(&mut self)
        ensures { self.new ≡ [] }
    {
        self.all.clear();
    }
}
