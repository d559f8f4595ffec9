ghost use Rattle.std.specs.Prelude.{◌≡◌, ◌<◌, ◌≤◌, [], drop, length, slice_set, slice_get, OnOk, OnErr};
ghost use Rattle.std.specs.List.{insert, remove};
ghost use Rattle.std.specs.Option.{option_copied, option_copied_mut};
ghost use Rattle.std.specs.Borrow.{sem, LendsIf};
ghost use Rattle.queue_store.specs.contracts.values.Values.{the_row};

use std::alloc::{AllocError, Global};
use std::collections::VecDeque;
use std::marker::Model;

/// Values in a row. Contracts see the list.
#[derive(Debug, Drop)]
pub struct Values<T> {
    all: VecDeque<T>,
}

impl<T> Model for Values<T> {
    ghost use Rattle.std.specs.Prelude.{List};

    ghost Value = { List T };

    ghost view = { λ v. v.all.items };
}

impl<T: Drop> Values<T> {
    pub fn new(alloc: Global) -> Self
        ensures { result ≡ [] }
    {
        Values {
            all: VecDeque::new(alloc),
        }
    }

    /// Whether one more value makes the room grow.
    #[inline(always)]
    pub fn is_full(&self) -> bool {
        self.all.len() == self.all.capacity()
    }

    /// Makes room for so many more values. Without memory nothing changes.
    pub fn reserve(&mut self, more: usize) -> Result<(), AllocError>
        ensures { self.new ≡ self.old }
    {
        self.all.reserve_exact(more)
    }

    /// Puts a value at an index. Without memory nothing changes.
    #[inline(never)]
    fn insert_inside(&mut self, index: usize, value: T) -> Result<(), AllocError>
        requires { index ≤ length self.old }
        ensures ok { OnOk result (self.new ≡ insert self.old index value) }
        ensures err { OnErr result (self.new ≡ self.old) }
    {
        self.all.insert(index, value)?;
        Ok(())
    }

    /// Puts a value at an index, at the end without moving another. Without memory nothing changes.
    #[inline(always)]
    #[tactic(auto, using(std::proofs::lemmas::List::Edits::insert_end))]
    pub fn insert(&mut self, index: usize, value: T) -> Result<(), AllocError>
        requires { index ≤ length self.old }
        ensures ok { OnOk result (self.new ≡ insert self.old index value) }
        ensures err { OnErr result (self.new ≡ self.old) }
    {
        if index == self.all.len() {
            self.all.push_back(value)?;
            return Ok(());
        }
        self.insert_inside(index, value)
    }

    /// Takes a value out.
    #[inline(never)]
    pub fn remove(&mut self, index: usize)
        requires { index < length self.old }
        ensures { self.new ≡ remove self.old index }
    {
        self.all.remove(index);
    }

    /// Puts a value in the place of another, where there is one.
    #[inline(always)]
    pub fn set(&mut self, index: usize, value: T)
        ensures { self.new ≡ slice_set self.old index value }
    {
        if index < self.all.len() {
            self.all[index] = value;
        }
    }

    #[inline(always)]
    pub fn len(&self) -> usize
        ensures { result ≡ length self.now }
    {
        self.all.len()
    }

    #[inline(always)]
    pub fn get(&self, index: usize) -> Option<&T>
        ensures { option_copied result ≡ slice_get self.now index }
    {
        self.all.get(index)
    }

    #[inline(always)]
    pub fn get_mut(&mut self, index: usize) -> Option<&mut T>
        ensures* writes_back { sem 𝓛 (LendsIf (the_row T.row) T.row self.entry result (slice_set self.entry.now index) self.entry.now) }
        ensures value { option_copied_mut result ≡ slice_get self.old index }
    {
        self.all.get_mut(index)
    }

    #[inline(always)]
    pub fn pop_first(&mut self)
        ensures { self.new ≡ drop 1 self.old }
    {
        self.all.pop_front();
    }

    pub fn clear(&mut self)
        ensures { self.new ≡ [] }
    {
        self.all.clear();
    }
}
