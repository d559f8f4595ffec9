ghost use Rattle.std.specs.Prelude.{◌≡◌, ◌%◌, IfOk, replicate, slice_set, slice_index_or, length};
ghost use Rattle.repair_core.specs.Slots.{no_slot};

use crate::register_nack::MAX_MISORDER;
use media_units::Instant;
use std::alloc::{AllocError, Global};
use std::marker::Model;

/// How many numbers a window spans: the greatest, and those that may be taken below it.
pub const WINDOW: u64 = MAX_MISORDER + 1;

/// What is known of one number: whether it was taken, else how often it was asked for, and when
/// last.
#[derive(Clone, Copy, Debug)]
pub struct Slot {
    pub number: u64,
    pub taken: bool,
    pub asks: u8,
    pub last: Instant,
}

impl Slot {
    /// Of no number.
    pub fn blank() -> Self
        ensures { result ≡ no_slot }
    {
        Slot {
            number: 0,
            taken: false,
            asks: 0,
            last: Instant::from_nanos(0),
        }
    }
}

/// 101 slots, each for the numbers that leave its place when divided by 101. Contracts see the
/// list.
#[derive(Debug, Drop)]
pub struct Slots {
    all: Vec<Slot>,
}

impl Model for Slots {
    ghost use Rattle.std.specs.Prelude.{◌≡◌, List, length};
    ghost use Rattle.repair_core.specs.declared.slots.Slot.{Slot};
    ghost use Rattle.repair_core.specs.declared.slots.TheConstants.{WINDOW};

    ghost Value = { List Slot };

    ghost view = { λ s. s.all.items };

    ghost invariant = { λ s. length s.all.items ≡ WINDOW };
}

impl Slots {
    pub fn new(alloc: Global) -> Result<Self, AllocError>
        ensures { IfOk result (λ s. s ≡ replicate WINDOW no_slot) }
    {
        let all = vec![in alloc; Slot::blank(); WINDOW as usize]?;
        Ok(Slots { all })
    }

    /// The slot of a number. It may hold another number.
    pub fn at(&self, number: u64) -> Slot
        ensures { result ≡ slice_index_or self.now (number % WINDOW) no_slot }
    {
        self.all[(number % WINDOW) as usize]
    }

    pub fn put(&mut self, number: u64, slot: Slot)
        ensures value { self.new ≡ slice_set self.old (number % WINDOW) slot }
        ensures long { length self.old ≡ WINDOW }
    {
        self.all[(number % WINDOW) as usize] = slot;
    }

    /// Makes every slot blank.
    pub fn clear(&mut self)
        ensures { self.new ≡ replicate WINDOW no_slot }
    {
        self.all.fill(Slot::blank());
    }
}
