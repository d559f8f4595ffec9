ghost use Rattle.std.specs.Prelude.{◌≡◌, ◌<◌, ◌++◌, ◌∷◌, [], length};
ghost use Rattle.std.specs.Bool.{OnTrue};
ghost use Rattle.mask_register.specs.Asks.{unasked, row_of, is_due_row, turned};

use arrayvec::ArrayVec;
use media_units::{Duration, Instant};
use repair_core::{MAX_MISORDER, MAX_NACKS};
use std::marker::Model;

/// How many numbers may be missing: those below the greatest that are still looked at.
pub const MOST_MISSING: usize = MAX_MISORDER as usize;

/// How often a missing number was asked for, and when last.
#[derive(Clone, Copy, Debug)]
pub struct Ask {
    pub number: u64,
    pub times: u8,
    pub last: Instant,
}

impl Ask {
    /// A number that was not asked for.
    pub fn none(number: u64) -> Self
        ensures { result ≡ unasked number }
    {
        Ask {
            number,
            times: 0,
            last: Instant::from_nanos(0),
        }
    }

    /// Whether it was asked for fewer than five times, and last at least the wait ago.
    pub fn is_due(&self, now: Instant, wait: Duration) -> bool
        ensures value { result ≡ is_due_row self.now now wait }
        ensures few { OnTrue result (self.now.times < MAX_NACKS) }
    {
        if self.times >= MAX_NACKS {
            return false;
        }
        if self.times == 0 {
            return true;
        }
        match now.as_nanos().checked_sub(self.last.as_nanos()) {
            Some(passed) => wait.as_nanos() <= passed,
            None => false,
        }
    }

    /// The row after a round: asked for once more, if it was due.
    pub fn turned(self, now: Instant, wait: Duration) -> Self
        ensures { result ≡ turned self now wait }
    {
        if self.is_due(now, wait) {
            Ask {
                number: self.number,
                times: self.times + 1,
                last: now,
            }
        } else {
            self
        }
    }
}

impl Default for Ask {
    fn default() -> Self {
        Ask::none(0)
    }
}

/// The rows of at most 100 missing numbers. Contracts see the list.
#[derive(Debug, Drop)]
pub struct Asks {
    rows: ArrayVec<Ask, MOST_MISSING>,
}

impl Model for Asks {
    ghost use Rattle.std.specs.Prelude.{List};
    ghost use Rattle.mask_register.specs.declared.asks.Ask.{Ask};

    ghost Value = { List Ask };

    ghost view = { λ a. a.rows.items };
}

impl Asks {
    pub fn new() -> Self
        ensures { result ≡ [] }
    {
        Asks {
            rows: ArrayVec::new(),
        }
    }

    /// The row of a number.
    pub fn row(&self, number: u64) -> Ask
        ensures { result ≡ row_of self.now number }
    {
        row_in(self.rows.as_slice(), number)
    }

    pub fn push(&mut self, ask: Ask)
        requires { length self.old < MOST_MISSING }
        ensures { self.new ≡ self.old ++ ask ∷ [] }
    {
        self.rows.push(ask);
    }

    pub fn clear(&mut self)
        ensures { self.new ≡ [] }
    {
        self.rows.clear();
    }
}

fn row_in(rows: &[Ask], number: u64) -> Ask
    ensures { result ≡ row_of rows.now number }
{
    for ask in rows {
        if ask.number == number {
            return *ask;
        }
    }
    Ask::none(number)
}
