ghost use Rattle.std.specs.Prelude.{◌≡◌, ◌==◌, ◌||◌, ℕ, [], OnOk, OnErr};
ghost use Rattle.media_laws.specs.Rules.{has};
ghost use Rattle.media_play.specs.UsedNumbers.{Rise, numbers_in};

use rtp_wire::SeqNo;
use std::alloc::{AllocError, Global};
use std::collections::BTreeSet;
use std::marker::Model;

/// Numbers in a row: the first, the last and all between.
#[derive(Clone, Copy)]
struct Stretch {
    first: u64,
    last: u64,
}

impl Stretch {
    /// The stretch of one number.
    fn of(number: u64) -> Self
        ensures { result ≡ record { first = number; last = number } }
    {
        Stretch {
            first: number,
            last: number,
        }
    }
}

/// The numbers that were written on a stream. Contracts see a list of them, and ask it only which
/// numbers it has. Numbers that rise by ones take no memory.
#[derive(Drop)]
pub struct Numbers {
    // The greatest number and those in a row below it.
    top: Option<Stretch>,
    // What was at the top before, in order.
    lower: Vec<Stretch>,
    // The numbers that came behind a greater one.
    late: BTreeSet<u64>,
}

impl Model for Numbers {
    ghost use Rattle.std.specs.Prelude.{ℕ, List, ◌++◌};
    ghost use Rattle.std.specs.Option.{option_to_list};

    ghost Value = { List ℕ };

    ghost use Rattle.media_play.specs.UsedNumbers.{numbers_in, AreInOrder};

    ghost view = { λ n. numbers_in (n.lower.items ++ option_to_list n.top) ++ n.late.keys };

    ghost invariant = { λ n. AreInOrder n.lower.items n.top n.late };
}

/// Whether a number is in one of these stretches, which rise. Goes by halves: the steps are as many
/// as the digits of their count in binary.
fn covered(stretches: &[Stretch], number: u64) -> bool
    requires { Rise 0 stretches.now }
    ensures { result ≡ has (numbers_in stretches.now) number }
{
    let place = stretches.partition_point(|stretch| stretch.last < number);
    match stretches.get(place) {
        Some(stretch) => stretch.first <= number,
        None => false,
    }
}

impl Numbers {
    /// No numbers. Takes no memory.
    pub fn new(alloc: Global) -> Self
        ensures { result ≡ [] }
    {
        Numbers {
            top: None,
            lower: Vec::new(alloc),
            late: BTreeSet::new(alloc),
        }
    }

    /// Whether a number was written. At most two comparisons where it is above all others or in the
    /// top stretch, else a search by halves among the stretches and one in the set of late numbers.
    pub fn has(&self, number: SeqNo) -> bool
        ensures { result ≡ has self.now number }
    {
        let number = u64::from(number);
        let Some(top) = self.top else {
            return false;
        };
        if number > top.last {
            return false;
        }
        if number >= top.first {
            return true;
        }
        covered(&self.lower, number) || self.late.contains(&number)
    }

    /// Adds a number. The next above all others takes a few steps and no memory, one further up a
    /// push onto a list, any other a place in an ordered set. Without memory nothing changes.
    pub fn insert(&mut self, number: SeqNo) -> Result<(), AllocError>
        ensures ok { OnOk result ((n : ℕ) → has self.new n
            ≡ (has self.old n || (number == n))) }
        ensures err { OnErr result (self.new ≡ self.old) }
    {
        let number = u64::from(number);
        let Some(top) = self.top else {
            self.top = Some(Stretch::of(number));
            return Ok(());
        };
        if number <= top.last {
            self.late.insert(number)?;
        } else if number - top.last == 1 {
            self.top = Some(Stretch {
                first: top.first,
                last: number,
            });
        } else {
            self.lower.push(top)?;
            self.top = Some(Stretch::of(number));
        }
        Ok(())
    }
}
