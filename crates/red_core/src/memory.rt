ghost use Rattle.std.specs.Prelude.{◌≡◌, ◌+◌, ◌<◌, ◌≤◌, true, IfSome, []};
ghost use Rattle.repair_core.specs.Fresh.{is_fresh};
ghost use Rattle.repair_core.specs.Rounds.{Heard, taken, came};
ghost use Rattle.red_core.specs.Known.{with_known, LastAreKnown};
ghost use Rattle.red_core.specs.Placing.{place_of};

use crate::holes::place_between;
use crate::known::{KnownNumber, above, below, is_at};
use arrayvec::ArrayVec;
use repair_core::GapWindow;
use rtp_base::{MAX_RED_RECOVERY_DEPTH, NUMBER_LIMIT, SeqNo};
use std::marker::Model;

/// How many numbers are remembered: a choice.
pub const ROOM: usize = 32;

/// The last 32 numbers that were taken on a stream, and their times. Contracts see the list of
/// them, the last one first. No call takes memory.
#[derive(Debug, Drop)]
pub struct RedMemory {
    known: ArrayVec<KnownNumber, ROOM>,
    // The place behind the number that came last. Once all places are taken, the next number takes
    // that of the one that came first.
    next: usize,
}

impl Model for RedMemory {
    ghost use Rattle.std.specs.Prelude.{List};
    ghost use Rattle.red_core.specs.Known.{Known};
    ghost use Rattle.red_core.specs.Ring.{last_first, IsRing};
    ghost use Rattle.red_core.specs.declared.memory.TheConstants.{ROOM};

    ghost Value = { List Known };

    ghost view = { λ m. last_first m.known.items m.next };

    ghost invariant = { λ m. IsRing ROOM m.known.items m.next };
}

impl RedMemory {
    /// A memory of no number.
    pub fn new() -> Self
        ensures { result ≡ [] }
    {
        RedMemory {
            known: ArrayVec::new(),
            next: 0,
        }
    }

    /// Forgets all numbers, as where the SSRC of the stream changes.
    pub fn clear(&mut self)
        ensures { self.new ≡ [] }
    {
        self.known.clear();
        self.next = 0;
    }

    // The numbers, the last one first.
    fn last_first(&self) -> ArrayVec<KnownNumber, ROOM>
        ensures { result.items ≡ self.now }
    {
        let (newer, older) = self.known.as_slice().split_at(self.next);
        let mut known = ArrayVec::new();
        let _ = known.try_extend_from_slice(older);
        let _ = known.try_extend_from_slice(newer);
        known.as_mut_slice().reverse();
        known
    }

    /// Remembers a number of the stream that its window took, below 2^48, and its time, widened,
    /// in ticks of the RTP clock. What was known before the last 32 is forgotten. Constant time.
    pub fn took(&mut self, number: SeqNo, time: u64)
        requires { number < NUMBER_LIMIT }
        ensures { self.new ≡ with_known self.old (record { number = number; time = time }) }
    {
        let known = KnownNumber::new(number, time);
        if self.known.len() < ROOM {
            self.known.push(known);
            self.next += 1;
            return;
        }
        let place = if self.next < ROOM { self.next } else { 0 };
        self.known[place] = known;
        self.next = place + 1;
    }

    /// A block was placed: the window takes its number, below 2^48, which is then neither asked
    /// for nor taken again, and its number and time are known. No other block of that time has a
    /// place then.
    pub fn recovered<W: GapWindow>(&mut self, window: &mut W, number: SeqNo, time: u64)
        requires { number < NUMBER_LIMIT }
        ensures known { self.new ≡ with_known self.old (record { number = number; time = time }) }
        ensures window { (past : Heard) → W.remembers window.old past
            → W.remembers window.new (came past number) }
    {
        window.update(number);
        self.took(number, time);
    }

    /// The number of a redundant block (RFC 2198 section 3) of this time, widened, that came in a
    /// datagram that was taken under this number. None where a known number has that time, and
    /// where it cannot be told. It is between L, the greatest of the known numbers with an earlier
    /// time, and U, the least with a later time: the only number there that the window may still
    /// take, or of several the one at the block's time, where times rise from L to U by whole and
    /// equal steps, if it may still be taken. L is 0 to 9 below the datagram, and the number 0 to
    /// 8. At most 32 entries are looked at, and each number from L to U: at most 8 where the
    /// datagram is known with a later time.
    pub fn place<W: GapWindow>(&self, window: &W, datagram: SeqNo, time: u64) -> Option<SeqNo>
        ensures place { (past : Heard) → W.remembers window.now past
            → result ≡ place_of self.now (taken past) datagram time }
        ensures fresh { (past : Heard) → W.remembers window.now past
            → IfSome result (λ p. is_fresh (taken past) p ≡ true) }
        ensures near { IfSome result (λ p. (p ≤ datagram) × (datagram ≤ p + MAX_RED_RECOVERY_DEPTH)) }
    {
        let datagram = u64::from(datagram);
        let last_first = self.last_first();
        let known = last_first.as_slice();
        if is_at(known, time) {
            return None;
        }
        let low = below(known, time)?;
        let high = above(known, time)?;
        if low.number() > datagram || datagram - low.number() > MAX_RED_RECOVERY_DEPTH + 1 {
            return None;
        }
        let place = place_between(window, low, high, time)?;
        if place <= datagram && datagram - place <= MAX_RED_RECOVERY_DEPTH {
            Some(SeqNo::from(place))
        } else {
            None
        }
    }
}

/// A memory that is told of numbers in turn knows the last 32 of them all.
pub fn last_32_are_known()
    ensures { LastAreKnown }
{}
