ghost use Rattle.std.specs.Prelude.{◌≡◌, ◌+◌, ◌<◌, ◌≤◌, ◌++◌, None, IfOk, IfSome, length};
ghost use Rattle.std.specs.Option.{ForSome};
ghost use Rattle.std.specs.Bool.{OnFalse};
ghost use Rattle.repair_core.specs.Fresh.{is_fresh, greatest_of};
ghost use Rattle.repair_core.specs.Rounds.{Heard, started_at, came, round, taken, due, is_pending, wait_of, deadline};
ghost use Rattle.repair_core.specs.Entries.{packed};

use crate::register_nack::{MAX_ENTRIES_BEFORE_ROUND, MAX_ROUND_ENTRIES, NackRegister};
use media_units::{Duration, Instant};
use rtp_base::{NUMBER_LIMIT, NackEntry, ReportList, SeqNo};
use std::alloc::{AllocError, Global};
use std::ops::Range;

/// What remembers enough of the numbers that were taken and asked for. Numbers are below 2^48.
/// After `new` no call takes memory.
pub trait GapWindow: Drop {
    /// It was told this. One value may remember several such pasts.
    ghost remembers: { Self → Heard → Type 0 };

    /// One that took nothing, or the given number alone: it then accepts nothing up to it.
    fn new(alloc: Global, max_seq_no: Option<SeqNo>) -> Result<Self, AllocError>
        requires { ForSome max_seq_no (λ n. n < NUMBER_LIMIT) }
        ensures { IfOk result (λ r. remembers r (started_at max_seq_no)) };

    /// Makes it as a new one, in the room that it has.
    fn clear(&mut self, max_seq_no: Option<SeqNo>)
        requires { ForSome max_seq_no (λ n. n < NUMBER_LIMIT) }
        ensures { remembers self.new (started_at max_seq_no) };

    /// Whether the number may still be taken.
    fn accepts(&self, seq: SeqNo) -> bool
        requires { seq < NUMBER_LIMIT }
        ensures { (past : Heard) → remembers self.now past → result ≡ is_fresh (taken past) seq };

    /// Takes the number if it is fresh, and tells whether it was.
    fn update(&mut self, seq: SeqNo) -> bool
        requires { seq < NUMBER_LIMIT }
        ensures fresh { (past : Heard) → remembers self.old past → result ≡ is_fresh (taken past) seq }
        ensures remembers { (past : Heard) → remembers self.old past → remembers self.new (came past seq) }
        ensures refused { OnFalse result (self.new ≡ self.old) };

    /// The greatest number that was taken.
    fn max_seq(&self) -> Option<SeqNo>
        ensures greatest { (past : Heard) → remembers self.now past → result ≡ greatest_of (taken past) }
        ensures small { IfSome result (λ n. n < NUMBER_LIMIT) };

    /// Whether some missing number was asked for fewer than five times.
    fn has_pending_nacks(&self) -> bool
        ensures { (past : Heard) → remembers self.now past → result ≡ is_pending past };

    /// Asks for the missing numbers that are due (RFC 4585 section 6.2.1).
    fn nack_reports(
        &mut self,
        now: Instant,
        trip: Option<Duration>,
        reports: &mut ReportList<NackEntry>,
    )
        requires { length reports.old ≤ MAX_ENTRIES_BEFORE_ROUND }
        ensures asked { (past : Heard) → remembers self.old past → remembers self.new (round past now (wait_of trip)) }
        ensures entries { (past : Heard) → remembers self.old past → reports.new ≡ reports.old ++ packed None (due past now (wait_of trip)) }
        ensures few { length reports.new ≤ length reports.old + MAX_ROUND_ENTRIES };

    /// When the missing numbers of the range are given up.
    fn recovery_deadline(
        &self,
        range: Range<SeqNo>,
        received: Instant,
        trip: Option<Duration>,
    ) -> Option<Instant>
        ensures { (past : Heard) → remembers self.now past → result ≡ deadline past range.start range.end received trip };
}

impl GapWindow for NackRegister {
    ghost use Rattle.repair_core.specs.NackRegister.{Remembers};

    ghost remembers = { Remembers };

    fn new(alloc: Global, max_seq_no: Option<SeqNo>) -> Result<Self, AllocError> {
        NackRegister::new(alloc, max_seq_no)
    }

    fn clear(&mut self, max_seq_no: Option<SeqNo>) {
        NackRegister::clear(self, max_seq_no);
    }

    fn accepts(&self, seq: SeqNo) -> bool {
        NackRegister::accepts(self, seq)
    }

    fn update(&mut self, seq: SeqNo) -> bool {
        NackRegister::update(self, seq)
    }

    fn max_seq(&self) -> Option<SeqNo> {
        NackRegister::max_seq(self)
    }

    fn has_pending_nacks(&self) -> bool {
        NackRegister::has_pending_nacks(self)
    }

    fn nack_reports(
        &mut self,
        now: Instant,
        trip: Option<Duration>,
        reports: &mut ReportList<NackEntry>,
    ) {
        NackRegister::nack_reports(self, now, trip, reports);
    }

    fn recovery_deadline(
        &self,
        range: Range<SeqNo>,
        received: Instant,
        trip: Option<Duration>,
    ) -> Option<Instant> {
        NackRegister::recovery_deadline(self, range, received, trip)
    }
}
