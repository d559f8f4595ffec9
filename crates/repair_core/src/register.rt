ghost use Rattle.std.specs.Prelude.{◌≡◌, ◌+◌, ◌<◌, ◌≤◌, ◌++◌, None, IfOk, IfSome, length};
ghost use Rattle.std.specs.Option.{ForSome};
ghost use Rattle.repair_core.specs.Fresh.{is_fresh, greatest_of};
ghost use Rattle.repair_core.specs.Rounds.{taken, due, is_pending, wait_of, deadline};
ghost use Rattle.repair_core.specs.Entries.{packed};
ghost use Rattle.repair_core.specs.Reception.{Reception, begun_at, arrived, recovered, asked_at, reported, heard, last_counts, jitter_in, fraction_of, report_of, after_report};

use crate::counts::ReceptionCounts;
use crate::gap_window::GapWindow;
use crate::jitter::TimePoint;
use crate::register_nack::{MAX_ENTRIES_BEFORE_ROUND, MAX_ROUND_ENTRIES, NackRegister};
use media_units::{Duration, Instant};
use rtp_base::{NUMBER_LIMIT, NackEntry, ReceptionReport, ReportList, SeqNo};
use std::alloc::{AllocError, Global};
use std::ops::Range;

/// What is kept of the packets of a source: which numbers came, how many, and how evenly (RFC 3550
/// section 6.4.1). Numbers are below 2^48. After `new` no call takes memory. Any window keeps the
/// numbers.
#[derive(Debug, Drop)]
pub struct ReceiverRegister<W: GapWindow = NackRegister> {
    nack: W,
    counts: ReceptionCounts,
}

impl<W: GapWindow> ReceiverRegister<W> {
    ghost use Rattle.repair_core.specs.ReceiverRegister.{StandsFor};

    /// A register that received nothing. From the given number, if any, it starts as `NackRegister`
    /// does.
    pub fn new(alloc: Global, max_seq_no: Option<SeqNo>) -> Result<Self, AllocError>
        requires { ForSome max_seq_no (λ n. n < NUMBER_LIMIT) }
        ensures { IfOk result (λ r. StandsFor W.remembers r (begun_at max_seq_no)) }
    {
        let nack = W::new(alloc, max_seq_no)?;
        Ok(ReceiverRegister {
            nack,
            counts: ReceptionCounts::new(),
        })
    }

    /// Makes it as a new one, in the room that it has.
    pub fn clear(&mut self, max_seq_no: Option<SeqNo>)
        requires { ForSome max_seq_no (λ n. n < NUMBER_LIMIT) }
        ensures { StandsFor W.remembers self.new (begun_at max_seq_no) }
    {
        self.nack.clear(max_seq_no);
        self.counts = ReceptionCounts::new();
    }

    /// Whether the number may still be taken.
    pub fn accepts(&self, seq: SeqNo) -> bool
        requires { seq < NUMBER_LIMIT }
        ensures { (past : Reception) → StandsFor W.remembers self.now past → result ≡ is_fresh (taken (heard past)) seq }
    {
        self.nack.accepts(seq)
    }

    /// Takes a number that was rebuilt from redundancy (RFC 2198). It is neither asked for nor
    /// taken again, and does not count as received.
    pub fn mark_recovered(&mut self, seq: SeqNo)
        requires { seq < NUMBER_LIMIT }
        ensures { (past : Reception) → StandsFor W.remembers self.old past → StandsFor W.remembers self.new (recovered past seq) }
    {
        let _ = self.nack.update(seq);
    }

    /// Takes the number of a packet that came if it is fresh, and tells whether it was. The packet
    /// enters the jitter in any case. The clock rate is at least 1.
    pub fn update(&mut self, seq: SeqNo, arrival: Instant, rtp_time: u32, clock_rate: u32) -> bool
        requires seq { seq < NUMBER_LIMIT }
        requires rate { 0 < clock_rate }
        ensures fresh { (past : Reception) → StandsFor W.remembers self.old past → result ≡ is_fresh (taken (heard past)) seq }
        ensures arrived { (past : Reception) → StandsFor W.remembers self.old past → StandsFor W.remembers self.new (arrived past seq (record { arrival = arrival; rtp_time = rtp_time; clock_rate = clock_rate })) }
    {
        let point = TimePoint {
            arrival,
            rtp_time,
            clock_rate,
        };
        let fresh = self.nack.update(seq);
        self.counts.arrived(seq, fresh, point);
        fresh
    }

    /// When the missing numbers of the range are given up, as `NackRegister::recovery_deadline`.
    pub fn recovery_deadline(
        &self,
        range: Range<SeqNo>,
        received: Instant,
        trip: Option<Duration>,
    ) -> Option<Instant>
        ensures { (past : Reception) → StandsFor W.remembers self.now past → result ≡ deadline (heard past) range.start range.end received trip }
    {
        self.nack.recovery_deadline(range, received, trip)
    }

    /// Whether some missing number was asked for fewer than five times.
    pub fn has_pending_nacks(&self) -> bool
        ensures { (past : Reception) → StandsFor W.remembers self.now past → result ≡ is_pending (heard past) }
    {
        self.nack.has_pending_nacks()
    }

    /// Asks for the missing numbers that are due, as `NackRegister::nack_reports`.
    pub fn nack_report(
        &mut self,
        now: Instant,
        trip: Option<Duration>,
        reports: &mut ReportList<NackEntry>,
    )
        requires { length reports.old ≤ MAX_ENTRIES_BEFORE_ROUND }
        ensures asked { (past : Reception) → StandsFor W.remembers self.old past → StandsFor W.remembers self.new (asked_at past now (wait_of trip)) }
        ensures entries { (past : Reception) → StandsFor W.remembers self.old past → reports.new ≡ reports.old ++ packed None (due (heard past) now (wait_of trip)) }
        ensures few { length reports.new ≤ length reports.old + MAX_ROUND_ENTRIES }
    {
        self.nack.nack_reports(now, trip, reports);
    }

    /// The greatest number that was taken.
    pub fn max_seq(&self) -> Option<SeqNo>
        ensures greatest { (past : Reception) → StandsFor W.remembers self.now past → result ≡ greatest_of (taken (heard past)) }
        ensures small { IfSome result (λ n. n < NUMBER_LIMIT) }
    {
        self.nack.max_seq()
    }

    /// A report of the source, with its SSRC and the last sender report left 0; None where no
    /// packet came. The fraction lost is that since the report before (RFC 3550 section 6.4.1).
    pub fn reception_report(&mut self) -> Option<ReceptionReport>
        ensures report { (past : Reception) → StandsFor W.remembers self.old past → result ≡ report_of past }
        ensures after { (past : Reception) → StandsFor W.remembers self.old past → StandsFor W.remembers self.new (after_report past) }
    {
        let greatest = self.max_seq();
        self.counts.report(greatest)
    }

    /// The jitter in units of the RTP clock, rounded half up (RFC 3550 section 6.4.1).
    pub fn jitter_in_rtp_ts(&self) -> u32
        ensures { (past : Reception) → StandsFor W.remembers self.now past → result ≡ jitter_in past }
    {
        self.counts.jitter_in_rtp_ts()
    }

    /// The share of the packets expected since the last such call that was lost, in 256ths, at most
    /// 255; 0 where nothing more was expected or lost (RFC 3550 section A.3).
    pub fn fraction_lost(&mut self, expected: u64, received: u64) -> u8
        ensures fraction { (past : Reception) → StandsFor W.remembers self.old past → result ≡ fraction_of (last_counts past) expected received }
        ensures reported { (past : Reception) → StandsFor W.remembers self.old past → StandsFor W.remembers self.new (reported past expected received) }
    {
        self.counts.fraction_lost(expected, received)
    }
}
