//! What is counted of the packets of a source, and the reports that are made of it.
ghost use Rattle.std.specs.Prelude.{◌≡◌, ◌<◌, IfSome};
ghost use Rattle.std.specs.Option.{ForSome};
ghost use Rattle.rtp_base.specs.Fields.{IsSigned24};
ghost use Rattle.repair_core.specs.Jitter.{rtp_jitter};
ghost use Rattle.rtp_base.specs.ReceptionReport.{IsReceptionReport};
ghost use Rattle.repair_core.specs.Counts.{no_counts, after_point, counted, told, counts_report, counts_after, expected_of, lost_of, fraction_of, block_of};

use crate::jitter::{Jitter, TimePoint};
use rtp_base::{NUMBER_LIMIT, ReceptionReport, SeqNo, Ssrc};
use std::marker::Model;

/// The most packets lost that a report can say: 24 signed bits (RFC 3550 appendix A.3).
pub const MAX_POSITIVE_LOSS: u64 = 0x7f_ffff;

/// How far below 0 the packets lost of a report can be: 24 signed bits (RFC 3550 appendix A.3).
pub const MAX_NEGATIVE_LOSS: u64 = 0x80_0000;

/// What is counted of the packets of a source beside which numbers came: the first number, how many
/// fresh ones came, what the last report told, and the jitter (RFC 3550 section 6.4.1). Every call
/// takes constant time and no memory. Contracts see a record of the counts.
#[derive(Clone, Copy, Debug)]
pub struct ReceptionCounts {
    // The number of the first packet that came.
    first: Option<SeqNo>,
    // How many packets came whose number was fresh, at most 2^64 - 1.
    received: u64,
    // The packets expected at the last report.
    expected_then: u64,
    // The packets received at the last report.
    received_then: u64,
    jitter: Jitter,
}

impl Model for ReceptionCounts {
    ghost use Rattle.std.specs.Prelude.{◌<◌, ◌^◌};
    ghost use Rattle.rtp_base.specs.ReceptionReport.{IsReceptionReport};
    ghost use Rattle.repair_core.specs.Counts.{Counts};

    ghost Value = { Counts };

    ghost view = { λ c. record { first = c.first; received = c.received; expected_then = c.expected_then; received_then = c.received_then; point = c.jitter.last; jitter = c.jitter.value } };

    ghost invariant = { λ c. c.jitter.value < 2 ^ 82 };

    ghost inverse = { λ c. record { first = c.first; received = c.received; expected_then = c.expected_then; received_then = c.received_then; jitter = record { last = c.point; value = c.jitter } } };
}

impl ReceptionCounts {
    /// The counts of a source of which nothing came.
    pub fn new() -> Self
        ensures { result ≡ no_counts }
    {
        ReceptionCounts {
            first: None,
            received: 0,
            expected_then: 0,
            received_then: 0,
            jitter: Jitter::new(),
        }
    }

    /// A packet came under a number, which was fresh or not. It counts as received where it was,
    /// and enters the jitter in any case. The clock rate is at least 1.
    pub fn arrived(&mut self, seq: SeqNo, fresh: bool, point: TimePoint)
        requires { 0 < point.clock_rate }
        ensures { self.new ≡ counted seq fresh point self.old }
    {
        self.jitter.enter(point);
        self.first = Some(self.first.unwrap_or(seq));
        if fresh {
            self.received = self.received.saturating_add(1);
        }
    }

    /// A packet that is not counted enters the jitter. The clock rate is at least 1.
    pub fn entered(&mut self, point: TimePoint)
        requires { 0 < point.clock_rate }
        ensures { self.new ≡ after_point point self.old }
    {
        self.jitter.enter(point);
    }

    /// A report up to the greatest number that was taken, below 2^48, with its SSRC and the last
    /// sender report left 0; None where no packet came. The fraction lost is that since the report
    /// before (RFC 3550 section 6.4.1).
    pub fn report(&mut self, greatest: Option<SeqNo>) -> Option<ReceptionReport>
        requires { ForSome greatest (λ n. n < NUMBER_LIMIT) }
        ensures report { result ≡ counts_report greatest self.old }
        ensures after { self.new ≡ counts_after greatest self.old }
        ensures bits { IfSome result IsReceptionReport }
    {
        let first = self.first?;
        let last = greatest?;
        let expected = expected(first, last);
        let lost = packets_lost(expected, self.received);
        let jitter = self.jitter.in_rtp_ts();
        let fraction = self.fraction_lost(expected, self.received);
        Some(block(fraction, lost, last, jitter))
    }

    /// The jitter in units of the RTP clock, rounded half up (RFC 3550 section 6.4.1).
    pub fn jitter_in_rtp_ts(&self) -> u32
        ensures { result ≡ rtp_jitter self.now.point self.now.jitter }
    {
        self.jitter.in_rtp_ts()
    }

    /// The share of the packets expected since the last such call or report that was lost, in
    /// 256ths, at most 255; 0 where nothing more was expected or lost (RFC 3550 section A.3).
    pub fn fraction_lost(&mut self, expected: u64, received: u64) -> u8
        ensures fraction { result ≡ fraction_of (self.old.expected_then, self.old.received_then) expected received }
        ensures told { self.new ≡ told expected received self.old }
    {
        let fraction = fraction(self.expected_then, self.received_then, expected, received);
        self.expected_then = expected;
        self.received_then = received;
        fraction
    }
}

fn fraction(expected_then: u64, received_then: u64, expected: u64, received: u64) -> u8
    ensures { result ≡ fraction_of (expected_then, received_then) expected received }
{
    let more = expected.saturating_sub(expected_then);
    if more == 0 {
        return 0;
    }
    let lost = (u128::from(more) + u128::from(received_then)).saturating_sub(u128::from(received));
    (256 * lost / u128::from(more)).min(255) as u8
}

fn block(fraction_lost: u8, packets_lost: i32, last: SeqNo, jitter: u32) -> ReceptionReport
    requires { IsSigned24 packets_lost }
    ensures block { result ≡ block_of fraction_lost packets_lost last jitter }
    ensures bits { IsReceptionReport result }
{
    ReceptionReport {
        ssrc: Ssrc::from(0),
        fraction_lost,
        packets_lost,
        max_seq: (u64::from(last) % 0x1_0000_0000) as u32,
        jitter,
        last_sr_time: 0,
        last_sr_delay: 0,
    }
}

/// How many packets are expected from the first number to the last, which is below 2^48.
pub fn expected(first: SeqNo, last: SeqNo) -> u64
    requires { last < NUMBER_LIMIT }
    ensures { result ≡ expected_of first last }
{
    u64::from(last).saturating_sub(u64::from(first)) + 1
}

/// The packets lost, in 24 signed bits: from -0x800000 to 0x7fffff (RFC 3550 section A.3).
pub fn packets_lost(expected: u64, received: u64) -> i32
    ensures value { result ≡ lost_of expected received }
    ensures bits { IsSigned24 result }
{
    if received <= expected {
        (expected - received).min(MAX_POSITIVE_LOSS) as i32
    } else {
        -((received - expected).min(MAX_NEGATIVE_LOSS) as i32)
    }
}
