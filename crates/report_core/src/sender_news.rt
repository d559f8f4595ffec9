//! What came from the sender of an incoming stream, and what a receiver tells of it.
ghost use Rattle.std.specs.Prelude.{◌≡◌};
ghost use Rattle.report_core.specs.LastReport.{
  compact_of,
  delay_units,
  no_news,
  with_report,
  block_of,
};

use media_units::{Duration, Instant, SystemTime, SystemTimeExt};
use rtcp_items::SenderInfo;
use rtp_base::{ReceptionReport, Ssrc, widen32};

/// The last sender report that came.
#[derive(Clone, Copy, Debug, PartialEq, Eq)]
pub struct LastSenderReport {
    /// What it says.
    pub info: SenderInfo,
    /// Its RTP time, widened by that of the report before.
    pub rtp_time: u64,
    /// When it came.
    pub received_at: Instant,
}

/// What came of sender reports on an incoming stream. Each call takes constant time.
#[derive(Clone, Copy, Debug, PartialEq, Eq)]
pub struct SenderNews {
    /// The last report, None before any came.
    pub last: Option<LastSenderReport>,
}

/// The middle 32 bits of the 64 in which NTP tells a moment (RFC 3550 section 4).
pub fn compact_ntp(moment: SystemTime) -> u32
    ensures { result ≡ compact_of moment }
{
    (moment.as_ntp_64() / 0x1_0000 % 0x1_0000_0000) as u32
}

/// A length of time in 65,536ths of a second, of its whole microseconds, rounded down, modulo 2^32
/// (RFC 3550 section 6.4.1).
pub fn delay_in_units(time: Duration) -> u32
    ensures { result ≡ delay_units time }
{
    let units = u128::from(time.as_micros()) * 65_536 / 1_000_000;
    (units % 0x1_0000_0000) as u32
}

impl SenderNews {
    /// No report came.
    pub fn new() -> Self
        ensures { result ≡ no_news }
    {
        SenderNews { last: None }
    }

    /// Takes in a report that came at a moment, in place of the one before.
    pub fn take(&mut self, info: SenderInfo, now: Instant)
        ensures { self.new ≡ with_report info now self.old }
    {
        let before = self.last.map(|last| last.rtp_time);
        self.last = Some(LastSenderReport {
            info,
            rtp_time: widen32(before, info.rtp_time),
            received_at: now,
        });
    }

    /// The reception block of a source at a moment (RFC 3550 section 6.4.1): what its register
    /// counts, with the source, the last sender report, and the delay since that came. Both are 0
    /// before one came.
    pub fn block(&self, ssrc: Ssrc, counted: &ReceptionReport, now: Instant) -> ReceptionReport
        ensures { result ≡ block_of ssrc self.now.last now counted.now }
    {
        let mut block = *counted;
        block.ssrc = ssrc;
        block.last_sr_time = 0;
        block.last_sr_delay = 0;
        if let Some(last) = self.last {
            let delay = now.saturating_duration_since(last.received_at);
            block.last_sr_time = compact_ntp(last.info.ntp_time);
            block.last_sr_delay = delay_in_units(delay);
        }
        block
    }
}
