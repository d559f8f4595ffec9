ghost use Rattle.std.specs.Prelude.{◌≡◌, ◌<◌, ◌++◌, ◌∷◌, [], OnOk, OnErr};
ghost use Rattle.rtx_core.specs.Ratio.{uncounted, is_above, is_above_at, is_reading_due, after_reading, forgetting, with_pushed, without_pushed, with_sent, with_resent, with_hundredths};

use crate::byte_log::ByteLog;
use media_units::{Duration, Instant};
use std::alloc::{AllocError, Global};
use std::marker::Model;

/// How long a reading stands, in milliseconds: a choice.
pub const READING_AGE: u64 = 50;

/// How many hundredths of the bytes of payloads that a stream sends may be those of repairs, and
/// what it sent in the last second. It is read at most every 50 ms whether they are more; before
/// the first reading they are not.
#[derive(Debug, Drop)]
pub struct RatioCap {
    hundredths: u32,
    sent: ByteLog,
    resent: ByteLog,
    read_at: Instant,
    met: bool,
}

impl Model for RatioCap {
    ghost use Rattle.rtx_core.specs.Ratio.{CapRecord};

    ghost Value = { CapRecord };

    ghost view = { λ c. record { hundredths = c.hundredths; sent = c.sent; resent = c.resent; read_at = c.read_at; met = c.met } };
}

/// Whether more than so many hundredths of these bytes are those of repairs.
fn is_above(hundredths: u32, sent: u64, resent: u64) -> bool
    ensures { result ≡ is_above hundredths sent resent }
{
    let all = u128::from(resent) + u128::from(sent);
    u128::from(resent) * 100 > u128::from(hundredths) * all
}

impl RatioCap {
    /// A cap of so many hundredths on a stream that sent nothing.
    pub fn new(alloc: Global, hundredths: u32) -> Self
        ensures { result ≡ uncounted hundredths }
    {
        RatioCap {
            hundredths,
            sent: ByteLog::new(alloc),
            resent: ByteLog::new(alloc),
            read_at: Instant::from_nanos(0),
            met: false,
        }
    }

    /// The hundredths that may be repairs.
    pub fn hundredths(&self) -> u32
        ensures { result ≡ self.now.hundredths }
    {
        self.hundredths
    }

    /// Sets another cap. It is read anew.
    pub fn set(&mut self, hundredths: u32)
        ensures { self.new ≡ with_hundredths hundredths self.old }
    {
        self.hundredths = hundredths;
        self.read_at = Instant::from_nanos(0);
        self.met = false;
    }

    /// Whether it is read again at a moment.
    fn is_reading_due(&self, now: Instant) -> bool
        ensures { result ≡ is_reading_due now self.now }
    {
        now.saturating_duration_since(self.read_at) >= Duration::from_millis(READING_AGE)
    }

    /// Whether more than so many hundredths are repairs, of what was sent in the last second.
    fn is_above(&self, now: Instant) -> bool
        ensures { result ≡ is_above_at now self.now }
    {
        is_above(self.hundredths, self.sent.sum(now), self.resent.sum(now))
    }

    /// Whether the cap is met at a moment, by a reading at it where one is due. A reading looks at
    /// what was sent more than a second ago and not forgotten since; each packet that is sent
    /// forgets that.
    pub fn is_met(&self, now: Instant) -> bool
        ensures { result ≡ (after_reading now self.now).met }
    {
        if self.is_reading_due(now) {
            self.is_above(now)
        } else {
            self.met
        }
    }

    /// Reads it, where that is due.
    pub fn read(&mut self, now: Instant)
        ensures { self.new ≡ after_reading now self.old }
    {
        if self.is_reading_due(now) {
            self.met = self.is_above(now);
            self.read_at = now;
        }
    }

    /// Counts the payload of a first sending, and forgets nothing. Without memory nothing changes.
    pub(crate) fn push_sent(&mut self, now: Instant, bytes: usize) -> Result<(), AllocError>
        ensures ok { OnOk result (self.new ≡ with_pushed now bytes self.old) }
        ensures err { OnErr result (self.new ≡ self.old) }
    {
        self.sent.push(now, bytes)
    }

    /// Takes back the first sending that was counted last.
    pub(crate) fn take_back(&mut self)
        ensures { self.new ≡ without_pushed self.old }
    {
        self.sent.take_back();
    }

    /// Forgets the first sendings that count no more.
    pub(crate) fn forget_sent(&mut self, now: Instant)
        ensures { self.new ≡ forgetting now self.old }
    {
        self.sent.forget_old(now);
    }

    /// Counts the payload of a first sending. Without memory nothing changes.
    pub fn count_sent(&mut self, now: Instant, bytes: usize) -> Result<(), AllocError>
        ensures ok { OnOk result (self.new ≡ with_sent now bytes self.old) }
        ensures err { OnErr result (self.new ≡ self.old) }
    {
        self.push_sent(now, bytes)?;
        self.forget_sent(now);
        Ok(())
    }

    /// Reads it, where that is due, and counts the payload of a repair. Without
    /// memory nothing changes.
    pub fn count_resent(&mut self, now: Instant, bytes: usize) -> Result<(), AllocError>
        ensures ok { OnOk result (self.new ≡ with_resent now bytes (after_reading now self.old)) }
        ensures err { OnErr result (self.new ≡ self.old) }
    {
        let due = self.is_reading_due(now);
        let met = self.is_met(now);
        self.resent.push(now, bytes)?;
        self.resent.forget_old(now);
        if due {
            self.read_at = now;
            self.met = met;
        }
        Ok(())
    }
}
