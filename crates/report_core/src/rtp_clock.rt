//! The RTP time of an outgoing stream, moved on to a moment.
ghost use Rattle.std.specs.Prelude.{◌≡◌, Some, None};
ghost use Rattle.report_core.specs.Sender.{moved_on, rtp_time_at};

use media_units::{Duration, Instant};
use rtp_base::Frequency;

/// What was written last to a stream.
#[derive(Clone, Copy, Debug, PartialEq, Eq)]
pub struct Written {
    /// Its RTP time.
    pub rtp_time: u32,
    /// When it was taken, by the clock of the session.
    pub wallclock: Instant,
}

/// What tells the RTP time of an outgoing stream at a moment. Each call takes constant time.
#[derive(Clone, Copy, Debug, PartialEq, Eq)]
pub struct RtpClock {
    /// What was written last, None before anything was.
    pub written: Option<Written>,
    /// The clock of the packet that was last sealed for the first time, None before any was.
    pub clock: Option<Frequency>,
}

/// An RTP time, so much later: rounded down, modulo 2^32.
fn moved_on(rtp_time: u32, time: Duration, clock: Frequency) -> u32
    ensures { result ≡ moved_on rtp_time time clock }
{
    let units = u128::from(time.as_nanos()) * u128::from(clock.get()) / 1_000_000_000;
    ((u128::from(rtp_time) + units) % 0x1_0000_0000) as u32
}

impl RtpClock {
    /// Nothing was written, and nothing sealed.
    pub fn new() -> Self
        ensures { result ≡ record { written = None; clock = None } }
    {
        RtpClock {
            written: None,
            clock: None,
        }
    }

    /// A packet was written with an RTP time that its media had at a moment.
    pub fn wrote(&mut self, rtp_time: u32, wallclock: Instant)
        ensures { self.new ≡ record self.old {
          written = Some (record { rtp_time = rtp_time; wallclock = wallclock });
        } }
    {
        self.written = Some(Written {
            rtp_time,
            wallclock,
        });
    }

    /// A packet whose times are in ticks of a clock was sealed for the first time.
    pub fn sealed(&mut self, clock: Frequency)
        ensures { self.new ≡ record self.old { clock = Some clock } }
    {
        self.clock = Some(clock);
    }

    /// The RTP time at a moment (RFC 3550 section 6.4.1): that of the last write, moved on at the
    /// clock's rate. It is 0 before a write, before anything was sealed, and at a moment before the
    /// last write's.
    pub fn time_at(&self, now: Instant) -> u32
        ensures { result ≡ rtp_time_at self.now.written self.now.clock now }
    {
        match (self.written, self.clock) {
            (Some(written), Some(clock)) => match now.checked_duration_since(written.wallclock) {
                Some(time) => moved_on(written.rtp_time, time, clock),
                None => 0,
            },
            _ => 0,
        }
    }
}
