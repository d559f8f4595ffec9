//! The RTP times of an incoming stream, widened to 64 bits.
ghost use Rattle.std.specs.Prelude.{◌≡◌, Some, None, true};
ghost use Rattle.std.specs.Option.{option_map};
ghost use Rattle.report_core.specs.Times.{
  time_after,
  turned_half,
  TimesWidenNearest,
  TimesKeepLowBits,
  PausesMoveOn,
};

use rtp_base::{Frequency, MediaTime, widen32};

/// The RTP times of an incoming stream (RFC 3550 section 5.1), each of 32 bits, widened by the last
/// one. Each call takes constant time.
#[derive(Clone, Copy, Debug, PartialEq, Eq)]
pub struct TimeLine {
    /// The last time, None before any came.
    pub last: Option<MediaTime>,
}

/// The time that is widened in place of one that would lie before the last, after a pause: that of
/// the other half of the 32 bits.
fn half_on(rtp_time: u32) -> u32
    ensures { result ≡ turned_half rtp_time }
{
    rtp_time.wrapping_add(0x8000_0000)
}

/// A time of a stream that was paused, widened by the last one: where that is before the last one,
/// the time half of the 32 bits on is widened instead, if it then lies behind the last one.
fn after_pause(last: u64, rtp_time: u32) -> u64
    ensures { result ≡ time_after (Some last) true rtp_time }
{
    let time = widen32(Some(last), rtp_time);
    if time >= last {
        return time;
    }
    let later = widen32(Some(last), half_on(rtp_time));
    if later > last { later } else { time }
}

impl TimeLine {
    /// No time came.
    pub fn new() -> Self
        ensures { result ≡ record { last = None } }
    {
        TimeLine { last: None }
    }

    /// The time of a packet, widened by the last one. Where the stream was paused before the
    /// packet, and the time would lie before the last one, the time half of the 32 bits on is taken
    /// instead, if it lies behind the last one.
    pub fn widened(&self, rtp_time: u32, was_paused: bool) -> u64
        ensures { result ≡ time_after (option_map (λ t. t.numer) self.now.last) was_paused rtp_time }
    {
        match self.last {
            Some(last) if was_paused => after_pause(last.numer, rtp_time),
            Some(last) => widen32(Some(last.numer), rtp_time),
            None => widen32(None, rtp_time),
        }
    }

    /// Takes in the time of a packet, in ticks of its clock, and gives it widened.
    pub fn take(&mut self, rtp_time: u32, was_paused: bool, clock: Frequency) -> MediaTime
        ensures time { result ≡ record {
          frequency = clock;
          numer = time_after (option_map (λ t. t.numer) self.old.last) was_paused rtp_time;
        } }
        ensures last { self.new ≡ record { last = Some result } }
    {
        let numer = self.widened(rtp_time, was_paused);
        self.last = Some(MediaTime::new(numer, clock));
        MediaTime::new(numer, clock)
    }
}

/// A time within half of the 32 bits of the last one widens to itself.
pub fn times_widen_nearest()
    ensures { TimesWidenNearest }
{}

/// A widened time has the 32 bits that came, also after a pause unless half of them was added.
pub fn times_keep_low_bits()
    ensures { TimesKeepLowBits }
{}

/// A time after a pause does not lie before the last one, unless it is exactly half of the 32 bits
/// before it.
pub fn pauses_move_on()
    ensures { PausesMoveOn }
{}
