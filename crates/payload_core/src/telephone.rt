//! Telephone events (RFC 4733): the tones of keys, told instead of heard.
ghost use Rattle.std.specs.Prelude.{◌≡◌, ◌≤◌};
ghost use Rattle.payload_core.specs.Telephone.{units_of, duration_of, EventReadsBack, UnitsComeBack};

use media_units::Duration;
use rtp_base::wire;
use rtp_wire::Frequency;

/// The bytes of a telephone event (RFC 4733 section 2.3).
pub const TELE_EVENT_LEN: usize = 4;

/// The greatest volume of a telephone event, as dBm0 without the sign: it has 6 bits (RFC 4733
/// section 2.3).
pub const TELE_VOLUME_MAX: u8 = 63;

/// A telephone event (RFC 4733 section 2.3).
#[derive(Clone, Copy, Debug, PartialEq, Eq)]
pub struct TelephoneEvent {
    /// Which event it is; 0 to 15 are the keys of a telephone (RFC 4733 section 3.2).
    pub event: u8,
    /// Whether it has ended.
    pub end: bool,
    /// How loud the tone is, as dBm0 without the sign, 0 to 63.
    pub volume: u8,
    /// How long it has lasted so far. On the wire 16 bits of ticks of the RTP clock.
    pub duration: Duration,
}

/// How long so many ticks of a clock are, rounded up to a nanosecond.
pub fn duration_from_units(units: u16, clock_rate: Frequency) -> Duration
    ensures { result ≡ duration_of clock_rate units }
{
    let ticks = u64::from(clock_rate.get());
    Duration::from_nanos((u64::from(units) * 1_000_000_000 + (ticks - 1)) / ticks)
}

// The whole ticks of a clock in a length of time.
fn whole_units(duration: Duration, clock_rate: Frequency) -> u128
    ensures { result ≡ units_of clock_rate duration }
{
    u128::from(duration.as_nanos()) * u128::from(clock_rate.get()) / 1_000_000_000
}

impl TelephoneEvent {
    ghost use Rattle.payload_core.specs.Telephone.{event_of, bytes_of};

    /// The event that the first four bytes of a payload tell, in a clock. None exactly where fewer
    /// than four stand.
    pub fn parse(bytes: &[u8], clock_rate: Frequency) -> Option<Self>
        ensures { result ≡ event_of clock_rate bytes.now }
    {
        if bytes.len() < TELE_EVENT_LEN {
            return None;
        }
        Some(TelephoneEvent {
            event: bytes[0],
            end: bytes[1] / 128 == 1,
            volume: bytes[1] % 64,
            duration: duration_from_units(wire::half(bytes, 2), clock_rate),
        })
    }

    /// The event in bytes, its duration in whole ticks of a clock, rounded down. None exactly where
    /// these are above 65,535.
    pub fn to_bytes(&self, clock_rate: Frequency) -> Option<[u8; TELE_EVENT_LEN]>
        requires { self.now.volume ≤ TELE_VOLUME_MAX }
        ensures { result ≡ bytes_of clock_rate self.now }
    {
        let units = whole_units(self.duration, clock_rate);
        if units > 65_535 {
            return None;
        }
        let [high, low] = (units as u16).to_be_bytes();
        let end = if self.end { 128 } else { 0 };
        Some([self.event, end + self.volume, high, low])
    }
}

/// A telephone event in bytes is read again, of its duration the whole ticks.
#[tactic(auto, using(crate::proofs::Tones::events_again))]
pub fn telephone_events_are_read_again()
    ensures { EventReadsBack }
{}

/// Ticks of a clock of at most 10^9 in a second are the same again when their duration is counted.
#[tactic(auto, using(crate::proofs::Tones::units_again))]
pub fn units_come_back()
    ensures { UnitsComeBack }
{}
