ghost use Rattle.std.specs.Prelude.{◌≡◌, ◌+◌, ◌*◌, ◌^◌, ◌<◌, ◌≤◌, None};
ghost use Rattle.repair_core.specs.Jitter.{distance as distance_of, nanos_of, deviation as deviation_of, next_jitter, units_of, entered, jitter_after, rtp_jitter};

use media_units::Instant;

/// When a packet arrived, and its RTP time, in so many units a second.
#[derive(Clone, Copy, Debug, PartialEq, Eq)]
pub struct TimePoint {
    /// When it arrived.
    pub arrival: Instant,
    /// Its RTP time.
    pub rtp_time: u32,
    /// How many units of the RTP clock a second has, at least 1 where the packet enters the jitter.
    pub clock_rate: u32,
}

/// The interarrival jitter (RFC 3550 sections 6.4.1 and A.8), in 65,536ths of a nanosecond, below
/// 2^82, and the last packet that entered it.
#[derive(Clone, Copy, Debug)]
pub struct Jitter {
    pub last: Option<TimePoint>,
    pub value: u128,
}

impl Jitter {
    /// The jitter that no packet entered.
    pub fn new() -> Self
        ensures last { result.last ≡ None }
        ensures value { result.value ≡ 0 }
    {
        Jitter {
            last: None,
            value: 0,
        }
    }

    /// Takes a packet in, unless it has the RTP time of the last one that entered.
    pub fn enter(&mut self, point: TimePoint)
        requires rate { 0 < point.clock_rate }
        requires small { self.old.value < 2 ^ 82 }
        ensures last { self.new.last ≡ entered self.old.last point }
        ensures value { self.new.value ≡ jitter_after self.old.value self.old.last point }
        ensures small { self.new.value < 2 ^ 82 }
    {
        *self = self.after(point);
    }

    fn after(self, point: TimePoint) -> Jitter
        requires rate { 0 < point.clock_rate }
        requires small { self.value < 2 ^ 82 }
        ensures last { result.last ≡ entered self.last point }
        ensures value { result.value ≡ jitter_after self.value self.last point }
        ensures small { result.value < 2 ^ 82 }
    {
        let Jitter { last, value } = self;
        let Some(last) = last else {
            return Jitter {
                last: Some(point),
                value,
            };
        };
        if last.rtp_time == point.rtp_time {
            return Jitter {
                last: Some(last),
                value,
            };
        }
        let value = next(value, deviation(&last, &point));
        Jitter {
            last: Some(point),
            value,
        }
    }

    /// The jitter in units of the last packet's RTP clock, rounded half up, at most 2^32 - 1.
    pub fn in_rtp_ts(&self) -> u32
        requires { self.now.value < 2 ^ 82 }
        ensures { result ≡ rtp_jitter self.now.last self.now.value }
    {
        match self.last {
            Some(last) => in_units(self.value, last.clock_rate),
            None => 0,
        }
    }
}

fn in_units(value: u128, rate: u32) -> u32
    requires { value < 2 ^ 82 }
    ensures { result ≡ units_of value rate }
{
    let units = (value * u128::from(rate) + 32_768_000_000_000) / 65_536_000_000_000;
    units.min(u128::from(u32::MAX)) as u32
}

fn next(value: u128, deviation: u128) -> u128
    requires value { value < 2 ^ 82 }
    requires deviation { deviation < 2 ^ 66 }
    ensures value { result ≡ next_jitter value deviation }
    ensures small { result < 2 ^ 82 }
{
    (15 * value + 65_536 * deviation) / 16
}

/// How far the time between two arrivals is from the time between their RTP times, in nanoseconds.
fn deviation(last: &TimePoint, point: &TimePoint) -> u128
    requires { 0 < point.now.clock_rate }
    ensures value { result ≡ deviation_of last.now point.now }
    ensures small { result < 2 ^ 66 }
{
    let steps = point.rtp_time.wrapping_sub(last.rtp_time);
    let before = u128::from(last.arrival.as_nanos());
    let after = u128::from(point.arrival.as_nanos());
    if steps < 0x8000_0000 {
        let length = nanos(u64::from(steps), point.clock_rate);
        distance(after, before + u128::from(length))
    } else {
        let length = nanos(0x1_0000_0000 - u64::from(steps), point.clock_rate);
        distance(after + u128::from(length), before)
    }
}

fn distance(a: u128, b: u128) -> u128
    ensures value { result ≡ distance_of a b }
    ensures small { result ≤ a + b }
{
    if a < b { b - a } else { a - b }
}

/// So many units of an RTP clock, cut to nanoseconds.
fn nanos(units: u64, rate: u32) -> u64
    requires units { units ≤ 2 ^ 32 }
    requires rate { 0 < rate }
    ensures value { result ≡ nanos_of units rate }
    ensures small { result < 2 ^ 63 }
{
    units * 1_000_000_000 / u64::from(rate)
}
