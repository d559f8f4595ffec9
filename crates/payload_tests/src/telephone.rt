ghost use Rattle.std.specs.Prelude.{◌≡◌};

use media_units::Duration;
use payload_core::{CodecExtra, TelephoneEvent, TelephoneFault, duration_from_units};
use rtp_base::Frequency;
use std::process::Abort;

// Durations are in ticks of the clock on the wire (RFC 4733 section 2.3.5): 8,000 of them are a
// second of G.711, 48,000 one of Opus. Parts of a nanosecond are rounded up.
#[test]
fn durations_of_ticks(rt: HostRuntime) {
    let rows = [
        (0, Frequency::EIGHT_KHZ, 0),
        (1, Frequency::EIGHT_KHZ, 125_000),
        (65_535, Frequency::EIGHT_KHZ, 8_191_875_000),
        (0, Frequency::FORTY_EIGHT_KHZ, 0),
        (1, Frequency::FORTY_EIGHT_KHZ, 20_834),
        (65_535, Frequency::FORTY_EIGHT_KHZ, 1_365_312_500),
    ];
    for (units, clock, nanos) in rows {
        assert_eq!(rt;
            duration_from_units(units, clock).as_nanos(),
            nanos,
            "{units}"
        );
    }
}

// The digit 5, ended, at -10 dBm0.
fn digit(nanos: u64) -> TelephoneEvent
    ensures { result.volume ≡ 10 }
{
    TelephoneEvent {
        event: 5,
        end: true,
        volume: 10,
        duration: Duration::from_nanos(nanos),
    }
}

static TICKS_OF_8_KHZ: [(u64, Option<[u8; 4]>); 6] = [
    (0, Some([5, 0x8a, 0, 0])),
    (124_999, Some([5, 0x8a, 0, 0])),
    (125_000, Some([5, 0x8a, 0, 1])),
    (8_191_875_000, Some([5, 0x8a, 255, 255])),
    (8_191_999_999, Some([5, 0x8a, 255, 255])),
    (8_192_000_000, None),
];

static TICKS_OF_48_KHZ: [(u64, Option<[u8; 4]>); 4] = [
    (0, Some([5, 0x8a, 0, 0])),
    (20_834, Some([5, 0x8a, 0, 1])),
    (1_365_333_333, Some([5, 0x8a, 255, 255])),
    (1_365_333_334, None),
];

fn has_ticks(rt: &impl Abort, clock: Frequency, rows: &[(u64, Option<[u8; 4]>)]) {
    for (nanos, bytes) in rows {
        assert_eq!(rt; digit(*nanos).to_bytes(clock), *bytes, "{nanos} ns");
    }
}

// A tick that has not passed does not count, and 65,536 ticks do not fit.
#[test]
fn ticks_of_durations(rt: HostRuntime) {
    has_ticks(&rt, Frequency::EIGHT_KHZ, &TICKS_OF_8_KHZ);
    has_ticks(&rt, Frequency::FORTY_EIGHT_KHZ, &TICKS_OF_48_KHZ);
}

// An event, its end, a reserved bit that is passed over, its volume and 16 bits of ticks (RFC 4733
// section 2.3); what stands behind the four bytes is passed over.
#[test]
fn events_are_read(rt: HostRuntime) {
    let bytes = [5, 0xca, 0, 1, 7];
    for len in 0..4 {
        let cut = TelephoneEvent::parse(&bytes[..len], Frequency::EIGHT_KHZ);
        assert_eq!(rt; cut, None, "{len} bytes");
    }
    let read = TelephoneEvent::parse(&bytes, Frequency::EIGHT_KHZ);
    assert_eq!(rt; read, Some(digit(125_000)));
}

// What came with the packets of an event is no picture, and a fault of one has words for it: its
// volume has 6 bits (RFC 4733 section 2.3.4).
#[test]
fn events_are_no_pictures(rt: HostRuntime) {
    assert!(rt; !CodecExtra::Tele(digit(125_000)).is_keyframe());
    assert_eq!(rt;
        TelephoneFault::VolumeTooGreat.reason(),
        "volume exceeds 63"
    );
}
