use media_units::{Bitrate, DataSize, Duration, Instant};
use pace_units::{
    PacerControl, ProbeClusterConfig, ProbeClusterState, ProbeKind, QueuePriority, QueueSnapshot,
};
use rtp_base::TwccClusterId;
use std::process::Abort;

// A call of a cluster, and what it answers. Moments are in microseconds.
#[derive(Clone, Copy)]
enum Call {
    // The size that is asked for at a moment.
    Ask(u64, Option<u64>),
    // A packet of a size is sent at a moment.
    Send(u64, u64),
    // When the next packet is due, in nanoseconds.
    Time(u64),
    // Whether one is due at a moment.
    Due(u64, bool),
    // Whether all was sent.
    Complete(bool),
}

use Call::{Ask, Complete, Due, Send, Time};

fn micros(count: u64) -> Instant {
    Instant::from_nanos(0).saturating_add(Duration::from_micros(count))
}

// 15 ms at 960 kbit/s are 1,800 bytes, and 2 ms are 240.
fn config(kilobits: u64) -> ProbeClusterConfig {
    ProbeClusterConfig::new(
        TwccClusterId::from(7),
        Bitrate::kbps(kilobits),
        ProbeKind::Initial,
    )
}

fn sizes(size: Option<DataSize>) -> Option<u64> {
    match size {
        Some(size) => Some(size.as_u64()),
        None => None,
    }
}

// Makes a call, and whether it answers what it has to.
fn agrees(cluster: &mut ProbeClusterState, call: &Call) -> bool {
    match *call {
        Ask(now, size) => sizes(cluster.next_packet(micros(now))) == size,
        Send(now, size) => {
            cluster.record_packet(micros(now), DataSize::bytes(size));
            true
        }
        Time(nanos) => cluster.next_probe_time().as_nanos() == nanos,
        Due(now, due) => cluster.should_send_now(micros(now)) == due,
        Complete(whole) => cluster.is_complete(micros(0)) == whole,
    }
}

fn follows(rt: &impl Abort, config: ProbeClusterConfig, calls: &[Call]) {
    let mut cluster = ProbeClusterState::new(config);
    for (i, call) in calls.iter().enumerate() {
        assert!(rt; agrees(&mut cluster, call), "call {i}");
    }
}

// The first padding comes 2 ms after the beginning, the next ones 2 ms apart and not before the
// bytes sent would have left at the rate; at the end so many bytes as are left; and where only a
// packet is missing 240.
static WHOLE: [Call; 18] = [
    Time(0),
    Ask(1_999, None),
    Ask(2_000, Some(240)),
    Ask(2_000, None),
    Send(2_000, 240),
    // The cluster was started at 1,999 us, when it was asked first.
    Time(4_000_000),
    Due(3_999, false),
    Due(4_000, true),
    Send(2_000, 1_000),
    Send(3_000, 500),
    Time(16_499_000),
    Ask(16_498, None),
    Ask(16_499, Some(60)),
    Send(16_499, 60),
    Complete(false),
    Ask(18_499, Some(240)),
    Send(18_499, 1),
    Complete(true),
];

// All of it was sent: no bytes are left to ask for.
static SPENT: [Call; 5] = [
    Send(2_000, 1_800),
    Complete(false),
    Send(2_000, 1),
    Complete(true),
    Ask(20_000, None),
];

// At rate 0 none is due once it was started, and a cluster of no bytes and no packets ends as it
// starts.
static ZERO: [Call; 5] = [
    Time(0),
    Complete(false),
    Ask(2_000, None),
    Time(3_153_600_000_000_000_000),
    Complete(true),
];

static NONE: [Call; 4] = [
    Complete(false),
    Ask(1_999, None),
    Complete(true),
    Ask(2_000, None),
];

// Without a delta padding is asked for once at a moment, and never at moment 0.
static CLOSE: [Call; 4] = [
    Ask(0, None),
    Ask(1, Some(240)),
    Ask(1, None),
    Ask(2, Some(240)),
];

// 8 bits at 3 bit/s, rounded up.
static SLOW: [Call; 3] = [Send(0, 1), Time(2_666_666_667), Complete(false)];

#[test]
fn clusters_at_their_edges(rt: HostRuntime) {
    follows(&rt, config(960), &WHOLE);
    follows(&rt, config(960).with_min_packet_count(2), &SPENT);
    follows(&rt, config(0).with_min_packet_count(0), &ZERO);
    follows(
        &rt,
        config(960)
            .with_duration(Duration::ZERO)
            .with_min_packet_count(0),
        &NONE,
    );
    follows(
        &rt,
        config(960).with_min_probe_delta(Duration::ZERO),
        &CLOSE,
    );
    follows(
        &rt,
        ProbeClusterConfig::new(TwccClusterId::from(7), Bitrate::bps(3), ProbeKind::Initial),
        &SLOW,
    );
}

// The first probe of a session is sent whatever the application sends, a periodic one where it
// sends less than it may.
#[test]
fn probes_of_silence(rt: HostRuntime) {
    for (kind, alr) in [(ProbeKind::Initial, false), (ProbeKind::PeriodicAlr, true)] {
        let config = ProbeClusterConfig::new(TwccClusterId::from(7), Bitrate::mbps(1), kind);
        assert_eq!(rt; config.is_alr_probe(), alr);
    }
}

// Media is active, the link is overused, the estimate, the least rate, and the rates of padding and
// of pacing, in kbit/s.
static RATES: [(bool, bool, u64, u64, u64, u64); 8] = [
    (true, false, 450, 800, 450, 495),
    (true, false, 700, 800, 700, 770),
    (true, false, 1_000, 800, 800, 1_100),
    (true, false, 300, 800, 300, 330),
    (true, false, 1_000, 0, 50, 1_100),
    (false, false, 450, 800, 0, 495),
    (true, true, 450, 800, 0, 495),
    (true, false, 10_000_000, 0, 50, 10_000_000),
];

#[test]
fn pacer_control(rt: HostRuntime) {
    let control = PacerControl::new();
    for (active, overused, estimate, minimum, padding, pacing) in RATES.iter() {
        let rates = control.calculate(
            *active,
            Bitrate::kbps(*estimate),
            *overused,
            Bitrate::kbps(*minimum),
        );
        assert_eq!(rt;
            rates.padding_rate,
            Bitrate::kbps(*padding),
            "at {estimate}"
        );
        assert_eq!(rt; rates.pacing_rate, Bitrate::kbps(*pacing), "at {estimate}");
    }
}

// A queue of three packets that waited for 7 ms together when the snapshot was made, at 10 ms.
fn waiting() -> QueueSnapshot {
    let mut snapshot = QueueSnapshot::default();
    snapshot.created_at = micros(10_000);
    snapshot.byte_size = 300;
    snapshot.packet_count = 3;
    snapshot.total_queue_time_origin = Duration::from_millis(7);
    snapshot.last_emitted = Some(micros(2));
    snapshot.first_unsent = Some(micros(4));
    snapshot.update_priority(QueuePriority::Padding);
    snapshot
}

#[test]
fn snapshots_wait_and_merge(rt: HostRuntime) {
    let snapshot = waiting();
    for (now, wait) in [(12u64, 13u64), (10, 7), (4, 7)] {
        assert_eq!(rt;
            snapshot.total_queue_time(micros(0).saturating_add(Duration::from_millis(now))),
            Duration::from_millis(wait)
        );
    }
    let far = Instant::from_nanos(u64::MAX);
    assert_eq!(rt; snapshot.total_queue_time(far).as_nanos(), u64::MAX);
    let mut whole = QueueSnapshot::default();
    whole.merge(&waiting());
    assert!(rt; whole == waiting());
    whole.merge(&QueueSnapshot {
        created_at: micros(5),
        byte_size: usize::MAX,
        packet_count: u32::MAX,
        total_queue_time_origin: Duration::from_millis(3),
        last_emitted: Some(micros(3)),
        first_unsent: Some(micros(5)),
        priority: QueuePriority::Media,
    });
    let both = QueueSnapshot {
        created_at: micros(5),
        byte_size: usize::MAX,
        packet_count: u32::MAX,
        total_queue_time_origin: Duration::from_millis(10),
        last_emitted: Some(micros(3)),
        first_unsent: Some(micros(4)),
        priority: QueuePriority::Media,
    };
    assert!(rt; whole == both);
}
