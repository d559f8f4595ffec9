use crate::steps::Kind::{Apart, Fresh, Padding, Sent, Unpaced};
use crate::steps::Seen::{Asked, Gave, Nothing, Wakes};
use crate::steps::Step::{Poll, Send, Timeout, Wake};
use crate::steps::{Held, Queues, Seen, Step, at, number_of, play};
use media_units::{Bitrate, Duration};
use pace_core::{
    LeakyBucketPacer, NullPacer, PaceEntry, PaceLog, Pacer, PacerImpl, PacerReason,
    ProbeClusterConfig, ProbeKind, Reason,
};
use rtp_base::TwccClusterId;
use std::alloc::{AllocError, Global};
use std::process::Abort;

const HANDLE: Reason = Reason::Pacer(PacerReason::Handle);

const IMMEDIATE: Reason = Reason::Pacer(PacerReason::Immediate);

const PACED: Reason = Reason::Pacer(PacerReason::Paced);

const PADDING: Reason = Reason::Pacer(PacerReason::Padding);

const PROBE: Reason = Reason::Pacer(PacerReason::Probe1);

const PROBE_PADDING: Reason = Reason::Pacer(PacerReason::Probe2);

const EMPTY: Queues = &[Held(b'v', 0, 0, Fresh)];

// Plays each step and compares what is seen.
fn follows<P: Pacer>(
    rt: &impl Abort,
    alloc: Global,
    pacer: &mut P,
    table: &[(Step, Seen)],
) -> Result<(), AllocError> {
    for (i, (step, wanted)) in table.iter().enumerate() {
        let seen = play(rt, alloc, pacer, *step)?;
        assert!(rt; seen == *wanted, "step {i}");
    }
    Ok(())
}

// Ten packets of 1,000 bytes at 1 Mbit/s, at one moment: five are let out, and then none for 40 ms.
static ROUNDS: [(u32, usize, u128); 5] = [
    (10, 10_000, 0),
    (9, 9_000, 8_000),
    (8, 8_000, 16_000),
    (7, 7_000, 24_000),
    (6, 6_000, 32_000),
];

static SIXTH: [(Step<'static>, Seen); 3] = [
    (Timeout(1, &[Held(b'v', 5, 5_000, Fresh)]), Asked(None)),
    (Poll, Gave(None)),
    (Wake, Wakes(Some(40_000_001), PACED)),
];

fn burst(rt: &impl Abort, alloc: Global) -> Result<(), AllocError> {
    let mut pacer = LeakyBucketPacer::new(alloc, Bitrate::mbps(1));
    for (count, bytes, bits) in ROUNDS.iter() {
        assert_eq!(rt; pacer.debt().as_billionths() / 1_000_000_000, *bits);
        let queues = [Held(b'v', *count, *bytes, Fresh)];
        let table = [
            (Timeout(1, &queues), Asked(None)),
            (Poll, Gave(Some((b'v', None)))),
            (Send(1, 1_000, b'v'), Nothing),
        ];
        follows(rt, alloc, &mut pacer, &table)?;
    }
    follows(rt, alloc, &mut pacer, &SIXTH)
}

#[test]
fn leaky_burst(rt: HostRuntime) {
    assert!(rt; burst(&rt, rt.alloc()).is_ok());
}

// Before anything was sent the first queue that holds packets, also before an unpaced one; then the
// unpaced one that waits longest, and of equals the first.
const MIXED: Queues = &[
    Held(b'e', 0, 0, Fresh),
    Held(b'v', 1, 100, Fresh),
    Held(b'b', 1, 100, Unpaced(3)),
];

const UNPACED: Queues = &[
    Held(b'v', 1, 100, Fresh),
    Held(b'a', 1, 100, Unpaced(7)),
    Held(b'b', 1, 100, Unpaced(3)),
    Held(b'c', 1, 100, Unpaced(3)),
];

static FIRST: [(Step<'static>, Seen); 14] = [
    (Wake, Wakes(None, Reason::NotHappening)),
    (Poll, Gave(None)),
    (Timeout(10, MIXED), Asked(None)),
    (Wake, Wakes(Some(40_000_010), HANDLE)),
    (Poll, Gave(Some((b'v', None)))),
    (Wake, Wakes(Some(1_010), IMMEDIATE)),
    (Poll, Gave(None)),
    (Send(10, 100, b'v'), Nothing),
    (Timeout(11, UNPACED), Asked(None)),
    (Poll, Gave(Some((b'b', None)))),
    // An unpaced queue without packets is passed over.
    (
        Timeout(
            12,
            &[Held(b'a', 0, 0, Unpaced(1)), Held(b'v', 1, 100, Fresh)],
        ),
        Asked(None),
    ),
    (Poll, Gave(Some((b'v', None)))),
    // Each timeout chooses anew.
    (Timeout(13, &[]), Asked(None)),
    (Poll, Gave(None)),
];

// The one that was sent on longest ago, of equals the first; one that was never sent on before all;
// media before padding.
static TURNS: [(Step<'static>, Seen); 11] = [
    (Send(0, 0, b'v'), Nothing),
    (
        Timeout(
            10,
            &[
                Held(b'u', 1, 100, Sent(9)),
                Held(b'v', 1, 100, Sent(5)),
                Held(b'w', 1, 100, Sent(5)),
            ],
        ),
        Asked(None),
    ),
    (Wake, Wakes(Some(10), PACED)),
    (Poll, Gave(Some((b'v', None)))),
    (
        Timeout(
            10,
            &[
                Held(b'p', 1, 100, Padding(1)),
                Held(b'v', 1, 100, Sent(5)),
                Held(b'w', 1, 100, Fresh),
                Held(b'x', 1, 100, Fresh),
            ],
        ),
        Asked(None),
    ),
    (Poll, Gave(Some((b'w', None)))),
    (
        Timeout(
            10,
            &[Held(b'p', 1, 100, Padding(1)), Held(b'v', 1, 100, Sent(5))],
        ),
        Asked(None),
    ),
    (Poll, Gave(Some((b'v', None)))),
    (
        Timeout(
            10,
            &[Held(b'e', 0, 0, Fresh), Held(b'p', 1, 100, Padding(1))],
        ),
        Asked(None),
    ),
    (Poll, Gave(Some((b'p', None)))),
    (Poll, Gave(None)),
];

// Padding is asked of the queue that was sent on last, of equals the last; where both debts are
// drained; not beside packets that are held; and only of queues for it. 5 ms at 50 kbit/s are 31
// bytes.
static PADDED: [(Step<'static>, Seen); 28] = [
    (Step::Padding(50_000), Nothing),
    (Timeout(5, EMPTY), Asked(Some((b'v', 31)))),
    (Wake, Wakes(Some(40_000_005), HANDLE)),
    (Poll, Gave(Some((b'v', None)))),
    (Send(5, 31, b'v'), Nothing),
    (Timeout(1_000_000, EMPTY), Asked(None)),
    (Wake, Wakes(Some(4_960_005), PADDING)),
    (Poll, Gave(None)),
    (Timeout(4_960_004, EMPTY), Asked(None)),
    (Timeout(4_960_005, EMPTY), Asked(Some((b'v', 31)))),
    (
        Timeout(5_000_000, &[Held(b'v', 1, 100, Fresh)]),
        Asked(None),
    ),
    (Poll, Gave(Some((b'v', None)))),
    (Timeout(5_000_000, &[Held(b'v', 0, 0, Apart)]), Asked(None)),
    (Wake, Wakes(Some(45_000_000), HANDLE)),
    (
        Timeout(
            5_000_000,
            &[
                Held(b'u', 0, 0, Sent(3)),
                Held(b'v', 0, 0, Sent(9)),
                Held(b'w', 0, 0, Sent(9)),
                Held(b'x', 0, 0, Fresh),
            ],
        ),
        Asked(Some((b'w', 31))),
    ),
    (
        Timeout(
            5_000_000,
            &[Held(b'v', 0, 0, Fresh), Held(b'w', 0, 0, Fresh)],
        ),
        Asked(Some((b'w', 31))),
    ),
    // A debt of 8 bits at 10 Gbit/s drains at once; the wake is 1,000 ns on.
    (Step::Pacing(10_000_000_000), Nothing),
    (Step::Padding(10_000_000_000), Nothing),
    (Timeout(5_000_000, EMPTY), Asked(Some((b'v', 6_250_000)))),
    (Send(5_000_000, 1, b'v'), Nothing),
    (Timeout(5_000_000, EMPTY), Asked(None)),
    (Wake, Wakes(Some(5_001_000), PADDING)),
    // At rate 0 no padding is waited for; at 1 kbit/s the 8 bits drain in 8 ms, and no byte is
    // asked for then.
    (Step::Padding(0), Nothing),
    (Timeout(5_000_000, EMPTY), Asked(None)),
    (Wake, Wakes(Some(45_000_000), HANDLE)),
    (Step::Padding(1_000), Nothing),
    (Timeout(12_999_999, EMPTY), Asked(None)),
    (Timeout(13_000_000, EMPTY), Asked(Some((b'v', 0)))),
];

const NOTHING_HELD: Queues = &[Held(b'v', 1, 0, Fresh)];

// The debt in bits after each step, and the rate of the last timeout. A debt is cut to 500 ms at
// the rate, and drains at the rate of the timeout before, whatever is set since; at exactly the
// burst of 4,000 bits none is let out, and a nanosecond later one is.
static OWED: [(Step<'static>, Seen, u64, u64); 17] = [
    (Timeout(0, NOTHING_HELD), Asked(None), 0, 1_000_000),
    (Send(0, 100_000, b'v'), Nothing, 500_000, 1_000_000),
    (Step::Pacing(100_000), Nothing, 500_000, 1_000_000),
    (
        Timeout(100_000_000, NOTHING_HELD),
        Asked(None),
        400_000,
        100_000,
    ),
    (Poll, Gave(None), 400_000, 100_000),
    (Wake, Wakes(Some(140_000_000), HANDLE), 400_000, 100_000),
    (
        Timeout(4_060_000_000, NOTHING_HELD),
        Asked(None),
        4_000,
        100_000,
    ),
    (Poll, Gave(None), 4_000, 100_000),
    (Wake, Wakes(Some(4_100_000_000), PACED), 4_000, 100_000),
    (
        Timeout(4_060_010_000, NOTHING_HELD),
        Asked(None),
        3_999,
        100_000,
    ),
    (Poll, Gave(Some((b'v', None))), 3_999, 100_000),
    // At rate 0 nothing is let out, and no debt is kept.
    (Step::Pacing(0), Nothing, 3_999, 100_000),
    (Timeout(4_060_020_000, NOTHING_HELD), Asked(None), 3_998, 0),
    (Poll, Gave(None), 3_998, 0),
    (Wake, Wakes(Some(4_100_020_000), HANDLE), 3_998, 0),
    (Send(4_060_020_000, 1_000, b'v'), Nothing, 0, 0),
    // What waited for 2 s and more is drained in 1 ms.
    (
        Timeout(4_060_020_000, &[Held(b'v', 1, 1_000, Fresh)]),
        Asked(None),
        0,
        8_000_000,
    ),
];

// Two packets that waited for 1.5 s each have 0.5 s left: 1,000 bytes take 16 kbit/s.
static RAISED: [(Step<'static>, Seen, u64, u64); 9] = [
    (Step::Pacing(0), Nothing, 0, 0),
    (
        Timeout(
            1_500_000_000,
            &[Held(b'u', 1, 400, Fresh), Held(b'v', 1, 600, Fresh)],
        ),
        Asked(None),
        0,
        16_000,
    ),
    // The rate is at most 10 Gbit/s, and the burst 504,000 bits.
    (
        Timeout(1_500_000_000, &[Held(b'v', 1, 1_000_000_000, Fresh)]),
        Asked(None),
        0,
        10_000_000_000,
    ),
    (
        Send(1_500_000_000, 62_999, b'v'),
        Nothing,
        503_992,
        10_000_000_000,
    ),
    (
        Timeout(1_500_000_000, &[Held(b'v', 1, 1_000_000_000, Fresh)]),
        Asked(None),
        503_992,
        10_000_000_000,
    ),
    (Poll, Gave(Some((b'v', None))), 503_992, 10_000_000_000),
    (
        Send(1_500_000_000, 1, b'v'),
        Nothing,
        504_000,
        10_000_000_000,
    ),
    (
        Timeout(1_500_000_000, &[Held(b'v', 1, 1_000_000_000, Fresh)]),
        Asked(None),
        504_000,
        10_000_000_000,
    ),
    (Poll, Gave(None), 504_000, 10_000_000_000),
];

fn owes(
    rt: &impl Abort,
    alloc: Global,
    pacer: &mut LeakyBucketPacer,
    table: &[(Step, Seen, u64, u64)],
) -> Result<(), AllocError> {
    for (i, (step, wanted, bits, rate)) in table.iter().enumerate() {
        let seen = play(rt, alloc, pacer, *step)?;
        let owed = pacer.debt().as_billionths() / 1_000_000_000;
        let owes = owed == *bits as u128 && pacer.rate() == Bitrate::bps(*rate);
        assert!(rt; seen == *wanted && owes, "step {i}");
    }
    Ok(())
}

// 480 bytes in at least two packets, at 1,920 kbit/s for 2 ms.
fn cluster(number: u64) -> ProbeClusterConfig {
    ProbeClusterConfig::new(
        TwccClusterId::from(number),
        Bitrate::kbps(1_920),
        ProbeKind::Initial,
    )
    .with_duration(Duration::from_millis(2))
    .with_min_packet_count(2)
}

const ONE_HELD: Queues = &[Held(b'v', 1, 240, Fresh)];

// The cluster that runs after each step, and the one that ended. Padding is asked for 2 ms after
// the beginning at the earliest and then each 2 ms; media counts too; a second cluster follows at
// once.
type Probing = (Step<'static>, Seen, Option<u64>, Option<u64>);

static IN_A_ROW: [Probing; 16] = [
    (Timeout(1_999_999, EMPTY), Asked(None), Some(1), None),
    (Wake, Wakes(Some(0), PROBE_PADDING), Some(1), None),
    (
        Timeout(2_000_000, EMPTY),
        Asked(Some((b'v', 480))),
        Some(1),
        None,
    ),
    (Poll, Gave(Some((b'v', Some(1)))), Some(1), None),
    (Send(2_000_000, 240, b'v'), Nothing, Some(1), None),
    (Timeout(2_000_000, EMPTY), Asked(None), Some(1), None),
    (Wake, Wakes(Some(4_000_000), PROBE_PADDING), Some(1), None),
    (Timeout(3_999_999, ONE_HELD), Asked(None), Some(1), None),
    (Poll, Gave(None), Some(1), None),
    (Wake, Wakes(Some(4_000_000), PROBE), Some(1), None),
    (Timeout(4_000_000, ONE_HELD), Asked(None), Some(1), None),
    (Poll, Gave(Some((b'v', Some(1)))), Some(1), None),
    (Send(4_000_000, 240, b'v'), Nothing, Some(2), Some(1)),
    (
        Timeout(4_000_000, EMPTY),
        Asked(Some((b'v', 480))),
        Some(2),
        None,
    ),
    // Its bytes are sent, and a packet is missing.
    (Send(4_000_000, 480, b'v'), Nothing, Some(2), None),
    (
        Timeout(6_000_000, EMPTY),
        Asked(Some((b'v', 240))),
        Some(2),
        None,
    ),
];

// Without a queue for padding all clusters are dropped, where no packets are held.
static STARVED: [Probing; 3] = [
    (
        Timeout(2_000_000, &[Held(b'v', 1, 240, Apart)]),
        Asked(None),
        Some(1),
        None,
    ),
    (
        Timeout(2_000_000, &[Held(b'v', 0, 0, Apart)]),
        Asked(None),
        None,
        None,
    ),
    (Timeout(4_000_000, EMPTY), Asked(None), None, None),
];

// A null pacer sends no cluster.
static NEVER: [Probing; 2] = [
    (Timeout(2_000_000, EMPTY), Asked(None), None, None),
    (Send(2_000_000, 480, b'v'), Nothing, None, None),
];

fn probes(
    rt: &impl Abort,
    alloc: Global,
    pacer: &mut PacerImpl,
    table: &[Probing],
) -> Result<(), AllocError> {
    pacer.start_probe(cluster(1))?;
    pacer.start_probe(cluster(2))?;
    for (i, (step, wanted, active, ended)) in table.iter().enumerate() {
        let seen = play(rt, alloc, pacer, *step)?;
        let runs = number_of(pacer.active_cluster()) == *active;
        let ends = number_of(pacer.check_probe_complete(at(0))) == *ended;
        assert!(rt; seen == *wanted && runs && ends, "step {i}");
    }
    Ok(())
}

// The rate of a timeout that drops the clusters is still theirs, and the pacing rate comes back
// after it.
static DROPPED: [(Step<'static>, Seen, u64, u64); 2] = [
    (Timeout(1, &[]), Asked(None), 0, 1_920_000),
    (Timeout(1, &[]), Asked(None), 0, 1_000_000),
];

#[test]
fn debts_of_a_leaky_bucket(rt: HostRuntime) {
    let mut pacer = LeakyBucketPacer::new(rt.alloc(), Bitrate::mbps(1));
    assert!(rt; owes(&rt, rt.alloc(), &mut pacer, &OWED).is_ok());
}

#[test]
fn rates_of_a_leaky_bucket(rt: HostRuntime) {
    let mut pacer = LeakyBucketPacer::new(rt.alloc(), Bitrate::mbps(1));
    assert!(rt; owes(&rt, rt.alloc(), &mut pacer, &RAISED).is_ok());
}

#[test]
fn rates_of_dropped_clusters(rt: HostRuntime) {
    let mut pacer = LeakyBucketPacer::new(rt.alloc(), Bitrate::mbps(1));
    assert!(rt; pacer.start_probe(cluster(1)).is_ok());
    assert!(rt; owes(&rt, rt.alloc(), &mut pacer, &DROPPED).is_ok());
}

#[test]
fn clusters_run_one_after_another(rt: HostRuntime) {
    let mut pacer = PacerImpl::leaky_bucket(rt.alloc(), Bitrate::mbps(1));
    assert!(rt; probes(&rt, rt.alloc(), &mut pacer, &IN_A_ROW).is_ok());
}

#[test]
fn clusters_without_padding(rt: HostRuntime) {
    let mut pacer = PacerImpl::leaky_bucket(rt.alloc(), Bitrate::mbps(1));
    assert!(rt; probes(&rt, rt.alloc(), &mut pacer, &STARVED).is_ok());
    let mut pacer = PacerImpl::null(rt.alloc());
    assert!(rt; probes(&rt, rt.alloc(), &mut pacer, &NEVER).is_ok());
}

// Packets leave at once, from the queue that was sent on longest ago; one that was never sent on
// goes before all, and of equals the first. After a poll the wake is when the snapshot was made,
// until a packet is sent or a timeout.
static NULL: [(Step<'static>, Seen); 23] = [
    (Step::Pacing(0), Nothing),
    (Step::Padding(1_000_000), Nothing),
    (Wake, Wakes(None, HANDLE)),
    (Poll, Gave(None)),
    (
        Timeout(
            5,
            &[
                Held(b'u', 2, 200, Fresh),
                Held(b'e', 0, 0, Fresh),
                Held(b'v', 1, 100, Fresh),
            ],
        ),
        Asked(None),
    ),
    (Poll, Gave(Some((b'u', None)))),
    (Wake, Wakes(Some(0), HANDLE)),
    (Send(6, 100, b'u'), Nothing),
    (Wake, Wakes(None, HANDLE)),
    (Poll, Gave(Some((b'v', None)))),
    (Send(7, 100, b'v'), Nothing),
    (Poll, Gave(Some((b'u', None)))),
    (Poll, Gave(None)),
    (Wake, Wakes(Some(0), HANDLE)),
    (
        Timeout(
            8,
            &[
                Held(b'v', 1, 100, Fresh),
                Held(b'u', 1, 100, Fresh),
                Held(b'w', 1, 100, Fresh),
                Held(b'x', 1, 100, Fresh),
            ],
        ),
        Asked(None),
    ),
    (Wake, Wakes(None, HANDLE)),
    (Poll, Gave(Some((b'w', None)))),
    (Poll, Gave(Some((b'x', None)))),
    (Poll, Gave(Some((b'u', None)))),
    (Poll, Gave(Some((b'v', None)))),
    (Poll, Gave(None)),
    (Timeout(9, EMPTY), Asked(None)),
    (Poll, Gave(None)),
];

#[test]
fn first_turns_of_a_leaky_bucket(rt: HostRuntime) {
    let mut pacer = PacerImpl::leaky_bucket(rt.alloc(), Bitrate::mbps(1));
    assert!(rt; follows(&rt, rt.alloc(), &mut pacer, &FIRST).is_ok());
}

#[test]
fn turns_of_a_leaky_bucket(rt: HostRuntime) {
    let mut pacer = PacerImpl::leaky_bucket(rt.alloc(), Bitrate::mbps(1));
    assert!(rt; follows(&rt, rt.alloc(), &mut pacer, &TURNS).is_ok());
}

#[test]
fn padding_of_a_leaky_bucket(rt: HostRuntime) {
    let mut pacer = PacerImpl::leaky_bucket(rt.alloc(), Bitrate::mbps(1));
    assert!(rt; follows(&rt, rt.alloc(), &mut pacer, &PADDED).is_ok());
}

#[test]
fn turns_of_a_null_pacer(rt: HostRuntime) {
    let mut pacer = PacerImpl::null(rt.alloc());
    assert!(rt; follows(&rt, rt.alloc(), &mut pacer, &NULL).is_ok());
    // The same without the choice of two kinds.
    let mut pacer = NullPacer::new(rt.alloc());
    assert!(rt; follows(&rt, rt.alloc(), &mut pacer, &NULL).is_ok());
}

// Calls that take memory and stand in no table.
#[test]
fn surface_ample(rt: HostRuntime) {
    let mut pacer = LeakyBucketPacer::new(rt.alloc(), Bitrate::mbps(1));
    assert!(rt; pacer.start_probe(cluster(3)).is_ok());
    assert!(rt; number_of(pacer.active_cluster()) == Some(3));
    assert!(rt; pacer.check_probe_complete(at(0)).is_none());
    let mut log = PaceLog::new(rt.alloc());
    assert!(rt; log.push(PaceEntry::Set).is_ok());
    assert_eq!(rt; log.len(), 1);
}
