use media_base::Listed;
use media_units::{Bitrate, DataSize, Duration, Instant};
use pace_units::{Estimator, FixedEstimate, ProbeClusterConfig, ProbeKind, ScriptedEstimate};
use rtp_base::TwccClusterId;
use std::alloc::{AllocError, Global};
use std::process::Abort;

// A call of an estimator, and what it answers. Moments are in milliseconds, rates in kbit/s.
#[derive(Clone, Copy)]
enum Call {
    // A timeout, where probes may be sent or not, and the cluster that it wants.
    Timeout(u64, bool, Option<u64>),
    // The next estimate that was not given.
    Poll(Option<u64>),
    // The estimate that was made last.
    Last(Option<u64>),
    // How many estimates are pending.
    Pending(u64),
    // When the next timeout is wanted.
    Wake(Option<u64>),
}

use Call::{Last, Pending, Poll, Timeout, Wake};

fn millis(count: u64) -> Instant {
    Instant::from_nanos(0).saturating_add(Duration::from_millis(count))
}

fn rate(kilobits: Option<u64>) -> Option<Bitrate> {
    match kilobits {
        Some(kilobits) => Some(Bitrate::kbps(kilobits)),
        None => None,
    }
}

fn moment(count: Option<u64>) -> Option<Instant> {
    match count {
        Some(count) => Some(millis(count)),
        None => None,
    }
}

fn number(config: Option<ProbeClusterConfig>) -> Option<u64> {
    match config {
        Some(config) => Some(u64::from(config.cluster())),
        None => None,
    }
}

// Makes a call, and whether it answers what it has to.
fn agrees<E: Estimator>(estimator: &mut E, call: &Call) -> bool {
    match *call {
        Timeout(now, can_probe, wanted) => {
            number(estimator.handle_timeout(millis(now), can_probe)) == wanted
        }
        Poll(wanted) => estimator.poll_estimate() == rate(wanted),
        Last(wanted) => estimator.last_estimate() == rate(wanted),
        Pending(wanted) => estimator.pending() == wanted,
        Wake(wanted) => estimator.poll_timeout() == moment(wanted),
    }
}

fn follows<E: Estimator>(rt: &impl Abort, estimator: &mut E, calls: &[Call]) {
    for (i, call) in calls.iter().enumerate() {
        assert!(rt; agrees(estimator, call), "call {i}");
    }
}

// Estimates of 0, 10 and 20 ms, and clusters of 10 and 10 ms.
fn script(alloc: Global) -> Result<ScriptedEstimate, AllocError> {
    let mut estimates = Listed::new(alloc);
    for (now, kilobits) in [(0u64, 450u64), (10, 700), (20, 1_000)] {
        estimates.push((millis(now), Bitrate::kbps(kilobits)))?;
    }
    let mut probes = Listed::new(alloc);
    for number in [1u64, 2] {
        let cluster = TwccClusterId::from(number);
        let config = ProbeClusterConfig::new(cluster, Bitrate::mbps(1), ProbeKind::Initial);
        probes.push((millis(10), config))?;
    }
    Ok(ScriptedEstimate::new(estimates, probes))
}

static DRY: [Call; 22] = [
    Poll(None),
    Last(None),
    Wake(Some(0)),
    Timeout(9, true, None),
    Wake(Some(10)),
    Timeout(15, false, None),
    Pending(2),
    Last(Some(700)),
    Wake(Some(20)),
    Poll(Some(450)),
    Pending(1),
    Poll(Some(700)),
    Poll(None),
    Pending(0),
    Timeout(15, true, Some(1)),
    Timeout(30, true, Some(2)),
    Timeout(30, true, None),
    Poll(Some(1_000)),
    Poll(None),
    Last(Some(1_000)),
    Wake(None),
    Pending(0),
];

static FIXED: [Call; 9] = [
    Poll(None),
    Last(None),
    Wake(Some(0)),
    Timeout(5, true, None),
    Pending(1),
    Poll(Some(2_000)),
    Poll(None),
    Last(Some(2_000)),
    Wake(None),
];

// What no scripted estimate heeds.
fn hears<E: Estimator>(rt: &impl Abort, estimator: &mut E) {
    let cluster = TwccClusterId::from(1);
    let config = ProbeClusterConfig::new(cluster, Bitrate::mbps(1), ProbeKind::Initial);
    assert!(rt; estimator.start_probe(config));
    estimator.end_probe(millis(1), cluster);
    estimator.update(&[], millis(1));
    estimator.on_media_sent(millis(1), DataSize::bytes(1), false);
    estimator.set_bitrate(Bitrate::bps(1), Bitrate::bps(2));
    estimator.reset(Bitrate::bps(1));
    assert!(rt; !estimator.is_overusing());
    assert_eq!(rt; estimator.minimum_bitrate(), Bitrate::bps(0));
}

// What a script is told besides timeouts changes nothing.
#[test]
fn estimates_are_polled_dry(rt: HostRuntime) {
    let Ok(mut estimator) = script(rt.alloc()) else {
        return assert!(rt; false, "memory");
    };
    hears(&rt, &mut estimator);
    follows(&rt, &mut estimator, &DRY);
    follows(&rt, &mut FixedEstimate::new(Bitrate::mbps(2)), &FIXED);
}
