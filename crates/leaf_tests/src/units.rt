use media_units::{
    Duration, Instant, Soonest, SystemTime, SystemTimeExt, ValueHistory, calculate_rtt,
};

// Where neither has a moment the default is chosen.
#[test]
fn the_sooner_of_none_is_the_default(rt: HostRuntime) {
    let chosen = (None::<Instant>, 7u8).soonest((None, 8));
    assert!(rt; chosen == (None, 0));
}

// The example of RFC 3550, section 6.4.1, whose 6.125 s come out within a 65,536th of a second.
#[test]
fn a_report_tells_the_round_trip(rt: HostRuntime) {
    let now = Duration::from_millis(3_024_992_016_500);
    assert!(rt; now.as_millis() == 3_024_992_016_500);
    let trip = calculate_rtt(now, 0x0005_4000, 0xb705_2000);
    assert!(rt; trip == Some(Duration::from_nanos(6_124_986_648)));
}

#[test]
fn surface_ample(rt: HostRuntime) {
    let mut history = ValueHistory::new(rt.alloc());
    let pushed = history.push(Instant::from_nanos(1), 22u128);
    assert!(rt; pushed.is_ok() && history.sum() == 22);
    history.purge_old(Instant::from_nanos(1_000_000_002));
    assert!(rt; history.sum() == 0);
}

#[test]
fn reads_and_writes_ntp(rt: HostRuntime) {
    // 10 November 1995, 11:33:25.125, of RFC 3550, section 6.4.1
    let read = SystemTime::from_ntp_64(0xb44d_b705_2000_0000);
    let written = SystemTime::from_unix_nanos(816_003_205_125_000_000);
    assert!(rt; read == written && written.as_ntp_64() == 0xb44d_b705_2000_0000);
    // The second 3,971,792,775 and 4,184,015,405 parts of it
    let read = SystemTime::from_ntp_64(0xecbc_bf87_f963_022d);
    assert!(rt; read.as_unix_nanos() == 1_762_803_975_974_166_999);
}
