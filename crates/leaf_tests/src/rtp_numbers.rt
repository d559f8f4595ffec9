use rtp_base::{Direction, Mid, MidRid, Rid, SeqNo, TwccClusterId, TwccPacketId, widen16, widen32};

// The edges of 16 bits, after none, 0, 2^15 - 1, 2^15, 2^16 - 1, 2^16, 2^47 (RFC 3711 appendix A).
static WIDE: [(Option<u64>, u16, u64); 17] = [
    (None, 0, 0),
    (None, 65535, 65535),
    (Some(0), 32768, 32768),
    (Some(0), 32769, 32769),
    (Some(0), 65535, 65535),
    (Some(32767), 65535, 65535),
    (Some(32768), 0, 0),
    (Some(32769), 0, 65536),
    (Some(65535), 0, 65536),
    (Some(65535), 32766, 98302),
    (Some(65535), 32767, 32767),
    (Some(65536), 65535, 65535),
    (Some(65536), 32768, 98304),
    (Some(65536), 32769, 32769),
    (Some(0x8000_0000_0000), 1, 0x8000_0000_0001),
    (Some(0x8000_0000_0000), 65535, 0x7fff_ffff_ffff),
    (Some(0xffff_ffff_ffff), 0, 0xffff_ffff_0000),
];

#[test]
fn numbers_widen(rt: HostRuntime) {
    for (last, low, wide) in &WIDE {
        assert!(rt; widen16(*last, *low) == *wide, "{low} after {last:?}");
    }
    assert!(rt; widen32(Some(0xffff_ffff), 0) == 0x1_0000_0000);
    assert!(rt; widen32(Some(0x1_0000_0000), 0xffff_ffff) == 0xffff_ffff);
}

// Whether one stream or all of the mid v are asked for by another.
fn equals(asked: Option<Rid>, held: Option<Rid>) -> Option<bool> {
    let mid = Mid::from_slice(b"v")?;
    Some(MidRid(mid, asked).special_equals(&MidRid(mid, held)))
}

#[test]
fn names_clusters_and_directions(rt: HostRuntime) {
    let rid = Rid::from_slice(b"q");
    assert!(rt; equals(None, rid) == Some(true) && equals(rid, None) == Some(false));
    let cluster = TwccClusterId::from(2);
    let packet = TwccPacketId::with_cluster(SeqNo::from(1), cluster);
    assert!(rt; packet.cluster == Some(cluster));
    let mut number = SeqNo::from(65_535);
    assert!(rt; number.inc() == SeqNo::from(65_535) && number.roc() == 1);
    let direction = Direction::SendOnly;
    assert!(rt; direction.is_sending() && !direction.is_receiving());
    assert!(rt; direction.invert() == Direction::RecvOnly);
}
