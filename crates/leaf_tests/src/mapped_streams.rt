use mapping_core::{IncomingStream, MappedStreams, Mapping, Rids};
use media_base::Listed;
use rtp_base::{Mid, Rid, Ssrc};
use std::alloc::{AllocError, Global};

fn specific(alloc: Global, names: &[&[u8]]) -> Result<Rids, AllocError> {
    let mut rids = Listed::new(alloc);
    for name in names {
        if let Some(rid) = Rid::from_slice(name) {
            rids.push(rid)?;
        }
    }
    Ok(Rids::Specific(rids))
}

fn expect_all(alloc: Global, rids: &mut Rids, names: &[&[u8]]) -> Result<(), AllocError> {
    for name in names {
        if let Some(rid) = Rid::from_slice(name) {
            rids.expect(alloc, rid)?;
        }
    }
    Ok(())
}

// Whether rids that are expected one after another are those of a list.
fn are_expected(alloc: Global) -> Result<bool, AllocError> {
    let mut rids = Rids::Any;
    expect_all(alloc, &mut rids, &[b"h", b"l", b"h"])?;
    let wanted = specific(alloc, &[b"h", b"l"])?;
    Ok(rids == wanted)
}

// Whether a datagram that opened declares its stream.
fn is_declared(alloc: Global) -> Result<bool, AllocError> {
    let mut streams = MappedStreams::new(alloc);
    if let Some(mid) = Mid::from_slice(b"v") {
        let mapping = Mapping::NewStream(IncomingStream {
            ssrc: Ssrc::from(42),
            rtx: None,
            mid,
            rid: None,
            previous: None,
            suppress_nack: false,
        });
        streams.commit(&mapping, true)?;
    }
    Ok(streams.len() == 1)
}

#[test]
fn surface_ample(rt: HostRuntime) {
    assert!(rt; are_expected(rt.alloc()) == Ok(true));
    assert!(rt; is_declared(rt.alloc()) == Ok(true));
}
