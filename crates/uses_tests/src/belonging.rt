ghost use Rattle.std.specs.Prelude.{◌≡◌};

use mapping_core::{MappedStreams, Mapping, Rids, TypeClaim};
use red_core::RedMemory;
use repair_core::{GapWindow, NackRegister};
use rtp_base::{Mid, Pt, SeqNo, Ssrc};
use rtp_wire::{ExtensionMap, RtpHeader};
use std::alloc::{AllocError, Global};
use uses::map_a_datagram::map_datagram;
use uses::place_a_block::recover_block;

// A packet of SSRC 42 with number 1 and two bytes of payload (RFC 3550 section 5.1).
const PACKET: [u8; 14] = [0x80, 0x60, 0, 1, 0, 0, 0, 0, 0, 0, 0, 0x2a, 1, 2];

fn mid() -> Mid {
    match Mid::from_slice(b"v") {
        Some(mid) => mid,
        None => unreachable!(),
    }
}

// Of which stream the packet with the mid `v` is, and how many streams are known then.
fn map_one(
    alloc: Global,
    streams: &mut MappedStreams,
    opened: bool,
) -> Result<(Option<Mapping>, usize), AllocError> {
    let Some(mut header) = RtpHeader::parse(&PACKET, &ExtensionMap::empty()) else {
        return Ok((None, 0));
    };
    header.ext_vals.mid = Some(mid());
    let types = [TypeClaim {
        pt: Pt::from(96),
        rtx: None,
        red: None,
    }];
    let mapping = map_datagram(streams, Some(&Rids::Any), &types, &header, opened)?;
    Ok((Some(mapping), streams.len()))
}

// Whether the first packet declares a stream once it opened, and the next one is of that.
fn maps_two(alloc: Global, streams: &mut MappedStreams) -> Result<bool, AllocError> {
    let (_, forged) = map_one(alloc, streams, false)?;
    let (_, first) = map_one(alloc, streams, true)?;
    let (then, count) = map_one(alloc, streams, true)?;
    let known = then == Some(Mapping::Main(Ssrc::from(42)));
    Ok(known && (forged, first, count) == (0, 1, 1))
}

#[test]
fn a_datagram_is_mapped(rt: HostRuntime) {
    let mut streams = MappedStreams::new(rt.alloc());
    let mapped = maps_two(rt.alloc(), &mut streams);
    assert!(rt; mapped == Ok(true));
}

fn number(number: u32) -> SeqNo
    ensures { result ≡ number }
{
    SeqNo::from(u64::from(number))
}

// The places of two blocks of the time 960, where 1 came at the time 0 and 3 at 1,920.
fn places<W: GapWindow>(window: &mut W) -> [Option<SeqNo>; 2] {
    let mut memory = RedMemory::new();
    for (n, time) in [(1, 0), (3, 1_920)] {
        window.update(number(n));
        memory.took(number(n), time);
    }
    [
        recover_block(&mut memory, window, number(3), 960),
        recover_block(&mut memory, window, number(3), 960),
    ]
}

#[test]
fn a_block_is_placed_once(rt: HostRuntime) -> Result<(), AllocError> {
    let mut register = NackRegister::new(rt.alloc(), None)?;
    assert!(rt; places(&mut register) == [Some(SeqNo::from(2)), None]);
    Ok(())
}
