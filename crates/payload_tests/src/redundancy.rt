use media_base::Bytes;
use media_units::Instant;
use payload_core::{MediaPacket, RedDecoder, RedError, RedSender, red_same_pt_blocks};
use rtp_base::{Frequency, MediaTime, Pt};
use rtp_wire::ExtensionValues;
use std::alloc::AllocError;

fn is_bad(rt: &HostRuntime, bytes: &[u8]) -> bool {
    match RedDecoder::decode(rt.alloc(), bytes) {
        Ok(_) => false,
        Err(error) => error == RedError::BadRed,
    }
}

// What is told of a block: its type, how many ticks before the packet it is, its bytes, whether it
// is the primary one.
#[derive(Clone, Copy)]
struct Told<'a>(u8, u16, &'a [u8], bool);

// Whether these blocks are read, and no others.
fn reads(rt: &HostRuntime, bytes: &[u8], told: &[Told<'_>]) -> bool {
    let Ok(blocks) = RedDecoder::decode(rt.alloc(), bytes) else {
        return false;
    };
    let same = blocks.iter().zip(told).all(|(block, row)| {
        block.pt == Pt::from(row.0)
            && block.timestamp_offset == row.1
            && block.payload == row.2
            && block.is_primary == row.3
    });
    same && blocks.len() == told.len()
}

// Bits of a redundant header: 1, a type of 7, an offset of 14, a length of 10; the last header is 0
// and a type (RFC 2198 section 3). Type 111 with its first bit is ef, without it 6f; 960 ticks and
// 2 bytes are 0f0002.
#[test]
fn red_datagrams(rt: HostRuntime) {
    let two = [0xef, 0x0f, 0, 2, 0x6f, 1, 2, 3];
    let told = [Told(111, 960, &[1, 2], false), Told(111, 0, &[3], true)];
    assert!(rt; reads(&rt, &two, &told));

    let alone = [0x6f];
    assert!(rt; reads(&rt, &alone, &[Told(111, 0, &[], true)]));

    let other_type = [0x80, 0, 0, 1, 0x6f, 9];
    let told = [Told(0, 0, &[9], false), Told(111, 0, &[], true)];
    assert!(rt; reads(&rt, &other_type, &told));

    let greatest_offset = [0xef, 0xff, 0xfc, 0, 0xef, 0, 0, 1, 0x6f, 9, 8];
    let told = [
        Told(111, 16_383, &[], false),
        Told(111, 0, &[9], false),
        Told(111, 0, &[8], true),
    ];
    assert!(rt; reads(&rt, &greatest_offset, &told));
}

// Headers that are cut, and lengths past the end: of eight bytes each start is bad up to the end of
// the block.
#[test]
fn red_that_is_cut(rt: HostRuntime) {
    let two = [0xef, 0x0f, 0, 2, 0x6f, 1, 2, 3];
    for len in 0..7 {
        assert!(rt; is_bad(&rt, &two[..len]), "{len} bytes");
    }
    assert!(rt; !is_bad(&rt, &two[..7]));
    assert!(rt; is_bad(&rt, &[0xef, 0, 0, 0, 0xef, 0, 0, 0]));
}

#[test]
fn red_of_the_greatest_length(rt: HostRuntime) {
    let mut long = [7u8; 1_029];
    long[0] = 0xef;
    long[1] = 0;
    long[2] = 3;
    long[3] = 0xff;
    long[4] = 0x6f;
    let frame = [7u8; 1_023];
    let told = [Told(111, 0, &frame, false), Told(111, 0, &[7], true)];
    assert!(rt; reads(&rt, &long, &told));
    assert!(rt; !is_bad(&rt, &long[..1_028]));
    assert!(rt; is_bad(&rt, &long[..1_027]));
}

#[test]
fn red_blocks_of_the_primary_type(rt: HostRuntime) {
    let bytes = [0xef, 0, 0, 0, 0x80, 0, 0, 1, 0x6f, 9];
    match RedDecoder::decode(rt.alloc(), &bytes) {
        Ok(blocks) => assert_eq!(rt; red_same_pt_blocks(blocks, Pt::from(111)).len(), 2),
        Err(error) => assert!(rt; false, "{error:?}"),
    }
}

fn packet(rt: &HostRuntime, ticks: u64, frame: u8) -> Result<MediaPacket, AllocError> {
    Ok(MediaPacket {
        pt: Pt::from(111),
        rtp_time: MediaTime::new(ticks, Frequency::FORTY_EIGHT_KHZ),
        wallclock: Instant::from_nanos(0),
        start_of_talk_spurt: false,
        ext_vals: ExtensionValues::none(),
        payload: Bytes::from_slice(rt.alloc(), &[frame])?,
    })
}

// A frame of one byte at these ticks, the limit of its packet, and the payload that it goes out in.
#[derive(Clone, Copy)]
struct Sent<'a>(u64, u8, usize, &'a [u8]);

fn sends_as(
    rt: &HostRuntime,
    sender: &mut RedSender,
    rows: &[Sent<'_>],
) -> Result<bool, AllocError> {
    for row in rows {
        let packet = sender.wrap(rt.alloc(), packet(rt, row.0, row.1)?, row.2)?;
        if packet.pt != Pt::from(63) || packet.payload.as_slice() != row.3 {
            return Ok(false);
        }
    }
    Ok(true)
}

// Frames one and two packets back, the nearest last; a limit that has room for the nearer alone;
// then only those one packet back, of which one at the packet's own time has offset 0 and one after
// it none.
#[test]
fn red_at_distances(rt: HostRuntime) -> Result<(), AllocError> {
    let two_back = [
        Sent(0, 1, 1_200, &[0x6f, 1]),
        Sent(960, 2, 1_200, &[0xef, 0x0f, 0, 1, 0x6f, 1, 2]),
        Sent(
            1_920,
            3,
            1_200,
            &[0xef, 0x1e, 0, 1, 0xef, 0x0f, 0, 1, 0x6f, 1, 2, 3],
        ),
        Sent(2_880, 4, 7, &[0xef, 0x0f, 0, 1, 0x6f, 3, 4]),
    ];
    let one_back = [
        Sent(2_880, 5, 1_200, &[0xef, 0, 0, 1, 0x6f, 4, 5]),
        Sent(2_879, 6, 1_200, &[0x6f, 6]),
    ];
    let mut sender = RedSender::new(rt.alloc(), Pt::from(63), Pt::from(111), &[1, 2])?;
    assert!(rt; sends_as(&rt, &mut sender, &two_back)?);
    sender.sync(rt.alloc(), Pt::from(63), Pt::from(111), &[1])?;
    assert!(rt; sends_as(&rt, &mut sender, &one_back)?);
    Ok(())
}
