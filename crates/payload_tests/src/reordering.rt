use media_base::Bytes;
use media_units::{Duration, Instant};
use payload_core::{
    Codec, CodecDepacketizer, CodecExtra, CodecSpec, DepacketizingBuffer, FormatParams,
    PacketError, RtpMeta, TelephoneEvent,
};
use rtp_base::{Frequency, MediaTime, SeqNo};
use rtp_wire::{ExtensionMap, RtpHeader};
use std::alloc::{AllocError, Global};

type Buffer = DepacketizingBuffer<u8>;

fn buffer_of(alloc: Global, codec: Codec, clock_rate: Frequency, hold_back: usize) -> Buffer {
    let depack = CodecDepacketizer::new(CodecSpec {
        codec,
        clock_rate,
        channels: None,
        format: FormatParams::default(),
    });
    DepacketizingBuffer::new(alloc, depack, hold_back)
}

fn meta(number: u64, came: u64) -> Option<RtpMeta<u8>> {
    let bytes = [128, 111, 0, 0, 0, 0, 0, 0, 0, 0, 0, 42];
    let header = RtpHeader::parse(&bytes, &ExtensionMap::empty())?;
    Some(RtpMeta {
        received: Instant::from_nanos(came),
        time: MediaTime::new(960, Frequency::FORTY_EIGHT_KHZ),
        seq_no: SeqNo::from(number),
        header,
        last_sender_info: None,
    })
}

fn put(
    alloc: Global,
    buffer: &mut Buffer,
    number: u64,
    came: u64,
    payload: &[u8],
) -> Result<bool, AllocError> {
    let Some(meta) = meta(number, came) else {
        return Ok(false);
    };
    buffer.push(meta, Bytes::from_slice(alloc, payload)?)?;
    Ok(true)
}

fn pad(buffer: &mut Buffer, number: u64) -> Result<bool, AllocError> {
    buffer.push_padding(SeqNo::from(number))?;
    Ok(true)
}

fn give_up_at(buffer: &mut Buffer, moment: u64) -> bool {
    buffer.set_recovery_deadline(Some(Instant::from_nanos(moment)));
    true
}

fn length(nanos: Option<u64>) -> Option<Duration> {
    match nanos {
        Some(nanos) => Some(Duration::from_nanos(nanos)),
        None => None,
    }
}

// The number that is given at a moment, and whether it is contiguous.
fn give(buffer: &mut Buffer, now: u64, timeout: Option<u64>) -> Option<(u64, bool)> {
    match buffer.pop(Instant::from_nanos(now), length(timeout)) {
        Some(Ok(frame)) => Some((u64::from(frame.meta.seq_no), frame.contiguous)),
        _ => None,
    }
}

// When the front that waits is given.
fn wake(buffer: &Buffer, timeout: Option<u64>) -> Option<u64> {
    match buffer.poll_timeout(length(timeout)) {
        Some(moment) => Some(moment.as_nanos()),
        None => None,
    }
}

// The first number that is missing, the front's number, and when that came.
fn missing(buffer: &Buffer) -> Option<(u64, u64, u64)> {
    match buffer.recovery_candidate() {
        Some((range, came)) => Some((
            u64::from(range.start),
            u64::from(range.end),
            came.as_nanos(),
        )),
        None => None,
    }
}

// What is done with a buffer, and what it has to answer.
#[derive(Clone, Copy)]
enum Step {
    // A packet of this number comes at this moment.
    Put(u64, u64),
    // A padding number comes.
    Pad(u64),
    // The gap is given up at this moment.
    Deadline(u64),
    // At this moment, with this timeout, this number is given, contiguous or not.
    Give(u64, Option<u64>, Option<(u64, bool)>),
    // With this timeout the front is given at this moment.
    Wake(Option<u64>, Option<u64>),
    // These numbers are missing before a front that came at this moment.
    Missing(Option<(u64, u64, u64)>),
}

fn goes(alloc: Global, buffer: &mut Buffer, step: Step) -> Result<bool, AllocError> {
    match step {
        Step::Put(number, came) => put(alloc, buffer, number, came, &[1]),
        Step::Pad(number) => pad(buffer, number),
        Step::Deadline(moment) => Ok(give_up_at(buffer, moment)),
        Step::Give(now, timeout, want) => Ok(give(buffer, now, timeout) == want),
        Step::Wake(timeout, want) => Ok(wake(buffer, timeout) == want),
        Step::Missing(want) => Ok(missing(buffer) == want),
    }
}

// The first step that is not answered so.
fn first_wrong(
    alloc: Global,
    buffer: &mut Buffer,
    steps: &[Step],
) -> Result<Option<usize>, AllocError> {
    for (i, step) in steps.iter().enumerate() {
        if !goes(alloc, buffer, *step)? {
            return Ok(Some(i));
        }
    }
    Ok(None)
}

// Takes a buffer of sound through steps: the one function that owns it, with one exit.
fn play(alloc: Global, hold_back: usize, steps: &[Step]) -> Result<Option<usize>, AllocError> {
    let mut buffer = buffer_of(alloc, Codec::Opus, Frequency::FORTY_EIGHT_KHZ, hold_back);
    first_wrong(alloc, &mut buffer, steps)
}

// In order, replays, and numbers at or below the last one given.
static IN_ORDER: [Step; 10] = [
    Step::Give(0, None, None),
    Step::Put(6, 0),
    Step::Put(5, 0),
    Step::Missing(None),
    Step::Give(0, None, Some((5, true))),
    Step::Put(5, 0),
    Step::Put(4, 0),
    Step::Put(6, 0),
    Step::Give(0, None, Some((6, true))),
    Step::Give(0, None, None),
];

#[test]
fn packets_in_order(rt: HostRuntime) {
    assert!(rt; play(rt.alloc(), 2, &IN_ORDER) == Ok(None));
}

// A gap that is passed over once more than two packets wait, and one that is filled.
static HELD_BACK: [Step; 16] = [
    Step::Put(6, 0),
    Step::Give(0, None, Some((6, true))),
    Step::Put(9, 7),
    Step::Put(10, 0),
    Step::Missing(Some((7, 9, 7))),
    Step::Give(0, None, None),
    Step::Put(11, 0),
    Step::Missing(None),
    Step::Give(0, None, Some((9, false))),
    Step::Give(0, None, Some((10, true))),
    Step::Put(13, 0),
    Step::Give(0, None, Some((11, true))),
    Step::Give(0, None, None),
    Step::Put(12, 0),
    Step::Give(0, None, Some((12, true))),
    Step::Give(0, None, Some((13, true))),
];

#[test]
fn gaps_hold_packets_back(rt: HostRuntime) {
    assert!(rt; play(rt.alloc(), 2, &HELD_BACK) == Ok(None));
}

// By the timeout of sound, and by the recovery deadline.
static GIVEN_UP: [Step; 14] = [
    Step::Put(5, 0),
    Step::Give(0, None, Some((5, true))),
    Step::Put(8, 100),
    Step::Wake(None, None),
    Step::Wake(Some(50), Some(150)),
    Step::Give(149, Some(50), None),
    Step::Give(150, Some(50), Some((8, false))),
    Step::Put(10, 200),
    Step::Deadline(210),
    Step::Wake(None, Some(210)),
    Step::Wake(Some(5), Some(205)),
    Step::Wake(Some(50), Some(210)),
    Step::Give(209, None, None),
    Step::Give(210, None, Some((10, false))),
];

#[test]
fn gaps_are_given_up(rt: HostRuntime) {
    assert!(rt; play(rt.alloc(), 15, &GIVEN_UP) == Ok(None));
}

// 6 and 8 count as given once they are next; 7 is missing; 9 stays a padding number.
static PADDED: [Step; 16] = [
    Step::Put(5, 0),
    Step::Pad(6),
    Step::Pad(8),
    Step::Pad(9),
    Step::Put(9, 0),
    Step::Put(10, 0),
    Step::Give(0, None, Some((5, true))),
    Step::Put(6, 0),
    Step::Missing(Some((7, 10, 0))),
    Step::Give(0, None, None),
    Step::Put(7, 0),
    Step::Give(0, None, Some((7, true))),
    Step::Give(0, None, Some((10, true))),
    Step::Pad(11),
    Step::Put(12, 0),
    Step::Give(0, None, Some((12, true))),
];

#[test]
fn padding_numbers(rt: HostRuntime) {
    assert!(rt; play(rt.alloc(), 15, &PADDED) == Ok(None));
}

// The digit 5, ended, at -10 dBm0, of one tick of 8,000.
fn tone() -> CodecExtra {
    CodecExtra::Tele(TelephoneEvent {
        event: 5,
        end: true,
        volume: 10,
        duration: Duration::from_nanos(125_000),
    })
}

fn refuses_front(buffer: &mut Buffer) -> bool {
    match buffer.pop(Instant::from_nanos(0), None) {
        Some(Err(error)) => error == PacketError::ShortTelephone,
        _ => false,
    }
}

fn gives_tone(buffer: &mut Buffer) -> bool {
    match buffer.pop(Instant::from_nanos(0), None) {
        Some(Ok(frame)) => frame.codec_extra == tone(),
        _ => false,
    }
}

fn refuses_once(alloc: Global, buffer: &mut Buffer) -> Result<bool, AllocError> {
    let short = put(alloc, buffer, 5, 0, &[5, 0x8a, 0])?;
    let whole = put(alloc, buffer, 6, 0, &[5, 0x8a, 0, 1])?;
    Ok(short && whole && refuses_front(buffer) && gives_tone(buffer))
}

// A front that is refused is gone.
#[test]
fn refused_fronts(rt: HostRuntime) {
    let mut buffer = buffer_of(rt.alloc(), Codec::Telephone, Frequency::EIGHT_KHZ, 0);
    let refused = refuses_once(rt.alloc(), &mut buffer);
    assert!(rt; refused == Ok(true));
}
