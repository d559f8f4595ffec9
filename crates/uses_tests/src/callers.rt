use mask_register::MaskRegister;
use media_base::{Bytes, MemSink, MemSource};
use media_units::{Beginning, Bitrate, DataSize, Duration, Instant, SystemTime};
use pace_core::{NullPacer, QueuePriority, QueueSnapshot, QueueState};
use payload_core::{
    Arrival, Codec, CodecDepacketizer, CodecSpec, DepacketizingBuffer, FormatParams, RtpMeta,
};
use queue_store::QueueStore;
use repair_core::{GapWindow, NackRegister};
use resend_core::{Cached, EvictingBuffer, ResendStore, RtxCache};
use rtcp_wire::SenderInfo;
use rtp_base::{
    Frequency, MediaTime, Mid, MidRid, NackEntry, Pt, ReceptionReport, SeqNo, SeqNoWindow, Ssrc,
    TwccPacketId,
};
use rtp_wire::{ExtensionMap, MAX_SOURCES, RtpHeader};
use rtx_core::{ResendError, ResendQueue};
use session_core::Event;
use srtp_core::{KeyingMaterial, ShaCipher, SrtpError, SrtpProfile};
use std::alloc::{AllocError, Global};
use std::test::Fail;
use stream_core::{
    PacketReceipt, Payload, PayloadTypes, RtpPacket, RtpWrite, Seen, SendQueue, Sent as SentPacket,
    StreamTx, Streams, Transport, TypeRow,
};
use twcc_core::{TwccRecvRegister, TwccSendRegister};
use uses::answer_a_nack::answer_a_nack;
use uses::build_a_script::one_write;
use uses::check_a_setup::may_be_played;
use uses::copy_bytes::copy_all;
use uses::count_a_queue::wait_of_both;
use uses::count_comparisons::find;
use uses::exchange_a_packet::{end, exchange};
use uses::keep_for_resending::keep_and_find;
use uses::keep_in_a_queue::{queue_of_one, replace};
use uses::look_into_a_queue::is_queued;
use uses::measure_a_trip::measured_trip;
use uses::pace_packets::send_next;
use uses::put_into_order::next_frame;
use uses::queue_a_packet::write_and_poll;
use uses::read_a_header::{number_of, payload_of};
use uses::read_a_pace_script::play_calls;
use uses::read_a_script::count_steps;
use uses::read_rtcp::read_feedback;
use uses::register_by_mask::is_taken_twice;
use uses::register_numbers::ask_for_missing;
use uses::report_arrivals::{report_arrival, round_trip};
use uses::seal_and_open::seal_and_open;
use uses::send_again::{declare, send_again};
use uses::time_a_packet::leaves_at;
use uses::widen_a_number::take_number;

// A packet of SSRC 42 with number 1 and two bytes of payload (RFC 3550 section 5.1).
const PACKET: [u8; 14] = [0x80, 0x60, 0, 1, 0, 0, 0, 0, 0, 0, 0, 0x2a, 1, 2];

// A receiver asks for a picture of SSRC 42 (RFC 4585 section 6.3.1).
const ASKED: [u8; 12] = [0x81, 206, 0, 2, 0, 0, 0, 1, 0, 0, 0, 0x2a];

fn mid() -> Mid {
    match Mid::from_slice(b"v") {
        Some(mid) => mid,
        None => unreachable!(),
    }
}

#[test]
fn a_packet_takes_its_time(rt: HostRuntime) {
    let left = leaves_at(
        Instant::from_nanos(5),
        DataSize::bytes(1_250),
        Bitrate::mbps(1),
    );
    assert_eq!(rt; left, Some(Instant::from_nanos(10_000_005)));
}

#[test]
fn bytes_are_copied(rt: HostRuntime) -> Result<(), Fail> {
    let bytes = vec![in rt.alloc(); 1, 2, 3]?;
    let mut source = MemSource::new(bytes, 2, Vec::new(rt.alloc()));
    let mut sink = MemSink::new(rt.alloc(), 8, 2, Vec::new(rt.alloc()))?;
    let count = match copy_all(rt.alloc(), &mut source, &mut sink) {
        Ok(count) => count,
        Err(_) => 0,
    };
    assert_eq!(rt; count, 3);
    assert!(rt; sink.bytes() == [1, 2, 3].as_slice());
    Ok(())
}

#[test]
fn a_number_wraps_once(rt: HostRuntime) {
    let mut window = SeqNoWindow::new(SeqNo::from(65_535));
    assert_eq!(rt; take_number(&mut window, 0), Some(SeqNo::from(65_536)));
    assert_eq!(rt; take_number(&mut window, 0), None);
}

#[test]
fn a_header_is_read(rt: HostRuntime) {
    let exts = ExtensionMap::empty();
    assert_eq!(rt; number_of(&PACKET, &exts, None), Some(SeqNo::from(1)));
    assert!(rt; payload_of(&PACKET, &exts) == Some([1, 2].as_slice()));
}

// Whether the packet opens again after it was sealed.
fn opens_again(alloc: Global, material: &KeyingMaterial) -> Result<bool, SrtpError> {
    let Some(header) = RtpHeader::parse(&PACKET, &ExtensionMap::empty()) else {
        return Ok(false);
    };
    if header.header_len > PACKET.len() {
        return Ok(false);
    }
    let profile = SrtpProfile::AeadAes128Gcm;
    let opened = seal_and_open(alloc, ShaCipher, profile, material, &header, &PACKET)?;
    Ok(opened.is_some())
}

#[test]
fn a_datagram_opens_again(rt: HostRuntime) -> Result<(), Fail> {
    let material = KeyingMaterial::new(rt.alloc(), &[7; 56])?;
    assert!(rt; opens_again(rt.alloc(), &material) == Ok(true));
    Ok(())
}

#[derive(Debug, Drop)]
struct Sent {
    number: u64,
}

impl Cached for Sent {
    ghost number = { λ s. s.number };

    ghost size = { λ _. 8 };

    fn seq_no(&self) -> SeqNo {
        SeqNo::from(self.number)
    }

    fn payload_len(&self) -> usize {
        8
    }
}

#[test]
fn a_packet_is_found_again(rt: HostRuntime) -> Result<(), Fail> {
    let mut cache: RtxCache<Sent> = RtxCache::new(rt.alloc(), 20, Duration::from_secs(3))?;
    let now = Instant::from_nanos(1);
    let found = keep_and_find(&mut cache, Sent { number: 1 }, now, SeqNo::from(1))?;
    assert_eq!(rt; found, Some(8));
    Ok(())
}

type Repairs = ResendQueue<Sent, EvictingBuffer<Sent>>;

// How many repairs a queue gives of a packet that was sent and is asked for.
fn repairs_of_one(alloc: Global, queue: &mut Repairs) -> Result<usize, ResendError> {
    queue.cache_sent_packet(Sent { number: 1 }, Instant::from_nanos(1))?;
    let mut numbers = Vec::new(alloc);
    let entry = NackEntry { pid: 1, blp: 1 };
    answer_a_nack(queue, &[entry], Instant::from_nanos(2), &mut numbers)?;
    Ok(numbers.len())
}

fn repairs(alloc: Global) -> Result<usize, ResendError> {
    let mut queue: Repairs = ResendQueue::new(alloc, SeqNo::from(5))?;
    repairs_of_one(alloc, &mut queue)
}

#[test]
fn a_nack_is_answered(rt: HostRuntime) {
    assert!(rt; repairs(rt.alloc()) == Ok(1));
}

fn asks_of<W: GapWindow>(window: &mut W) -> usize {
    ask_for_missing(window, SeqNo::from(1), Instant::from_nanos(1));
    ask_for_missing(window, SeqNo::from(4), Instant::from_nanos(1)).len()
}

#[test]
fn a_register_asks(rt: HostRuntime) -> Result<(), Fail> {
    let mut register = NackRegister::new(rt.alloc(), None)?;
    assert!(rt; asks_of(&mut register) == 1);
    Ok(())
}

#[test]
fn a_register_by_mask_asks(rt: HostRuntime) -> Result<(), Fail> {
    let mut register: MaskRegister = MaskRegister::new(rt.alloc(), None)?;
    assert!(rt; asks_of(&mut register) == 1);
    Ok(())
}

#[test]
fn no_number_is_taken_twice(rt: HostRuntime) -> Result<(), Fail> {
    let again = is_taken_twice(rt.alloc(), SeqNo::from(1), SeqNo::from(9))?;
    assert!(rt; !again);
    Ok(())
}

fn plain_len(
    alloc: Global,
    stream: &mut StreamTx,
    transport: &mut Transport,
) -> Result<usize, Fail> {
    let now = Instant::from_nanos(1);
    let payload = Payload::from_slice(alloc, &[1, 2])?;
    let write = RtpWrite::new(Pt::from(96), SeqNo::from(1), 0, now, payload);
    match write_and_poll(alloc, stream, write, now, transport)? {
        Some(receipt) => Ok(receipt.plain.len()),
        None => Ok(0),
    }
}

#[test]
fn a_packet_is_queued(rt: HostRuntime) -> Result<(), Fail> {
    let mut transport = Transport {
        exts: ExtensionMap::empty(),
        beginning: Beginning { unix_secs: 0 },
        twcc: 0,
    };
    let mut stream = StreamTx::new(rt.alloc(), Ssrc::from(42), None, MidRid(mid(), None));
    let len = plain_len(rt.alloc(), &mut stream, &mut transport)?;
    assert!(rt; len == 14);
    Ok(())
}

// A queue with the packet, and whether its number is found there and the next is not.
fn is_found(alloc: Global, header: RtpHeader) -> Result<bool, AllocError> {
    if header.sequence_number != 1 || header.csrc_count > MAX_SOURCES {
        return Ok(false);
    }
    let mut queue = SendQueue::new(alloc);
    queue.push(RtpPacket {
        seq_no: SeqNo::from(1),
        time: MediaTime::new(0, Frequency::SECONDS),
        header,
        payload: Payload::from_slice(alloc, &[1, 2])?,
        timestamp: None,
        nackable: false,
    })?;
    Ok(is_queued(&queue, SeqNo::from(1)) && !is_queued(&queue, SeqNo::from(2)))
}

#[test]
fn a_queue_is_looked_into(rt: HostRuntime) -> Result<(), Fail> {
    let found = match RtpHeader::parse(&PACKET, &ExtensionMap::empty()) {
        Some(header) => is_found(rt.alloc(), header)?,
        None => false,
    };
    assert!(rt; found);
    Ok(())
}

#[test]
fn what_was_seen_is_gone_through(rt: HostRuntime) -> Result<(), Fail> {
    let mut seen = Seen::new(rt.alloc());
    assert!(rt; seen.is_empty());
    seen.put(Ssrc::from(42), SeqNo::from(9))?;
    seen.put(Ssrc::from(42), SeqNo::from(7))?;
    assert!(rt; seen.len() == 1);
    for (ssrc, window) in seen.iter() {
        assert!(rt; *ssrc == Ssrc::from(42) && window.max_seq() == SeqNo::from(9));
    }
    Ok(())
}

type Kept = Streams<MaskRegister, QueueStore<SentPacket>>;

// Type 96, whose repairs have type 97.
fn types(alloc: Global) -> Result<PayloadTypes, AllocError> {
    let mut types = PayloadTypes::new(alloc);
    types.add(TypeRow {
        pt: Pt::from(96),
        clock: Frequency::NINETY_KHZ,
        rtx: Some(Pt::from(97)),
        red: None,
    })?;
    Ok(types)
}

// A packet of number 1 is sent on the stream of SSRC 42, if there is one.
fn send_first(
    alloc: Global,
    streams: &mut Kept,
    transport: &mut Transport,
    types: &PayloadTypes,
) -> Result<(), Fail> {
    let now = Instant::from_nanos(1);
    let payload = Payload::from_slice(alloc, &[1, 2])?;
    let write = RtpWrite::new(Pt::from(96), SeqNo::from(1), 0, now, payload);
    if let Some(place) = streams.tx_place(Ssrc::from(42)) {
        streams.tx_at(place).write_rtp(write.nackable(true))?;
    }
    streams.handle_timeout(now);
    if let Some(place) = streams.tx_place(Ssrc::from(42)) {
        streams.poll_packet(place, now, transport, types)?;
    }
    Ok(())
}

// What is sent after the peer asked for that packet.
fn repair(
    alloc: Global,
    streams: &mut Kept,
    transport: &mut Transport,
    types: &PayloadTypes,
) -> Result<Option<PacketReceipt>, Fail> {
    let (ssrc, rtx) = (Ssrc::from(42), Ssrc::from(43));
    declare(streams, ssrc, rtx, MidRid(mid(), None))?;
    send_first(alloc, streams, transport, types)?;
    let entry = NackEntry { pid: 1, blp: 0 };
    let now = Instant::from_nanos(2);
    let receipt = send_again(streams, ssrc, &[entry], now, transport, types)?;
    Ok(receipt)
}

// Whether that is type 97, number 1 and SSRC 43, and in front of the payload the number 1 (RFC 4588
// section 4).
fn is_repaired(
    alloc: Global,
    streams: &mut Kept,
    transport: &mut Transport,
    types: &PayloadTypes,
) -> Result<bool, Fail> {
    let expected = [0x80, 0x61, 0, 1, 0, 0, 0, 0, 0, 0, 0, 0x2b, 0, 1, 1, 2];
    match repair(alloc, streams, transport, types)? {
        Some(receipt) => Ok(receipt.plain.as_slice() == expected.as_slice()),
        None => Ok(false),
    }
}

#[test]
fn a_packet_is_sent_again(rt: HostRuntime) -> Result<(), Fail> {
    let mut transport = Transport {
        exts: ExtensionMap::empty(),
        beginning: Beginning { unix_secs: 0 },
        twcc: 0,
    };
    let types = types(rt.alloc())?;
    let mut streams: Kept = Streams::new(rt.alloc(), Duration::from_millis(1_500));
    let repaired = is_repaired(rt.alloc(), &mut streams, &mut transport, &types)?;
    assert!(rt; repaired);
    Ok(())
}

#[test]
fn a_packet_is_exchanged(rt: HostRuntime) -> Result<(), Fail> {
    let material = KeyingMaterial::new(rt.alloc(), &[0; 56])?;
    let told = match exchange(rt.alloc(), &material, mid(), &[1, 2]) {
        Ok(told) => told,
        Err(_) => None,
    };
    let payload = match &told {
        Some(Event::RtpPacket(packet)) => packet.payload.as_slice(),
        Some(_) | None => &[],
    };
    assert!(rt; payload == [1, 2].as_slice());
    Ok(())
}

// How many payload types the peer of an end takes on its media section.
fn peer_types(alloc: Global) -> Result<usize, Fail> {
    let material = KeyingMaterial::new(alloc, &[0; 56])?;
    match end(alloc, &material, mid(), true) {
        Ok(session) => match session.medias() {
            [media] => Ok(media.remote_pts().len()),
            _ => Ok(0),
        },
        Err(_) => Ok(0),
    }
}

#[test]
fn an_end_has_a_media_section(rt: HostRuntime) -> Result<(), Fail> {
    let types = peer_types(rt.alloc())?;
    assert_eq!(rt; types, 1);
    Ok(())
}

#[test]
fn a_script_is_built(rt: HostRuntime) -> Result<(), Fail> {
    let (setup, steps) = one_write(rt.alloc(), mid(), &[1, 2])?;
    assert_eq!(rt; setup.media.as_slice().len(), 1);
    assert_eq!(rt; steps.len(), 3);
    Ok(())
}

#[test]
fn a_setup_may_be_played(rt: HostRuntime) -> Result<(), Fail> {
    let (setup, _) = one_write(rt.alloc(), mid(), &[1, 2])?;
    let may = may_be_played(rt.alloc(), &setup)?;
    assert!(rt; may);
    Ok(())
}

#[test]
fn a_value_is_replaced(rt: HostRuntime) -> Result<(), Fail> {
    let mut queue = queue_of_one(rt.alloc(), 7, Instant::from_nanos(1), 1)?;
    assert!(rt; replace(&mut queue, 7, 2));
    assert!(rt; !replace(&mut queue, 8, 3));
    assert!(rt; find(&queue, 7) == Some(2) && find(&queue, 8).is_none());
    assert_eq!(rt; queue.get(7).copied(), Some(2));
    Ok(())
}

#[test]
fn two_queues_wait(rt: HostRuntime) {
    let one = QueueSnapshot {
        created_at: Instant::from_nanos(10),
        packet_count: 2,
        ..QueueSnapshot::default()
    };
    let wait = wait_of_both(&one, &QueueSnapshot::default(), Instant::from_nanos(15));
    assert_eq!(rt; wait, Duration::from_nanos(10));
}

#[test]
fn the_queue_that_holds_a_packet_is_chosen(rt: HostRuntime) -> Result<(), Fail> {
    let mut pacer = NullPacer::new(rt.alloc());
    let now = Instant::from_nanos(1);
    let snapshot = QueueSnapshot {
        packet_count: 1,
        byte_size: 100,
        created_at: now,
        priority: QueuePriority::Media,
        ..QueueSnapshot::default()
    };
    let queue = QueueState {
        midrid: MidRid(mid(), None),
        unpaced: false,
        use_for_padding: false,
        snapshot,
    };
    let chosen = send_next(&mut pacer, now, &[queue], DataSize::bytes(100))?;
    assert!(rt; chosen == Some(mid()));
    Ok(())
}

fn packet_of(alloc: Global, number: u64) -> Result<Option<Arrival<u8>>, AllocError> {
    let Some(header) = RtpHeader::parse(&PACKET, &ExtensionMap::empty()) else {
        return Ok(None);
    };
    let meta = RtpMeta {
        received: Instant::from_nanos(1),
        time: MediaTime::new(960, Frequency::FORTY_EIGHT_KHZ),
        seq_no: SeqNo::from(number),
        header,
        last_sender_info: None,
    };
    let payload = Bytes::from_slice(alloc, &[1, 2])?;
    Ok(Some(Arrival { meta, payload }))
}

// Whether a frame is given where a packet of that number comes.
fn gives(
    alloc: Global,
    buffer: &mut DepacketizingBuffer<u8>,
    number: u64,
) -> Result<bool, AllocError> {
    let Some(packet) = packet_of(alloc, number)? else {
        return Ok(false);
    };
    let frame = next_frame(buffer, packet, Instant::from_nanos(1))?;
    Ok(frame.is_some())
}

// Whether a frame is given where the packet 1 comes, and none where the packet 3 does then.
fn gives_first_alone(
    alloc: Global,
    buffer: &mut DepacketizingBuffer<u8>,
) -> Result<bool, AllocError> {
    let first = gives(alloc, buffer, 1)?;
    let third = gives(alloc, buffer, 3)?;
    Ok(first && !third)
}

#[test]
fn a_frame_waits_for_its_turn(rt: HostRuntime) -> Result<(), Fail> {
    let depack = CodecDepacketizer::new(CodecSpec {
        codec: Codec::Opus,
        clock_rate: Frequency::FORTY_EIGHT_KHZ,
        channels: None,
        format: FormatParams::default(),
    });
    let mut buffer = DepacketizingBuffer::new(rt.alloc(), depack, 4);
    let waits = gives_first_alone(rt.alloc(), &mut buffer)?;
    assert!(rt; waits);
    Ok(())
}

// How long it took from sending a packet to the report of its arrival.
fn trip(alloc: Global, sent: &mut TwccSendRegister) -> Result<Option<Duration>, AllocError> {
    let id = TwccPacketId {
        seq: SeqNo::from(3),
        cluster: None,
    };
    sent.register_seq(id, DataSize::bytes(100), Instant::from_nanos(5))?;
    let mut came = TwccRecvRegister::new(alloc);
    let moment = Instant::from_nanos(9);
    match report_arrival(alloc, &mut came, SeqNo::from(3), moment)? {
        Some(report) => round_trip(alloc, sent, &report, Instant::from_nanos(25)),
        None => Ok(None),
    }
}

#[test]
fn a_report_tells_the_round_trip(rt: HostRuntime) -> Result<(), Fail> {
    let mut sent = TwccSendRegister::new(rt.alloc());
    let trip = trip(rt.alloc(), &mut sent)?;
    assert_eq!(rt; trip, Some(Duration::from_nanos(20)));
    Ok(())
}

#[test]
fn feedback_is_read(rt: HostRuntime) -> Result<(), Fail> {
    let told = read_feedback(rt.alloc(), &ASKED)?;
    let ssrc = match told.as_slice() {
        [feedback] => Some(feedback.ssrc()),
        _ => None,
    };
    assert_eq!(rt; ssrc, Some(Ssrc::from(42)));
    Ok(())
}

#[test]
fn steps_are_counted(rt: HostRuntime) {
    let script = b"str0m-media 1\nkey zero\nbegin\ntick A 1\ntick B 2\nend\n";
    assert!(rt; count_steps(rt.alloc(), script) == Ok(2));
}

#[test]
fn calls_are_played(rt: HostRuntime) {
    let script = b"pace 1\nrate 1000000\ntimeout 1 v:1:1000:0\npoll\nsend 1 1000\nend\n";
    let text = match play_calls(rt.alloc(), script) {
        Ok(Some(text)) => text,
        _ => String::new(rt.alloc()),
    };
    assert!(rt; text.as_str() == "chose v\nsent 8000 debt=8000000000000 rate=1000000\nend\n");
}

// RFC 3550 section 6.4.1, figure 2: a report that was sent at 11:33:25.125 is held for 5.25 s, and
// the block comes back at 11:33:36.5, so the round trip is 6.125 s.
#[test]
fn the_figure_of_the_standard(rt: HostRuntime) {
    let unix_secs = 3_024_992_005 - 2_208_988_800;
    let info = SenderInfo {
        ssrc: Ssrc::from(42),
        ntp_time: SystemTime::from_unix_nanos(unix_secs * 1_000_000_000 + 125_000_000),
        rtp_time: 0,
        sender_packet_count: 0,
        sender_octet_count: 0,
    };
    let trip = measured_trip(
        info,
        &ReceptionReport::default(),
        Instant::from_nanos(1_000_000_000),
        Instant::from_nanos(6_250_000_000),
        Instant::from_nanos(11_500_000_000),
        &Beginning { unix_secs },
    );
    assert!(rt; trip.is_some_and(|trip| trip.as_micros().abs_diff(6_125_000) <= 50));
}
