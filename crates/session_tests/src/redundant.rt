ghost use Rattle.std.specs.Prelude.{◌<◌};

use crate::ends::{mid, rid};
use mask_register::MaskRegister;
use media_units::{Beginning, Duration, Instant};
use rtp_base::{Frequency, MidRid, NUMBER_LIMIT, Pt, ReceptionReport, SeqNo, Ssrc};
use rtp_wire::ExtensionMap;
use std::alloc::{AllocError, Global};
use std::test::Fail;
use stream_core::{Arrival, Payload, RtpWrite, StreamRx, StreamTx, Transport};
use twcc_core::Share;

fn number(number: u64) -> SeqNo
    ensures { result < NUMBER_LIMIT }
{
    SeqNo::from(number % NUMBER_LIMIT)
}

fn arrival(rtp_time: u32) -> Arrival {
    Arrival {
        now: Instant::from_nanos(1),
        rtp_time,
        clock: Frequency::SECONDS,
        payload_len: Some(2),
    }
}

fn lost(alloc: Global, stream: &StreamRx<MaskRegister>, wanted: i32) -> Result<bool, AllocError> {
    let report = stream.create_report(alloc, Ssrc::from(2), Instant::from_nanos(2))?;
    Ok(
        report
            .reports
            .iter()
            .all(|block| block.packets_lost == wanted),
    )
}

// Whether a packet that is restored has its time, so that a block of another one is placed, on a
// stream on which 10, 11 and 14 came, frames of 20 ms of a clock of 48 kHz; and one is lost then. It
// is not taken once it is recovered.
fn restores(alloc: Global, stream: &mut StreamRx<MaskRegister>) -> Result<bool, AllocError> {
    for (at, time) in [(10, 0), (11, 960), (14, 3840)] {
        stream.take(&arrival(time), number(at), None)?;
    }
    let restored = stream.restore(12, &arrival(1920), None)?.is_some();
    let known = stream.place_redundant(SeqNo::from(14), 1920).is_none();
    let placed = stream.place_redundant(SeqNo::from(14), 2000) == Some(SeqNo::from(13));
    let lost = lost(alloc, stream, 1)?;
    stream.mark_recovered(number(13), 2880);
    let taken = stream.accepts(13, None).is_none();
    stream.reset_roc(0);
    Ok(restored && known && placed && lost && taken)
}

fn stream_of(alloc: Global) -> StreamRx<MaskRegister> {
    let names = MidRid(mid(), Some(rid()));
    let threshold = Duration::from_nanos(1_500_000_000);
    StreamRx::new(
        alloc,
        Ssrc::from(42),
        Some(Ssrc::from(43)),
        names,
        false,
        threshold,
    )
}

#[test]
fn restored_packets_have_their_times(rt: HostRuntime) -> Result<(), Fail> {
    let alloc = rt.alloc();
    let mut stream = stream_of(alloc);
    let held = restores(alloc, &mut stream)?;
    assert!(rt; held);
    Ok(())
}

fn block(max_seq: u32, fraction_lost: u8) -> ReceptionReport {
    ReceptionReport {
        ssrc: Ssrc::from(42),
        fraction_lost,
        packets_lost: 0,
        max_seq,
        jitter: 0,
        last_sr_time: 0,
        last_sr_delay: 0,
    }
}

fn loses(alloc: Global, stream: &mut StreamTx) -> Result<bool, AllocError> {
    stream.update_with_rr(&block(5, 255))?;
    stream.enable_stats(alloc);
    stream.update_with_rr(&block(10, 255))?;
    let unsealed = stream.visit_loss().is_none();
    let now = Instant::from_nanos(1);
    let payload = Payload::from_slice(alloc, &[1])?;
    let written = stream.write_rtp(RtpWrite::new(Pt::from(96), number(1), 0, now, payload));
    stream.handle_timeout(now);
    let mut transport = Transport {
        exts: ExtensionMap::empty(),
        beginning: Beginning { unix_secs: 0 },
        twcc: 0,
    };
    let waiting = stream.queue_snapshot(now).packet_count == 1;
    let sealed = stream.poll_packet(alloc, now, &mut transport)?;
    stream.update_with_rr(&block(30, 51))?;
    stream.update_with_rr(&block(20, 0))?;
    let seen = stream.visit_loss();
    let again = stream.visit_loss().is_none();
    let wanted = Share {
        missing: 510,
        total: 5100,
    };
    let sent = written.is_ok() && waiting && sealed.is_some();
    Ok(sent && unsealed && again && seen == Some(wanted))
}

#[test]
fn losses_are_told_once(rt: HostRuntime) -> Result<(), Fail> {
    let alloc = rt.alloc();
    let mut stream = StreamTx::new(alloc, Ssrc::from(42), None, MidRid(mid(), None));
    let held = loses(alloc, &mut stream)?;
    assert!(rt; held);
    Ok(())
}
