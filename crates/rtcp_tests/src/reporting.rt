use media_units::{Beginning, Duration, Instant, SystemTime};
use report_core::{
    LossLog, ReceiverMoments, RtpClock, SenderNews, StreamTxStats, Traffic, description,
    moment_report, receiver_report, receiver_trip, sender_info, sender_report, sender_trip,
};
use rtcp_wire::{
    Descriptions, DlrrItem, ExtendedReport, ReportBlock, Rrtr, SdesItem, SdesType, SenderInfo,
};
use rtp_base::{ReceptionReport, SeqNo, Ssrc};
use std::alloc::{AllocError, Global};
use twcc_core::Share;

// 10 Nov 1995, 11:33:25 UTC, in seconds of Unix time: the moment in figure 2 of RFC 3550.
const FIGURE: u64 = 3_024_992_005 - 2_208_988_800;

fn ms(count: u64) -> Instant {
    Instant::from_nanos(count.saturating_mul(1_000_000))
}

// The sender's information of figure 2 of RFC 3550, sent at 11:33:25.125.
fn info_of_the_figure() -> SenderInfo {
    let beginning = Beginning { unix_secs: FIGURE };
    let clock = RtpClock::new();
    sender_info(Ssrc::from(42), &clock, &Traffic::new(), ms(125), &beginning)
}

// The block of the figure's receiver, which held the report for 5.25 s.
fn block_of_the_figure() -> ReceptionReport {
    let mut news = SenderNews::new();
    news.take(info_of_the_figure(), ms(1_000));
    news.block(Ssrc::from(42), &ReceptionReport::default(), ms(6_250))
}

fn micros(trip: Option<Duration>) -> Option<u64> {
    let trip = trip?;
    Some(trip.as_micros())
}

// The trips that the block tells, and an answer to a receiver's moment with its values.
fn trips_of_the_figure(block: &ReceptionReport) -> [Option<u64>; 2] {
    let beginning = Beginning { unix_secs: FIGURE };
    let item = DlrrItem {
        ssrc: Ssrc::from(1),
        last_rr_time: block.last_sr_time,
        last_rr_delay: block.last_sr_delay,
    };
    let back = ms(11_500);
    [
        micros(sender_trip(block, back, &beginning)),
        micros(receiver_trip(&item, back, &beginning)),
    ]
}

// RFC 3550 section 6.4.1, figure 2: a report of 25.125 s that was held for 5.25 s comes back at
// 36.5 s.
#[test]
fn the_figure_of_the_standard(rt: HostRuntime) {
    let block = block_of_the_figure();
    let trips = trips_of_the_figure(&block);
    let told = (block.last_sr_time, block.last_sr_delay);
    assert!(rt; told == (0xb705_2000, 0x0005_4000) && trips == [Some(6_124_986); 2]);
}

fn moment() -> Rrtr {
    let ntp_time = SystemTime::from_unix_nanos(1_700_000_000_000_000_000);
    Rrtr { ntp_time }
}

// How many moments a report answers, and the SSRC of the first.
fn answered(report: &Option<ExtendedReport>) -> Option<(usize, u32)> {
    let report = report.as_ref()?;
    let Some(ReportBlock::Dlrr(dlrr)) = report.blocks.as_slice().first() else {
        return None;
    };
    let first = dlrr.items.as_slice().first()?;
    Some((dlrr.items.len(), first.ssrc.into()))
}

// Moments of as many receivers, 1 s apart.
fn moments_of(alloc: Global, count: u32) -> Result<ReceiverMoments, AllocError> {
    let mut moments = ReceiverMoments::new(alloc);
    for ssrc in 0..count {
        let came = ms(u64::from(ssrc).saturating_mul(1_000));
        moments.take(Ssrc::from(ssrc), &moment(), came)?;
    }
    Ok(moments)
}

// How many of 301 moments wait, what a report answers, and how many wait after it.
fn answer(alloc: Global) -> Result<(usize, Option<(usize, u32)>, usize), AllocError> {
    let mut moments = moments_of(alloc, 301)?;
    let waited = moments.len();
    let report = moments.answer(alloc, Ssrc::from(9), ms(400_000))?;
    moments.answered();
    Ok((waited, answered(&report), moments.len()))
}

// The oldest goes, and 50 are answered.
#[test]
fn moments_are_answered(rt: HostRuntime) {
    assert!(rt; answer(rt.alloc()) == Ok((300, Some((50, 1)), 250)));
}

// What a block tells of a loss.
fn lost(max_seq: u32, fraction_lost: u8) -> ReceptionReport {
    let mut block = ReceptionReport::default();
    block.max_seq = max_seq;
    block.fraction_lost = fraction_lost;
    block
}

// What is told of losses before any was, of three, and again.
fn weighed(alloc: Global) -> Result<[Option<Share>; 3], AllocError> {
    let mut log = LossLog::new(alloc);
    let before = log.visit();
    for block in [lost(100, 9), lost(400, 0), lost(200, 255)] {
        log.update_with_rr(SeqNo::from(500), &block)?;
    }
    let told = log.visit();
    Ok([before, told, log.visit()])
}

// Of 300 numbers the first 100 are lost.
static WEIGHED: [Option<Share>; 3] = [
    None,
    Some(Share {
        missing: 25_500,
        total: 76_500,
    }),
    None,
];

#[test]
fn losses_are_weighed(rt: HostRuntime) {
    assert!(rt; weighed(rt.alloc()) == Ok(WEIGHED));
}

// Whether a sender's report tells the figure's source, and no block.
fn is_of_the_sender(alloc: Global) -> bool {
    let report = sender_report(alloc, info_of_the_figure());
    report.reports.is_empty() && report.sender_info.ssrc == Ssrc::from(42)
}

fn is_cname(item: Option<&SdesItem>, text: &[u8]) -> bool {
    match item {
        Some(item) => item.kind == SdesType::CNAME && item.text.as_slice() == text,
        None => false,
    }
}

fn first_item(described: &Descriptions) -> Option<&SdesItem> {
    let source = described.reports.as_slice().first()?;
    source.values.as_slice().first()
}

fn is_described(alloc: Global) -> Result<bool, AllocError> {
    let described = description(alloc, Ssrc::from(42), b"cam")?;
    Ok(is_cname(first_item(&described), b"cam"))
}

// Whether a receiver's report has the block, and the moment with it is one of its SSRC.
fn is_of_the_receiver(alloc: Global) -> Result<bool, AllocError> {
    let beginning = Beginning { unix_secs: FIGURE };
    let receiver = receiver_report(alloc, Ssrc::from(1), Some(lost(7, 0)))?;
    let moment = moment_report(alloc, Ssrc::from(1), ms(1), &beginning)?;
    let reports = receiver.reports.len() == 1 && receiver.sender_ssrc == Ssrc::from(1);
    Ok(reports && moment.blocks.len() == 1 && moment.ssrc == Ssrc::from(1))
}

#[test]
fn reports_with_memory(rt: HostRuntime) {
    assert!(rt; is_of_the_sender(rt.alloc()));
    assert!(rt; is_described(rt.alloc()) == Ok(true));
    assert!(rt; is_of_the_receiver(rt.alloc()) == Ok(true));
}

// Two losses, of which the first is told before anything is sent.
fn report_two(stats: &mut StreamTxStats) -> Result<bool, AllocError> {
    stats.update_with_rr(SeqNo::from(500), &lost(100, 0))?;
    stats.update_with_rr(SeqNo::from(500), &lost(110, 255))?;
    Ok(stats.visit_loss().is_none())
}

fn counts(stats: &StreamTxStats) -> [u64; 4] {
    let counted = stats.counted().traffic;
    let resent = stats.resent();
    [counted.packets, counted.bytes, resent.packets, resent.bytes]
}

fn has_lost_all(stats: &mut StreamTxStats) -> bool {
    match stats.visit_loss() {
        Some(share) => share.missing == share.total,
        None => false,
    }
}

fn is_counted(stats: &mut StreamTxStats) -> Result<bool, AllocError> {
    let untold = report_two(stats)?;
    stats.update_packet_counts(5, false);
    stats.update_packet_counts(2, true);
    Ok(untold && counts(stats) == [2, 7, 1, 2] && has_lost_all(stats))
}

#[test]
fn an_outgoing_stream_is_counted(rt: HostRuntime) {
    let mut stats = StreamTxStats::new(rt.alloc(), true);
    let counted = is_counted(&mut stats);
    assert!(rt; counted == Ok(true));
}
