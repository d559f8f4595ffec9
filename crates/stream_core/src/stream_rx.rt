ghost use Rattle.std.specs.Prelude.{◌≡◌, ◌<◌, ◌≤◌, ◌+◌, ◌%◌, ℕ, true, Option, None, Some, is_none, IfOk, IfSome, OnOk, OnErr};
ghost use Rattle.std.specs.Option.{ForSome};
ghost use Rattle.repair_core.specs.Fresh.{is_fresh, started_from, greatest_of};
ghost use Rattle.repair_core.specs.Rounds.{came, started_at};
ghost use Rattle.stream_core.specs.Pauses.{checked, told_of, told};
ghost use Rattle.stream_core.specs.RxRecord.{RxRecord, StandsFor, expected, taken_of, number_for, fresh_number, unpaused, came_at, opened_as, restarted, moved_to, repaired_under, taken_time, restored_time, remembered_at, placed, recovered_as};
ghost use Rattle.stream_core.specs.RxRepairs.{own_number, fresh_repair, repair_came, restored_for, restored, with_number, after_restored};

mod reporting;

use crate::reports::{Arrival, RxReports};
use crate::requests::RxRequests;
use crate::stream_paused::StreamPaused;
use media_base::Bytes;
use media_units::{Duration, Instant};
use red_core::{MAX_RED_RECOVERY_DEPTH, RedMemory};
use repair_core::GapWindow;
use rtp_base::{MediaTime, Mid, MidRid, NUMBER_LIMIT, Rid, SeqNo, Ssrc, widen16};
use rtx_core::RepairWindow;
use std::alloc::{AllocError, Global};
use std::marker::Model;

/// A stream that a session receives (RFC 3550 section 3). Its window is made when the first number
/// is taken, from the greatest number that is remembered of its SSRC by then. What is remembered is
/// handed in by the caller, below 2^48; once there is a window, it does not count. Repairs (RFC
/// 4588) have numbers and a window of their own. A stream is paused at first, and again where
/// nothing came for its threshold.
#[derive(Drop)]
pub struct StreamRx<W: GapWindow> {
    alloc: Global,
    ssrc: Ssrc,
    rtx: Option<Ssrc>,
    mid: Mid,
    rid: Option<Rid>,
    roc: Option<u32>,
    suppress_nack: bool,
    pause_threshold: Duration,
    // From when on it is paused unless something comes, None while it is paused.
    pause_at: Option<Instant>,
    // Whether it was paused or unpaused since that was told.
    untold: bool,
    // The round trip to its sender.
    trip: Option<Duration>,
    // The name of its source, once that was told.
    cname: Option<Bytes>,
    reports: RxReports,
    // What it asks of its sender at the next tick.
    requests: RxRequests,
    window: Option<W>,
    repairs: RepairWindow,
    // The last numbers that were taken, and their times.
    recent: RedMemory,
}

impl<W: GapWindow> Model for StreamRx<W> {
    ghost use Rattle.stream_core.specs.RxRecord.{RxView};

    ghost Value = { RxView W };

    ghost view = { λ s. record {
      state = record {
        ssrc = s.ssrc;
        rtx = s.rtx;
        mid = s.mid;
        rid = s.rid;
        roc = s.roc;
        suppressed = s.suppress_nack;
        threshold = s.pause_threshold;
        pause_at = s.pause_at;
        untold = s.untold;
        trip = s.trip;
        cname = s.cname;
        reports = s.reports;
        requests = s.requests;
      };
      window = s.window;
      repairs = s.repairs;
      recent = s.recent;
    } };
}

fn number_of(number: Option<SeqNo>) -> Option<u64>
    ensures { result ≡ number }
{
    match number {
        Some(number) => Some(u64::from(number)),
        None => None,
    }
}

/// A window from a remembered number, with one more number.
fn window_with<W: GapWindow>(
    alloc: Global,
    remembered: Option<SeqNo>,
    number: SeqNo,
) -> Result<W, AllocError>
    requires remembered { ForSome remembered (λ n. n < NUMBER_LIMIT) }
    requires number { number < NUMBER_LIMIT }
    ensures { IfOk result (λ w. W.remembers w (came (started_at remembered) number)) }
{
    let mut window = W::new(alloc, remembered)?;
    window.update(number);
    Ok(window)
}

/// Whether a number is above the remembered one, if there is one.
fn is_above(remembered: Option<SeqNo>, number: SeqNo) -> bool
    ensures { result ≡ is_fresh (started_from remembered) number }
{
    match remembered {
        Some(greatest) => greatest < number,
        None => true,
    }
}

/// The number with these low 16 bits under which the first datagram of a stream may open that is no
/// repair, None where so great a number is remembered of its SSRC.
pub fn first_number(low: u16, remembered: Option<SeqNo>) -> Option<SeqNo>
    requires { ForSome remembered (λ n. n < NUMBER_LIMIT) }
    ensures fresh { (r : RxRecord) → r.numbers ≡ None → r.state.roc ≡ None → result ≡ fresh_number remembered r low }
    ensures small { IfSome result (λ n. n < NUMBER_LIMIT) }
    ensures low { IfSome result (λ n. n % 65536 ≡ low) }
{
    let before = &remembered;
    let number = SeqNo::from(widen16(number_of(*before), low));
    if is_above(*before, number) {
        Some(number)
    } else {
        None
    }
}

/// The own number of the first repair of a stream with these low 16 bits, where `seen` is the
/// greatest number that was seen on the SSRC of its datagram, below 2^48.
pub fn first_repair_number(low: u16, seen: Option<SeqNo>) -> SeqNo
    requires { ForSome seen (λ n. n < NUMBER_LIMIT) }
    ensures number { (r : RxRecord) → r.repairs ≡ None → result ≡ own_number seen r low }
    ensures small { result < NUMBER_LIMIT }
    ensures low { result % 65536 ≡ low }
{
    RepairWindow::new().number_for(low, seen)
}

/// The own number under which the first repair of a stream with these low 16 bits may open.
pub fn first_repair(low: u16, seen: Option<SeqNo>) -> Option<SeqNo>
    requires { ForSome seen (λ n. n < NUMBER_LIMIT) }
    ensures fresh { (r : RxRecord) → r.repairs ≡ None → result ≡ fresh_repair seen r low }
    ensures small { IfSome result (λ n. n < NUMBER_LIMIT) }
    ensures low { IfSome result (λ n. n % 65536 ≡ low) }
{
    let before = &seen;
    let number = first_repair_number(low, *before);
    if RepairWindow::new().accepts(number, *before) {
        Some(number)
    } else {
        None
    }
}

impl<W: GapWindow> StreamRx<W> {
    /// A stream of an SSRC and of that of its repairs, for a media section or one stream of it, on
    /// which nothing was opened. With `suppress_nack` it asks for nothing that is missing. It is
    /// paused where nothing came for `pause_threshold`.
    pub fn new(
        alloc: Global,
        ssrc: Ssrc,
        rtx: Option<Ssrc>,
        mid_rid: MidRid,
        suppress_nack: bool,
        pause_threshold: Duration,
    ) -> Self
        ensures { StandsFor W.remembers result (expected ssrc rtx mid_rid.0 mid_rid.1 suppress_nack pause_threshold) }
    {
        StreamRx {
            alloc,
            ssrc,
            rtx,
            mid: mid_rid.0,
            rid: mid_rid.1,
            roc: None,
            suppress_nack,
            pause_threshold,
            pause_at: None,
            untold: false,
            trip: None,
            cname: None,
            reports: RxReports::new(),
            requests: RxRequests::new(),
            window: None,
            repairs: RepairWindow::new(),
            recent: RedMemory::new(),
        }
    }

    /// The SSRC of its packets.
    pub fn ssrc(&self) -> Ssrc
        ensures { result ≡ self.now.state.ssrc }
    {
        self.ssrc
    }

    /// The SSRC of its repairs (RFC 4588), if it has one.
    pub fn rtx(&self) -> Option<Ssrc>
        ensures { result ≡ self.now.state.rtx }
    {
        self.rtx
    }

    /// The media section that it belongs to (RFC 9143).
    pub fn mid(&self) -> Mid
        ensures { result ≡ self.now.state.mid }
    {
        self.mid
    }

    /// Which stream of its media section it is, if that has several (RFC 8852).
    pub fn rid(&self) -> Option<Rid>
        ensures { result ≡ self.now.state.rid }
    {
        self.rid
    }

    /// Whether no number was taken yet, so that what is remembered counts.
    pub fn is_new(&self) -> bool
        ensures { (r : RxRecord) → StandsFor W.remembers self.now r → result ≡ is_none r.numbers }
    {
        match &self.window {
            Some(_) => false,
            None => true,
        }
    }

    /// The greatest number that was taken, or is remembered.
    pub fn max_seq(&self, remembered: Option<SeqNo>) -> Option<SeqNo>
        requires { ForSome remembered (λ n. n < NUMBER_LIMIT) }
        ensures greatest { (r : RxRecord) → StandsFor W.remembers self.now r → result ≡ greatest_of (taken_of remembered r) }
        ensures small { ForSome result (λ n. n < NUMBER_LIMIT) }
    {
        match &self.window {
            Some(window) => window.max_seq(),
            None => remembered,
        }
    }

    /// The number that has these low 16 bits: with the rollover count that was set, else nearest to
    /// the greatest number (RFC 3711 section 3.3.1).
    fn number_for(&self, low: u16, remembered: &Option<SeqNo>) -> SeqNo
        requires { ForSome remembered.now (λ n. n < NUMBER_LIMIT) }
        ensures number { (r : RxRecord) → StandsFor W.remembers self.now r → result ≡ number_for remembered.now r low }
        ensures small { result < NUMBER_LIMIT }
        ensures low { result % 65536 ≡ low }
    {
        match self.roc {
            Some(roc) => SeqNo::from(u64::from(roc) * 65536 + u64::from(low)),
            None => SeqNo::from(widen16(number_of(self.max_seq(*remembered)), low)),
        }
    }

    /// Whether a number may still be taken.
    fn is_fresh(&self, number: SeqNo, remembered: &Option<SeqNo>) -> bool
        requires { number < NUMBER_LIMIT }
        ensures { (r : RxRecord) → StandsFor W.remembers self.now r → result ≡ is_fresh (taken_of remembered.now r) number }
    {
        match &self.window {
            Some(window) => window.accepts(number),
            None => is_above(*remembered, number),
        }
    }

    /// The number under which a datagram with these low 16 bits may open, None where it may not be
    /// taken any more.
    pub fn accepts(&self, low: u16, remembered: Option<SeqNo>) -> Option<SeqNo>
        requires { ForSome remembered (λ n. n < NUMBER_LIMIT) }
        ensures fresh { (r : RxRecord) → StandsFor W.remembers self.now r → result ≡ fresh_number remembered r low }
        ensures small { IfSome result (λ n. n < NUMBER_LIMIT) }
        ensures low { IfSome result (λ n. n % 65536 ≡ low) }
    {
        let number = self.number_for(low, &remembered);
        if self.is_fresh(number, &remembered) {
            Some(number)
        } else {
            None
        }
    }

    /// Takes a number. Without memory nothing changes.
    fn put(&mut self, number: SeqNo, remembered: Option<SeqNo>) -> Result<(), AllocError>
        requires number { number < NUMBER_LIMIT }
        requires remembered { ForSome remembered (λ n. n < NUMBER_LIMIT) }
        ensures ok { OnOk result ((r : RxRecord) → StandsFor W.remembers self.old r → StandsFor W.remembers self.new (with_number remembered number r)) }
        ensures state { self.new.state ≡ self.old.state }
        ensures recent { self.new.recent ≡ self.old.recent }
        ensures err { OnErr result (self.new ≡ self.old) }
        ensures cause { OnErr result (self.old.window ≡ None) }
    {
        match &mut self.window {
            Some(window) => {
                window.update(number);
            }
            None => {
                self.window = Some(window_with::<W>(self.alloc, remembered, number)?);
            }
        }
        Ok(())
    }

    /// Forgets the numbers that were taken.
    fn forget_numbers(&mut self)
        ensures { self.new ≡ record self.old { window = None } }
    {
        self.window = None;
    }

    /// Something opened at a moment: the stream is not paused until its threshold has passed.
    fn unpause(&mut self, now: Instant)
        ensures { self.new ≡ record self.old { state = unpaused now self.old.state } }
    {
        self.untold = self.untold || self.pause_at.is_none();
        self.pause_at = Some(now.saturating_add(self.pause_threshold));
    }

    /// Takes a number under which a datagram opened, and remembers it with its time: the stream is
    /// not paused until its threshold has passed. Without memory nothing changes.
    pub fn take(
        &mut self,
        arrival: &Arrival,
        number: SeqNo,
        remembered: Option<SeqNo>,
    ) -> Result<(), AllocError>
        requires number { number < NUMBER_LIMIT }
        requires remembered { ForSome remembered (λ n. n < NUMBER_LIMIT) }
        ensures ok { OnOk result ((r : RxRecord) → StandsFor W.remembers self.old r → StandsFor W.remembers self.new (opened_as remembered arrival.entry.now number r)) }
        ensures state { OnOk result (self.new.state ≡ came_at arrival.entry.now number self.old.state) }
        ensures err { OnErr result (self.new ≡ self.old) }
        ensures cause { OnErr result (self.old.window ≡ None) }
    {
        self.put(number, remembered)?;
        let was_paused = self.pause_at.is_none();
        self.unpause(arrival.now);
        self.roc = None;
        self.reports.arrived(number, arrival);
        let time = self.reports.timed(arrival, was_paused);
        self.recent.took(number, time.numer);
        Ok(())
    }

    /// The RTP time of a packet that is taken as it came (RFC 3550 section 5.1), widened by the
    /// last one. Where the stream is paused and the time would lie before the last one, the time
    /// half of the 32 bits on is taken instead, if it lies behind the last one.
    pub fn taken_time(&self, arrival: &Arrival) -> MediaTime
        ensures { result ≡ taken_time arrival.entry.now self.now.state }
    {
        self.reports.time_of(arrival, self.pause_at.is_none())
    }

    /// The RTP time of a packet that is restored from a repair that so came, widened by the last
    /// one. It is not the stream's last time from then on.
    pub fn restored_time(&self, arrival: &Arrival) -> MediaTime
        ensures { result ≡ restored_time arrival.entry.now self.now.state }
    {
        self.reports.time_of(arrival, false)
    }

    /// The RTP time of the packet that was taken last, None before one was. Packets that were
    /// restored do not count.
    pub fn last_time(&self) -> Option<MediaTime>
        ensures { result ≡ self.now.state.reports.times.last }
    {
        self.reports.times.last
    }

    /// A repair's own number with these low 16 bits (RFC 3711 section 3.3.1), where `seen` is the
    /// greatest number that was seen on the SSRC of its datagram, below 2^48: nearest to the
    /// greatest repair that was taken, before the first one to what was seen.
    pub fn repair_number(&self, low: u16, seen: Option<SeqNo>) -> SeqNo
        requires { ForSome seen (λ n. n < NUMBER_LIMIT) }
        ensures number { (r : RxRecord) → StandsFor W.remembers self.now r → result ≡ own_number seen r low }
        ensures small { result < NUMBER_LIMIT }
        ensures low { result % 65536 ≡ low }
    {
        self.repairs.number_for(low, seen)
    }

    /// The own number under which a repair with these low 16 bits may open (RFC 4588), None where
    /// it may not be taken any more: up to the greatest number that was seen when the first repair
    /// opened, no repair is taken.
    pub fn accepts_repair(&self, low: u16, seen: Option<SeqNo>) -> Option<SeqNo>
        requires { ForSome seen (λ n. n < NUMBER_LIMIT) }
        ensures fresh { (r : RxRecord) → StandsFor W.remembers self.now r → result ≡ fresh_repair seen r low }
        ensures small { IfSome result (λ n. n < NUMBER_LIMIT) }
        ensures low { IfSome result (λ n. n % 65536 ≡ low) }
    {
        let before = &seen;
        let number = self.repair_number(low, *before);
        if self.repairs.accepts(number, *before) {
            Some(number)
        } else {
            None
        }
    }

    /// Takes the own number of a repair that opened at a moment: the stream is not paused until its
    /// threshold has passed. A rollover count that was set stays for the next datagram that is no
    /// repair.
    pub fn take_repair(&mut self, now: Instant, number: SeqNo, seen: Option<SeqNo>)
        requires number { number < NUMBER_LIMIT }
        requires seen { ForSome seen (λ n. n < NUMBER_LIMIT) }
        ensures taken { (r : RxRecord) → StandsFor W.remembers self.old r → StandsFor W.remembers self.new (repair_came seen now number r) }
        ensures state { self.new.state ≡ unpaused now self.old.state }
    {
        self.repairs.take(number, seen);
        self.unpause(now);
    }

    /// The number with these low 16 bits that is nearest to the greatest one that was taken, fresh
    /// or not.
    pub fn restored_number(&self, low: u16, remembered: &Option<SeqNo>) -> SeqNo
        requires { ForSome remembered.now (λ n. n < NUMBER_LIMIT) }
        ensures number { (r : RxRecord) → StandsFor W.remembers self.now r → result ≡ restored_for remembered.now r low }
        ensures small { result < NUMBER_LIMIT }
        ensures low { result % 65536 ≡ low }
    {
        SeqNo::from(widen16(number_of(self.max_seq(*remembered)), low))
    }

    /// Takes the number of the packet that a repair repairs, remembers it with its time, and gives
    /// it: the payload of the repair begins with its low 16 bits (RFC 4588 section 4). None where
    /// it is not fresh: the packet then enters the jitter alone. Without memory nothing changes.
    pub fn restore(
        &mut self,
        low: u16,
        arrival: &Arrival,
        remembered: Option<SeqNo>,
    ) -> Result<Option<SeqNo>, AllocError>
        requires { ForSome remembered (λ n. n < NUMBER_LIMIT) }
        ensures restored { IfOk result (λ o. (r : RxRecord) → StandsFor W.remembers self.old r → o ≡ restored remembered r low) }
        ensures after { OnOk result ((r : RxRecord) → StandsFor W.remembers self.old r → StandsFor W.remembers self.new (after_restored remembered arrival.entry.now low r)) }
        ensures state { self.new.state ≡ record self.old.state { reports = self.new.state.reports } }
        ensures small { IfOk result (λ o. IfSome o (λ n. n < NUMBER_LIMIT)) }
        ensures low { IfOk result (λ o. IfSome o (λ n. n % 65536 ≡ low)) }
        ensures err { OnErr result (self.new ≡ self.old) }
        ensures cause { OnErr result (self.old.window ≡ None) }
    {
        let number = self.restored_number(low, &remembered);
        if !self.is_fresh(number, &remembered) {
            self.reports.came_late(arrival);
            return Ok(None);
        }
        self.put(number, remembered)?;
        let time = self.restored_time(arrival);
        self.recent.took(number, time.numer);
        self.reports.arrived(number, arrival);
        Ok(Some(number))
    }

    /// The number of a redundant block (RFC 2198) of this time, widened as those of packets are,
    /// that came in a datagram that was taken under this number. None where a remembered number has
    /// that time, where it cannot be told, and before a number was taken. It is between L, the
    /// greatest of the last 32 numbers with an earlier time, and U, the least with a later time:
    /// the only number there that may still be taken, or of several the one at the block's time,
    /// where times rise from L to U by whole and equal steps, if it may still be taken. L is 0 to 9
    /// below the datagram, and the number 0 to 8. At most 32 entries are looked at, and each number
    /// from L to U: at most 8 where the datagram is remembered with a later time.
    pub fn place_redundant(&self, datagram: SeqNo, time: u64) -> Option<SeqNo>
        ensures place { (r : RxRecord) → StandsFor W.remembers self.now r → result ≡ placed datagram time r }
        ensures fresh { (r : RxRecord) (remembered : Option ℕ) → StandsFor W.remembers self.now r → IfSome result (λ n. is_fresh (taken_of remembered r) n ≡ true) }
        ensures near { IfSome result (λ n. (n ≤ datagram) × (datagram ≤ n + MAX_RED_RECOVERY_DEPTH)) }
    {
        match &self.window {
            Some(window) => self.recent.place(window, datagram, time),
            None => None,
        }
    }

    /// A redundant block was recovered under its number, below 2^48: the number is taken, and
    /// neither asked for nor taken again. It counts as none that came. It is remembered with its
    /// time, so no other block of that time has a place. Before a number was taken nothing changes.
    pub fn mark_recovered(&mut self, number: SeqNo, time: u64)
        requires { number < NUMBER_LIMIT }
        ensures recovered { (r : RxRecord) → StandsFor W.remembers self.old r → StandsFor W.remembers self.new (recovered_as number time r) }
        ensures state { self.new.state ≡ self.old.state }
    {
        if let Some(window) = &mut self.window {
            self.recent.recovered(window, number, time);
        }
    }

    /// Forgets the numbers that were taken, those of repairs too, their times, and what was counted
    /// of packets, and takes the rollover count for granted that the next datagram has that opens
    /// and is no repair (RFC 3711 section 3.3.1).
    pub fn reset_roc(&mut self, roc: u32)
        ensures { (r : RxRecord) → StandsFor W.remembers self.old r → StandsFor W.remembers self.new (restarted roc r) }
    {
        self.forget_numbers();
        self.repairs = RepairWindow::new();
        self.recent.clear();
        self.roc = Some(roc);
        self.reports.forget();
    }

    /// Its packets come under another SSRC. What was taken of them, their times and how they came,
    /// a rollover count that was set, what its sender reported and what it is asked are forgotten,
    /// its next full intra request has the number 0, and its next report is due as that of a stream
    /// that never reported. What was taken of its repairs stays, and so do its statistics.
    pub fn change_ssrc(&mut self, ssrc: Ssrc)
        ensures { (r : RxRecord) → StandsFor W.remembers self.old r → StandsFor W.remembers self.new (moved_to ssrc r) }
    {
        self.ssrc = ssrc;
        self.roc = None;
        self.reports.reset();
        self.requests = RxRequests::new();
        self.recent = RedMemory::new();
        self.forget_numbers();
    }

    /// Its repairs come under another SSRC, or for the first time under one. What was taken of them
    /// is forgotten.
    pub fn change_rtx(&mut self, rtx: Ssrc)
        ensures { (r : RxRecord) → StandsFor W.remembers self.old r → StandsFor W.remembers self.new (repaired_under rtx r) }
    {
        self.rtx = Some(rtx);
        self.repairs = RepairWindow::new();
    }

    /// Sets how long nothing comes on the stream until it is paused, from the next datagram on.
    pub fn set_pause_threshold(&mut self, threshold: Duration)
        ensures { self.new ≡ record self.old { state = record self.old.state { threshold = threshold } } }
    {
        self.pause_threshold = threshold;
    }

    /// Sets whether it asks for nothing that is missing. A stream without an SSRC of repairs is
    /// made so.
    pub fn suppress_nack(&mut self, suppress: bool)
        ensures { self.new ≡ record self.old { state = record self.old.state { suppressed = suppress } } }
    {
        self.suppress_nack = suppress;
    }

    /// Sets the round trip to its sender, after which it asks again for what is missing.
    pub fn set_trip(&mut self, trip: Option<Duration>)
        ensures { self.new ≡ record self.old { state = record self.old.state { trip = trip } } }
    {
        self.trip = trip;
    }

    /// From which moment on it is paused unless something comes, None while it is paused.
    pub fn paused_at(&self) -> Option<Instant>
        ensures { result ≡ self.now.state.pause_at }
    {
        self.pause_at
    }

    /// A tick: the stream is paused where its threshold has passed since the last datagram that
    /// opened.
    pub fn handle_timeout(&mut self, now: Instant)
        ensures { self.new ≡ record self.old { state = checked now self.old.state } }
    {
        if let Some(at) = self.pause_at {
            if at <= now {
                self.pause_at = None;
                self.untold = true;
            }
        }
    }

    /// Whether it was paused or unpaused since that was told.
    pub fn is_untold(&self) -> bool
        ensures { result ≡ self.now.state.untold }
    {
        self.untold
    }

    /// Tells, once, whether it is paused, where that changed since it was told.
    pub fn poll_paused(&mut self) -> Option<StreamPaused>
        ensures event { result ≡ told_of self.old.state }
        ensures after { self.new ≡ record self.old { state = told self.old.state } }
    {
        if !self.untold {
            return None;
        }
        self.untold = false;
        Some(StreamPaused {
            ssrc: self.ssrc,
            mid: self.mid,
            rid: self.rid,
            paused: self.pause_at.is_none(),
        })
    }
}
