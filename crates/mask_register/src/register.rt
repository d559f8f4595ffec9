ghost use Rattle.std.specs.Prelude.{◌≡◌, ℕ, ◌+◌, ◌≤◌, ◌<◌, ◌++◌, [], None, length};
ghost use Rattle.std.specs.List.{list_any};
ghost use Rattle.repair_core.specs.Entries.{packed};
ghost use Rattle.repair_core.specs.Rounds.{grace_of, moment_after};
ghost use Rattle.mask_register.specs.MaskRegister.{rows_after, due_of, window_of, window_in, is_open, latest_of};

use crate::asks::{Ask, Asks};
use crate::window::Window;
use media_units::{Duration, Instant};
use repair_core::rounds::{Missing, grace, later, pack, wait};
use repair_core::{GapWindow, MAX_ENTRIES_BEFORE_ROUND, MAX_NACKS, MAX_ROUND_ENTRIES};
use rtp_base::{NackEntry, ReportList, SeqNo};
use std::alloc::{AllocError, Global};
use std::ops::Range;

/// The numbers that were taken, as far as the answers need them, as a mask of the last 101, and how
/// often the missing ones among them were asked for. Taking a number costs the same whatever was
/// lost; only a round, and what is asked of missing numbers, looks at each of the window.
#[derive(Debug, Drop)]
pub struct MaskRegister {
    window: Option<Window>,
    asks: Asks,
}

impl MaskRegister {
    ghost use Rattle.std.specs.Prelude.{max};

    /// Whether a missing number of the range may be asked for again.
    fn has_open(&self, window: &Window, from: u64, to: u64) -> bool
        ensures { result ≡ list_any (is_open window.now self.now.asks) (window_in window.now from to) }
    {
        let low = window.lowest().max(from);
        let high = window.greatest.min(to);
        for number in low..high {
            if window.is_missing(number) && self.asks.row(number).times < MAX_NACKS {
                return true;
            }
        }
        false
    }

    /// The latest ask for a missing number of the range.
    fn last_ask(&self, window: &Window, from: u64, to: u64) -> Option<Instant>
        ensures { result ≡ latest_of window.now self.now.asks None (window_in window.now from to) }
    {
        let low = window.lowest().max(from);
        let high = window.greatest.min(to);
        let mut latest = None;
        for number in low..high {
            if window.is_missing(number) {
                latest = later(latest, self.asks.row(number).last);
            }
        }
        latest
    }

    /// Asks for what is due, and keeps the rows of the missing numbers alone.
    fn round(
        &mut self,
        window: &Window,
        now: Instant,
        wait: Duration,
        reports: &mut ReportList<NackEntry>,
    )
        requires { length reports.old ≤ MAX_ENTRIES_BEFORE_ROUND }
        ensures window { self.new.window ≡ self.old.window }
        ensures asks { self.new.asks ≡ rows_after window.now self.old.asks now wait (window_of window.now) }
        ensures entries { reports.new ≡ reports.old ++ packed None (due_of window.now self.old.asks now wait (window_of window.now)) }
        ensures few { length reports.new ≤ length reports.old + MAX_ROUND_ENTRIES }
    {
        let mut asks = Asks::new();
        let mut begun: Option<Missing> = None;
        for number in window.lowest()..window.greatest {
            if window.is_missing(number) {
                let ask = self.asks.row(number);
                if ask.is_due(now, wait) {
                    begun = Some(pack(begun, number, reports));
                }
                asks.push(ask.turned(now, wait));
            }
        }
        if let Some(missing) = begun {
            reports.push(missing.entry());
        }
        self.asks = asks;
    }
}

impl GapWindow for MaskRegister {
    ghost use Rattle.mask_register.specs.MaskRegister.{Remembers};

    ghost remembers = { Remembers };

    fn new(_alloc: Global, max_seq_no: Option<SeqNo>) -> Result<Self, AllocError> {
        let mut register = MaskRegister {
            window: None,
            asks: Asks::new(),
        };
        register.clear(max_seq_no);
        Ok(register)
    }

    fn clear(&mut self, max_seq_no: Option<SeqNo>) {
        self.window = match max_seq_no {
            Some(number) => Some(Window::begun(u64::from(number))),
            None => None,
        };
        self.asks.clear();
    }

    fn accepts(&self, seq: SeqNo) -> bool {
        match &self.window {
            Some(window) => window.accepts(u64::from(seq)),
            None => true,
        }
    }

    fn update(&mut self, seq: SeqNo) -> bool {
        let number = u64::from(seq);
        let window = match self.window {
            Some(window) => {
                if !window.accepts(number) {
                    return false;
                }
                window.with(number)
            }
            None => Window::begun(number),
        };
        self.window = Some(window);
        true
    }

    fn max_seq(&self) -> Option<SeqNo> {
        match &self.window {
            Some(window) => Some(SeqNo::from(window.greatest)),
            None => None,
        }
    }

    fn has_pending_nacks(&self) -> bool {
        match &self.window {
            Some(window) => !window.is_whole() && self.has_open(window, 0, window.greatest),
            None => false,
        }
    }

    fn nack_reports(
        &mut self,
        now: Instant,
        trip: Option<Duration>,
        reports: &mut ReportList<NackEntry>,
    ) {
        if let Some(window) = self.window {
            if !window.is_whole() {
                self.round(&window, now, wait(trip), reports);
            }
        }
    }

    fn recovery_deadline(
        &self,
        range: Range<SeqNo>,
        received: Instant,
        trip: Option<Duration>,
    ) -> Option<Instant> {
        let Some(window) = &self.window else {
            return given_up(received, trip);
        };
        let from = u64::from(range.start);
        let to = u64::from(range.end);
        if self.has_open(window, from, to) {
            return None;
        }
        given_up(self.last_ask(window, from, to).unwrap_or(received), trip)
    }
}

/// When a number is given up that was asked for last at this moment.
fn given_up(last: Instant, trip: Option<Duration>) -> Option<Instant>
    ensures { result ≡ moment_after last (grace_of trip) }
{
    last.checked_add(grace(trip))
}
