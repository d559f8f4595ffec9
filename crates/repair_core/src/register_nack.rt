ghost use Rattle.std.specs.Prelude.{◌≡◌, ℕ, ◌+◌, ◌-◌, ◌<◌, ◌≤◌, max, true, false, List, [], ◌∷◌, ◌++◌, IfOk, IfSome, Bool, Option, None, length};
ghost use Rattle.std.specs.Option.{ForSome};
ghost use Rattle.std.specs.Bool.{OnFalse, OnTrue};
ghost use Rattle.repair_core.specs.Fresh.{is_fresh, with_number, greatest_of, started_from};
ghost use Rattle.repair_core.specs.Slots.{holds, known, slot_due, slot_needs, ask};
ghost use Rattle.repair_core.specs.RegisterState.{IsQuiet};
ghost use Rattle.repair_core.specs.Rounds.{Heard, started_at, came, round, due, is_pending, wait_of, deadline, grace_of, later as later_of};
ghost use Rattle.repair_core.specs.Entries.{packed};

use crate::missing::{Missing, pack};
use crate::slots::{Slot, Slots};
use media_units::{Duration, Instant};
use rtp_base::{MAX_REPORTS, NUMBER_LIMIT, NackEntry, ReportList, SeqNo};
use std::alloc::{AllocError, Global};
use std::marker::Model;
use std::ops::Range;

/// How far below the greatest a number may be to be taken, in numbers: a choice.
pub const MAX_MISORDER: u64 = 100;

/// How often a missing number is asked for: a choice.
pub const MAX_NACKS: u8 = 5;

/// The round trip where none is known, in nanoseconds: a choice.
pub const DEFAULT_RTT_NANOS: u64 = 100_000_000;

/// How long past the round trip a number is asked for again, in nanoseconds: a choice.
pub const NACK_RETRY_MARGIN_NANOS: u64 = 5_000_000;

/// The least time between two rounds that ask for what is missing, in nanoseconds: a choice.
pub const NACK_MIN_INTERVAL: u64 = 33_000_000;

/// How many round trips after the last ask a missing number is given up: a choice.
pub const GRACE_ROUND_TRIPS: u64 = 3;

/// The most entries of one round: an entry names a number and those of the next 16 that are missing
/// (RFC 4585 section 6.2.1), so that six name 100.
pub const MAX_ROUND_ENTRIES: usize = 6;

/// The most entries of a list that has room for those of a round.
pub const MAX_ENTRIES_BEFORE_ROUND: usize = MAX_REPORTS - MAX_ROUND_ENTRIES;

/// The numbers that were taken, as far as the answers need them: the first, the greatest, and which
/// of the last 101 are among them. Its room is taken when it is made.
#[derive(Debug, Drop)]
pub struct NackRegister {
    started: bool,
    first: u64,
    greatest: u64,
    slots: Slots,
    settled: u64,
}

impl Model for NackRegister {
    ghost use Rattle.repair_core.specs.RegisterState.{RegisterState, IsSettled};

    ghost Value = { RegisterState };

    ghost view = { λ r. record { started = r.started; first = r.first; greatest = r.greatest; slots = r.slots } };

    ghost invariant = { λ r. IsSettled r.first r.greatest r.slots r.settled };
}

impl NackRegister {
    ghost use Rattle.repair_core.specs.NackRegister.{StandsFor, accepts_number, put_number, started, Remembers, with_round, round_due, needs_any, last_ask, give_up};

    /// A register that took nothing, or that took this number alone: it then accepts nothing up to
    /// it. Numbers are below 2^48.
    #[tactic(auto, using(crate::proofs::RegisterLaws::started_stands, crate::proofs::RoundLaws::began))]
    pub fn new(alloc: Global, max_seq_no: Option<SeqNo>) -> Result<Self, AllocError>
        requires { ForSome max_seq_no (λ n. n < NUMBER_LIMIT) }
        ensures stands { IfOk result (λ r. StandsFor r (started_from max_seq_no)) }
        ensures remembers { IfOk result (λ r. Remembers r (started_at max_seq_no)) }
    {
        let slots = Slots::new(alloc)?;
        let mut register = NackRegister {
            started: false,
            first: 0,
            greatest: 0,
            slots,
            settled: 0,
        };
        register.start(max_seq_no);
        Ok(register)
    }

    /// Makes it as a new one, in the room that it has.
    #[tactic(auto, using(crate::proofs::RegisterLaws::started_stands, crate::proofs::RoundLaws::began))]
    pub fn clear(&mut self, max_seq_no: Option<SeqNo>)
        requires { ForSome max_seq_no (λ n. n < NUMBER_LIMIT) }
        ensures stands { StandsFor self.new (started_from max_seq_no) }
        ensures remembers { Remembers self.new (started_at max_seq_no) }
    {
        self.started = false;
        self.first = 0;
        self.greatest = 0;
        self.settled = 0;
        self.slots.clear();
        self.start(max_seq_no);
    }

    fn start(&mut self, max_seq_no: Option<SeqNo>)
        requires number { ForSome max_seq_no (λ n. n < NUMBER_LIMIT) }
        requires blank { self.old.started ≡ false }
        ensures { self.new ≡ started self.old max_seq_no }
    {
        if let Some(number) = max_seq_no {
            self.put(u64::from(number));
        }
    }

    fn is_held(&self, number: u64) -> bool
        ensures { result ≡ holds self.now.slots number }
    {
        let slot = self.slots.at(number);
        slot.taken && slot.number == number
    }

    fn is_open(&self, number: u64) -> bool
        requires { number < NUMBER_LIMIT }
        ensures { result ≡ accepts_number self.now number }
    {
        if !self.started || self.greatest < number {
            return true;
        }
        if number < self.first || number + MAX_MISORDER < self.greatest {
            return false;
        }
        !self.is_held(number)
    }

    fn put(&mut self, number: u64)
        requires small { number < NUMBER_LIMIT }
        requires near { self.old.started ≡ true → self.old.greatest ≤ number + MAX_MISORDER }
        ensures { self.new ≡ put_number self.old number }
    {
        if !self.started {
            self.first = number;
            self.greatest = number;
            self.settled = 0;
        }
        self.greatest = self.greatest.max(number);
        self.started = true;
        self.slots.put(
            number,
            Slot {
                number,
                taken: true,
                asks: 0,
                last: Instant::from_nanos(0),
            },
        );
    }

    /// Whether the number, below 2^48, may still be taken.
    #[tactic(auto, using(crate::proofs::RegisterLaws::accepts_number_is))]
    pub fn accepts(&self, seq: SeqNo) -> bool
        requires { seq < NUMBER_LIMIT }
        ensures fresh { (l : List ℕ) → StandsFor self.now l → result ≡ is_fresh l seq }
        ensures near { OnTrue result (self.now.started ≡ true → self.now.greatest ≤ seq + MAX_MISORDER) }
    {
        self.is_open(u64::from(seq))
    }

    /// Takes the number, below 2^48, if it is fresh, and tells whether it was.
    #[tactic(auto, using(crate::proofs::RegisterLaws::put_number_is))]
    pub fn update(&mut self, seq: SeqNo) -> bool
        requires { seq < NUMBER_LIMIT }
        ensures fresh { (l : List ℕ) → StandsFor self.old l → result ≡ is_fresh l seq }
        ensures taken { (l : List ℕ) → StandsFor self.old l → StandsFor self.new (with_number l seq) }
        ensures remembers { (past : Heard) → Remembers self.old past → Remembers self.new (came past seq) }
        ensures refused { OnFalse result (self.new ≡ self.old) }
    {
        let fresh = self.accepts(seq);
        if fresh {
            self.put(u64::from(seq));
            self.settle();
        }
        fresh
    }

    /// The greatest number that was taken.
    #[tactic(auto, using(crate::proofs::RegisterLaws::greatest_is))]
    pub fn max_seq(&self) -> Option<SeqNo>
        ensures greatest { (l : List ℕ) → StandsFor self.now l → result ≡ greatest_of l }
        ensures small { IfSome result (λ n. n < NUMBER_LIMIT) }
    {
        if self.started {
            Some(SeqNo::from(self.greatest))
        } else {
            None
        }
    }

    /// Asks for the missing numbers that are due: those asked for fewer than five times, and last
    /// at least the round trip and 5 ms ago, where 100 ms stand for an unknown trip. Their entries,
    /// at most six, are put behind those of the list (RFC 4585 section 6.2.1).
    pub fn nack_reports(
        &mut self,
        now: Instant,
        trip: Option<Duration>,
        reports: &mut ReportList<NackEntry>,
    )
        requires { length reports.old ≤ MAX_ENTRIES_BEFORE_ROUND }
        ensures asked { (past : Heard) → Remembers self.old past → Remembers self.new (round past now (wait_of trip)) }
        ensures entries { (past : Heard) → Remembers self.old past → reports.new ≡ reports.old ++ packed None (due past now (wait_of trip)) }
        ensures few { length reports.new ≤ length reports.old + MAX_ROUND_ENTRIES }
    {
        self.round(now, wait(trip), reports);
        self.settle();
    }

    /// Whether some missing number was asked for fewer than five times.
    #[tactic(auto, using(crate::proofs::GapLaws::pending_is))]
    pub fn has_pending_nacks(&self) -> bool
        ensures { (past : Heard) → Remembers self.now past → result ≡ is_pending past }
    {
        self.is_pending()
    }

    #[tactic(auto, using(crate::proofs::SettledLaws::open_is))]
    fn is_pending(&self) -> bool
        ensures { result ≡ needs_any self.now 0 self.now.greatest }
    {
        let number = self.first_open();
        self.started && number < self.greatest
    }

    /// The lowest number that may be asked for again, or the greatest that was taken.
    fn first_open(&self) -> u64
        ensures within { result ≤ self.now.greatest }
        ensures settled { IsQuiet self.now.first self.now.greatest self.now.slots result }
        ensures wanted { result < self.now.greatest → (max self.now.first (self.now.greatest - MAX_MISORDER) ≤ result) × (slot_needs (known self.now.slots result) ≡ true) }
    {
        let low = self
            .first
            .max(self.greatest.saturating_sub(MAX_MISORDER))
            .max(self.settled);
        for number in low..self.greatest {
            if self.needs(number) {
                return number;
            }
        }
        self.greatest
    }

    /// Remembers up to where no number may be asked for again. Over many calls it passes each
    /// number once.
    fn settle(&mut self)
        ensures { self.new ≡ self.old }
    {
        let number = self.first_open();
        self.settled = number;
    }

    /// When the missing numbers of the range are given up: None while one of them may be asked for
    /// again, else three round trips after the latest ask, or after `received` where none is
    /// missing, where 100 ms stand for an unknown trip. None too where that is past the last
    /// moment.
    #[tactic(auto, using(crate::proofs::GapLaws::give_up_is))]
    pub fn recovery_deadline(
        &self,
        range: Range<SeqNo>,
        received: Instant,
        trip: Option<Duration>,
    ) -> Option<Instant>
        ensures { (past : Heard) → Remembers self.now past → result ≡ deadline past range.start range.end received trip }
    {
        self.give_up(u64::from(range.start), u64::from(range.end), received, trip)
    }

    fn give_up(
        &self,
        from: u64,
        to: u64,
        received: Instant,
        trip: Option<Duration>,
    ) -> Option<Instant>
        ensures { result ≡ give_up self.now from to received trip }
    {
        if self.needs_any(from, to) {
            return None;
        }
        let last = self.last_ask(from, to).unwrap_or(received);
        last.checked_add(grace(trip))
    }

    /// Whether a missing number of the range was asked for fewer than five times.
    #[tactic(auto, using(crate::proofs::GapLaws::any_found))]
    fn needs_any(&self, from: u64, to: u64) -> bool
        ensures { result ≡ needs_any self.now from to }
    {
        if !self.started {
            return false;
        }
        let low = self
            .first
            .max(self.greatest.saturating_sub(MAX_MISORDER))
            .max(from);
        let high = self.greatest.min(to);
        for number in low..high {
            if self.needs(number) {
                return true;
            }
        }
        false
    }

    /// The latest ask for a missing number of the range.
    fn last_ask(&self, from: u64, to: u64) -> Option<Instant>
        ensures { result ≡ last_ask self.now from to }
    {
        if !self.started {
            return None;
        }
        let low = self
            .first
            .max(self.greatest.saturating_sub(MAX_MISORDER))
            .max(from);
        let high = self.greatest.min(to);
        let mut latest = None;
        for number in low..high {
            let slot = self.known(number);
            if !slot.taken {
                latest = later(latest, slot.last);
            }
        }
        latest
    }

    fn needs(&self, number: u64) -> bool
        ensures { result ≡ slot_needs (known self.now.slots number) }
    {
        let slot = self.known(number);
        !slot.taken && slot.asks < MAX_NACKS
    }

    fn known(&self, number: u64) -> Slot
        ensures { result ≡ known self.now.slots number }
    {
        let slot = self.slots.at(number);
        if slot.number == number {
            slot
        } else {
            Slot {
                number,
                taken: false,
                asks: 0,
                last: Instant::from_nanos(0),
            }
        }
    }

    /// Marks a number as asked for, if it is to be, and tells whether it is.
    fn ask(&mut self, number: u64, now: Instant, wait: Duration) -> bool
        requires low { max self.old.first (self.old.greatest - MAX_MISORDER) ≤ number }
        requires high { number < self.old.greatest }
        ensures slots { self.new ≡ record self.old { slots = ask now wait self.old.slots number } }
        ensures due { result ≡ slot_due (known self.old.slots number) now wait }
    {
        let slot = self.known(number);
        let asks = slot.asks;
        let due = is_due(slot, now, wait);
        if due {
            let slot = Slot {
                number,
                taken: false,
                asks: asks + 1,
                last: now,
            };
            self.slots.put(number, slot);
        }
        due
    }

    fn round(&mut self, now: Instant, wait: Duration, reports: &mut ReportList<NackEntry>)
        requires { length reports.old ≤ MAX_ENTRIES_BEFORE_ROUND }
        ensures asked { self.new ≡ with_round self.old now wait }
        ensures entries { reports.new ≡ reports.old ++ packed None (round_due self.old now wait) }
        ensures few { length reports.new ≤ length reports.old + MAX_ROUND_ENTRIES }
    {
        if !self.started {
            return;
        }
        let low = self.first.max(self.greatest.saturating_sub(MAX_MISORDER));
        let mut begun: Option<Missing> = None;
        for number in low..self.greatest {
            if self.ask(number, now, wait) {
                begun = Some(pack(begun, number, reports));
            }
        }
        if let Some(missing) = begun {
            reports.push(missing.entry());
        }
    }
}

/// How long a number is not asked for again: the round trip, 100 ms where it is not known, and 5
/// ms.
pub fn wait(trip: Option<Duration>) -> Duration
    ensures { result ≡ wait_of trip }
{
    let trip = match trip {
        Some(trip) => trip,
        None => Duration::from_nanos(DEFAULT_RTT_NANOS),
    };
    trip.saturating_add(Duration::from_nanos(NACK_RETRY_MARGIN_NANOS))
}

/// Three round trips, of 100 ms where they are not known: so long after the last ask a number is
/// given up.
pub fn grace(trip: Option<Duration>) -> Duration
    ensures { result ≡ grace_of trip }
{
    let trip = trip.unwrap_or(Duration::from_nanos(DEFAULT_RTT_NANOS));
    trip.saturating_mul(GRACE_ROUND_TRIPS)
}

/// The later of two moments.
pub fn later(latest: Option<Instant>, moment: Instant) -> Option<Instant>
    ensures { result ≡ later_of latest moment }
{
    match latest {
        Some(other) => Some(other.max(moment)),
        None => Some(moment),
    }
}

fn is_due(slot: Slot, now: Instant, wait: Duration) -> bool
    ensures value { result ≡ slot_due slot now wait }
    ensures few { OnTrue result (slot.asks < MAX_NACKS) }
{
    if slot.taken || slot.asks >= MAX_NACKS {
        return false;
    }
    if slot.asks == 0 {
        return true;
    }
    match now.as_nanos().checked_sub(slot.last.as_nanos()) {
        Some(passed) => wait.as_nanos() <= passed,
        None => false,
    }
}
