//! Packets sent, and what reports say of them.
ghost use Rattle.std.specs.Prelude.{◌≡◌, ◌+◌, ◌-◌, ◌<◌, ◌≤◌, [], ◌∷◌, ◌++◌, length, map, slice_range, count_by, IfOk, OnOk, OnErr};
ghost use Rattle.std.specs.List.{filter_map, AllWithin};
ghost use Rattle.std.specs.List.Sorted.{IsNonDecreasingBy};
ghost use Rattle.twcc_core.specs.Sending.{IsRising, IsWithin, last_number, first_told, moment_told, record_told, after_told, greater_of, trip_of, is_told_from, is_missing_from, sent_loss};

use crate::{Share, Twcc, arrivals};
use media_base::Listed;
use media_units::{DataSize, Duration, Instant};
use rtp_base::{TwccClusterId, TwccPacketId, widen16};
use std::alloc::{AllocError, Global};
use std::collections::VecDeque;
use std::marker::Model;

/// How many packets sent are remembered at most: a choice.
pub const MAX_RECORDS: usize = 1_000;

/// A packet sent, and what the last report of it said.
#[derive(Clone, Copy, Debug, PartialEq, Eq)]
pub struct TwccSendRecord {
    /// The packet's number on the transport.
    pub id: TwccPacketId,
    /// How long it is.
    pub size: DataSize,
    /// When it was sent, by the sender's clock.
    pub sent: Instant,
    /// When the last report that tells it was taken in, None before any.
    pub reported: Option<Instant>,
    /// When it came, by the receiver's clock, None where the last report does not say so.
    pub received: Option<Instant>,
}

// What is told of a number by the moments of the numbers from a first one on, if it is among them.
fn told_at(first: u64, moments: &[Option<Instant>], number: u64) -> Option<Option<Instant>>
    ensures { result ≡ moment_told first moments.now number }
{
    if number < first {
        return None;
    }
    moments.get((number - first) as usize).copied()
}

impl TwccSendRecord {
    fn number(&self) -> u64
        ensures { result ≡ self.now.id.seq }
    {
        self.id.seq.into()
    }

    // As moments tell it, if they do.
    fn told(&self, first: u64, moments: &[Option<Instant>], now: Instant) -> Option<TwccSendRecord>
        ensures { result ≡ record_told first moments.now now self.now }
    {
        let received = told_at(first, moments, self.number())?;
        Some(TwccSendRecord {
            reported: Some(now),
            received,
            ..*self
        })
    }

    fn is_told_from(self, start: Instant) -> bool
        ensures { result ≡ is_told_from start self }
    {
        match self.reported {
            Some(moment) => moment >= start,
            None => false,
        }
    }

    fn is_missing_from(self, start: Instant) -> bool
        ensures { result ≡ is_missing_from start self }
    {
        self.is_told_from(start) && self.received.is_none()
    }
}

// Puts down in each record what moments tell of it: those that they tell stand between two places.
fn mark(
    records: &mut VecDeque<TwccSendRecord>,
    places: (usize, usize),
    first: u64,
    moments: &[Option<Instant>],
    now: Instant,
)
    requires { IsWithin first (length moments.now) records.old.items places.0 places.1 }
    ensures { records.new.items ≡ map (after_told first moments.now now) records.old.items }
{
    // The check has to meet the types that a record may hold.
    let _none: (Option<TwccPacketId>, Option<TwccClusterId>) = (None, None);
    let (start, end) = places;
    for i in start..end {
        let record = records[i];
        records[i] = record.told(first, moments, now).unwrap_or(record);
    }
}

// The one of the greater number, of two of one number the second.
fn greater(best: Option<TwccSendRecord>, later: &TwccSendRecord) -> Option<TwccSendRecord>
    ensures { result ≡ greater_of best later.now }
{
    match best {
        Some(best) if later.number() < best.number() => Some(best),
        _ => Some(*later),
    }
}

// From sending to now, for the packet of the greatest number among those that came.
fn trip(records: &[TwccSendRecord], now: Instant) -> Option<Duration>
    ensures { result ≡ trip_of now records.now }
{
    let mut best = None;
    for record in records {
        if record.received.is_some() {
            best = greater(best, record);
        }
    }
    match best {
        Some(record) => Some(now.saturating_duration_since(record.sent)),
        None => None,
    }
}

/// The last 1,000 packets sent, and what reports say of them.
#[derive(Drop)]
pub struct TwccSendRegister {
    records: VecDeque<TwccSendRecord>,
    // How many records at the end are in order of their numbers.
    rising: usize,
    trip: Option<Duration>,
}

impl Model for TwccSendRegister {
    ghost use Rattle.std.specs.Prelude.{◌≤◌, length};
    ghost use Rattle.twcc_core.specs.Sending.{Sending, IsRising};
    ghost use Rattle.twcc_core.specs.declared.send.TheConstants.{MAX_RECORDS};

    ghost Value = { Sending };

    ghost view = { λ r. record { records = r.records.items; trip = r.trip } };

    ghost invariant = { λ r. (length r.records.items ≤ MAX_RECORDS) × (r.rising ≤ MAX_RECORDS) × IsRising r.records.items r.rising };
}

impl TwccSendRegister {
    ghost use Rattle.twcc_core.specs.Sending.{Sending, with_sent, told_by, after_applied};

    /// No packets.
    #[tactic(auto, using(crate::proofs::Rising::none_rise))]
    pub fn new(alloc: Global) -> Self
        ensures { result ≡ record { records = []; trip = None } }
    {
        TwccSendRegister {
            records: VecDeque::new(alloc),
            rising: 0,
            trip: None,
        }
    }

    /// Takes in a packet that was sent. Of more than 1,000 the first is let go. Without memory
    /// nothing changes.
    pub fn register_seq(
        &mut self,
        id: TwccPacketId,
        size: DataSize,
        now: Instant,
    ) -> Result<(), AllocError>
        ensures ok { OnOk result (self.new ≡ with_sent self.old (record { id = id; size = size; sent = now; reported = None; received = None })) }
        ensures err { OnErr result (self.new ≡ self.old) }
    {
        let rising = self.rising_before(id.seq.into());
        self.records.push_back(TwccSendRecord {
            id,
            size,
            sent: now,
            reported: None,
            received: None,
        })?;
        self.rising = (rising + 1).min(MAX_RECORDS);
        if self.records.len() > MAX_RECORDS {
            self.records.pop_front();
        }
        Ok(())
    }

    // The number of the last packet sent.
    fn last(&self) -> Option<u64>
        ensures { result ≡ last_number self.now.records }
    {
        match self.records.back() {
            Some(record) => Some(record.number()),
            None => None,
        }
    }

    // How many records at the end are in order of their numbers and not above one.
    #[tactic(auto, using(crate::proofs::Rising::rises_behind, crate::proofs::Rising::rises_first, crate::proofs::Rising::falls))]
    fn rising_before(&self, number: u64) -> usize
        ensures most { result ≤ MAX_RECORDS }
        ensures order { (sent : TwccSendRecord) → sent.id.seq ≡ number → IsRising (self.now.records ++ sent ∷ []) (result + 1) }
    {
        match self.last() {
            Some(last) if number < last => 0,
            _ => self.rising,
        }
    }

    // How many records stand before the first whose number is not below one.
    fn count_below(&self, number: u64) -> usize
        requires { IsNonDecreasingBy (λ r. r.id.seq) self.now.records }
        ensures bound { result ≤ length self.now.records }
        ensures below { AllWithin (λ r. r.id.seq < number) self.now.records 0 result }
    {
        self.records
            .partition_point(|record| record.number() < number)
    }

    // How many records stand before the first that is so far above a number.
    fn count_near(&self, number: u64, span: usize) -> usize
        requires { IsNonDecreasingBy (λ r. r.id.seq) self.now.records }
        ensures bound { result ≤ length self.now.records }
        ensures above { AllWithin (λ r. span ≤ r.id.seq - number) self.now.records result (length self.now.records) }
    {
        let span = span as u64;
        self.records
            .partition_point(|record| record.number().saturating_sub(number) < span)
    }

    // Between which places the records of so many numbers in a row stand: found by bisection where
    // all records are in order, else anywhere.
    #[tactic(auto, using(crate::proofs::Within::anywhere, crate::proofs::Within::between, crate::proofs::Rising::all_rise))]
    fn places(&self, first: u64, count: usize) -> (usize, usize)
        ensures { IsWithin first count self.now.records result.0 result.1 }
    {
        if self.rising < self.records.len() {
            return (0, self.records.len());
        }
        let end = self.count_near(first, count);
        let start = self.count_below(first).min(end);
        (start, end)
    }

    // The records between two places that moments tell, as they tell them.
    fn told_between(
        &self,
        alloc: Global,
        places: (usize, usize),
        first: u64,
        moments: &[Option<Instant>],
        now: Instant,
    ) -> Result<Vec<TwccSendRecord>, AllocError>
        requires order { places.0 ≤ places.1 }
        requires bound { places.1 ≤ length self.now.records }
        ensures { IfOk result (λ told. told.items ≡ filter_map (record_told first moments.now now) (slice_range self.now.records places.0 places.1)) }
    {
        let (start, end) = places;
        self.records
            .range(start..end)
            .filter_map(|record| record.told(first, moments, now))
            .collect(alloc)
    }

    // The records that moments tell, as they tell them: they stand between two places.
    fn told(
        &self,
        alloc: Global,
        places: (usize, usize),
        first: u64,
        moments: &[Option<Instant>],
        now: Instant,
    ) -> Result<Vec<TwccSendRecord>, AllocError>
        requires { IsWithin first (length moments.now) self.now.records places.0 places.1 }
        ensures { IfOk result (λ told. told.items ≡ filter_map (record_told first moments.now now) self.now.records) }
    {
        let told = self.told_between(alloc, places, first, moments, now)?;
        Ok(told)
    }

    /// Takes in a report, whose first number is the one nearest to the last that was sent, and
    /// gives the records of the packets that it tells and that are still held, in order of sending.
    /// It finds these by halving where numbers rose in the order of sending, else among all that
    /// are held, at most 1,000, and notes what it tells of them. Without memory nothing changes.
    #[tactic(auto, unfolding(crate::specs::Sending::told_by, crate::specs::Sending::after_applied))]
    pub fn apply_report(
        &mut self,
        alloc: Global,
        now: Instant,
        twcc: &Twcc,
    ) -> Result<Listed<TwccSendRecord>, AllocError>
        ensures told { IfOk result (λ told. told ≡ told_by self.old now twcc.now) }
        ensures ok { OnOk result (self.new ≡ after_applied self.old now twcc.now) }
        ensures err { OnErr result (self.new ≡ self.old) }
    {
        let first = widen16(self.last(), twcc.base_seq);
        let moments = arrivals(alloc, twcc)?;
        let moments = moments.as_slice();
        let places = self.places(first, moments.len());
        let told = self.told(alloc, places, first, moments, now)?;
        mark(&mut self.records, places, first, moments, now);
        self.trip = trip(&told, now);
        Ok(Listed::from_vec(told))
    }

    /// What is missing of the packets of which the last report was taken in so long before now or
    /// later. None where there are none.
    #[tactic(auto, unfolding(crate::specs::Sending::sent_loss))]
    pub fn loss(&self, window: Duration, now: Instant) -> Option<Share>
        ensures { result ≡ sent_loss (now - window) self.now.records }
    {
        let start = now.saturating_sub(window);
        let total = self.count_told(start);
        if total == 0 {
            return None;
        }
        Some(Share {
            missing: self.count_missing(start),
            total,
        })
    }

    fn count_told(&self, start: Instant) -> u64
        ensures { result ≡ count_by (is_told_from start) self.now.records }
    {
        self.records
            .iter()
            .filter(|record| record.is_told_from(start))
            .count() as u64
    }

    fn count_missing(&self, start: Instant) -> u64
        ensures { result ≡ count_by (is_missing_from start) self.now.records }
    {
        self.records
            .iter()
            .filter(|record| record.is_missing_from(start))
            .count() as u64
    }

    /// How long it took from sending the packet of the greatest number among those that the last
    /// report says came and that are still held, to that report. Of two sent with one number it is
    /// the later. None where the report tells of none that came and is still held, and before any
    /// report.
    pub fn rtt(&self) -> Option<Duration>
        ensures { result ≡ self.now.trip }
    {
        self.trip
    }
}
