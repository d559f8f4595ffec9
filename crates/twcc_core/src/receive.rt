//! Packets received, and the reports of them.
ghost use Rattle.std.specs.Prelude.{◌≡◌, ◌+◌, ◌*◌, ◌^◌, ◌≤◌, ℕ, length, filter, slice_get, nat_lt, is_some, not, if◌then◌else◌, IfOk, OnOk, OnErr};
ghost use Rattle.std.specs.Option.{option_map};
ghost use Rattle.std.specs.Ordering.{nat_cmp};
ghost use Rattle.std.specs.List.Sorted.{IsStrictlySortedBy};
ghost use Rattle.std.specs.Map.{keys_of};
ghost use Rattle.twcc_core.specs.Reports.{arrival_of, greatest_of, first_counted, delta_of, row_of, with_last, rows_from, rows_within, report_rows, report_with, missing_from, share_between, loss_of};

use crate::moments::{DELTA_NANOS, REFERENCE_NANOS};
use crate::size::Size;
use crate::{PacketStatus, Share, StatusList, Twcc};
use media_units::Instant;
use rtp_base::wire::signed;
use rtp_base::{SeqNo, Ssrc};
use std::alloc::{AllocError, Global};
use std::collections::BTreeMap;
use std::collections::btree_map::Entry;
use std::marker::Model;

/// How far a number may be below the greatest and still count: 16 bits tell it from one above.
pub const SPAN: u64 = 32_768;

/// How far behind its first number a report tells at most: 16 bits count the numbers
/// (draft-holmer-rmcat-transport-wide-cc-extensions-01 section 3.1).
pub const REPORT_SPAN: u64 = 65_534;

/// How far below the greatest the numbers are of which the loss is told: a choice.
pub const LOSS_SPAN: u64 = 99;

/// The fewest bytes of a report with its header: those of one that tells of one packet
/// (draft-holmer-rmcat-transport-wide-cc-extensions-01 section 3.1).
pub const MIN_REPORT_LEN: usize = 24;

/// Packets received, of which reports are made. Numbers more than 32,768 below the greatest are let
/// go, so at most 32,769 are held.
#[derive(Drop)]
pub struct TwccRecvRegister {
    arrivals: BTreeMap<u64, Instant>,
    // Those of them that are to be reported.
    pending: BTreeMap<u64, Instant>,
    // The lowest number of all that came.
    lowest: Option<u64>,
    report_count: u8,
}

impl Model for TwccRecvRegister {
    ghost use Rattle.twcc_core.specs.Reports.{Kept};

    ghost Value = { Kept };

    ghost view = { λ r. record { arrivals = r.arrivals.entries; pending = r.pending.entries; lowest = r.lowest; reports = r.report_count } };
}

// Lets go of the numbers up to one.
fn forget_to(map: &mut BTreeMap<u64, Instant>, last: u64)
    ensures { map.new.entries ≡ filter (λ e. nat_lt last e.0) map.old.entries }
{
    while let Some((first, _)) = map.first_key_value() {
        if last < *first {
            return;
        }
        map.pop_first();
    }
}

// The steps of 250 us from one moment to another, both in such steps, where 16 bits can tell them.
fn delta(now: u64, last: u64) -> Option<i16>
    ensures { result ≡ delta_of now last }
{
    if last <= now {
        let later = now - last;
        if later < 32_768 {
            Some(later as i16)
        } else {
            None
        }
    } else {
        let earlier = last - now;
        if earlier <= 32_768 {
            Some(-1 - (earlier - 1) as i16)
        } else {
            None
        }
    }
}

// What is said of a number that came then, if it did, and the last arrival after it.
fn next_row(arrival: Option<Instant>, last: u64) -> Option<(PacketStatus, u64)>
    ensures { result ≡ option_map (with_last arrival last) (row_of arrival last) }
{
    match arrival {
        None => Some((PacketStatus::NotReceived, last)),
        Some(moment) => {
            let now = moment.as_nanos() / DELTA_NANOS;
            match delta(now, last) {
                Some(delta) => Some((PacketStatus::Received(delta), now)),
                None => None,
            }
        }
    }
}

impl TwccRecvRegister {
    ghost use Rattle.twcc_core.specs.Reports.{Receiving, StandsFor, nothing_received, with_arrival, unreported, report_of, after_report, with_put, with_recent};

    /// No packets.
    #[tactic(auto, unfolding(crate::specs::Reports::StandsFor))]
    pub fn new(alloc: Global) -> Self
        ensures { StandsFor result nothing_received }
    {
        TwccRecvRegister {
            arrivals: BTreeMap::new(alloc),
            pending: BTreeMap::new(alloc),
            lowest: None,
            report_count: 0,
        }
    }

    /// Takes in a packet that came. Of two arrivals of a number the first counts, and a number more
    /// than 32,768 below the greatest is passed over. It takes a few look-ups among the numbers
    /// held; over many calls each number is let go once. Without memory nothing changes.
    #[tactic(auto, using(crate::proofs::Keeping::put_stands, crate::proofs::Keeping::passed_below, crate::proofs::Keeping::passed_again))]
    pub fn update_seq(&mut self, seq: SeqNo, now: Instant) -> Result<(), AllocError>
        ensures ok { OnOk result ((past : Receiving) → StandsFor self.old past → StandsFor self.new (with_arrival past seq now)) }
        ensures err { OnErr result (self.new ≡ self.old) }
    {
        let number: u64 = seq.into();
        if number < self.first_counted() {
            return Ok(());
        }
        let new = self.put(number, now)?;
        if !new {
            return Ok(());
        }
        self.forget();
        Ok(())
    }

    // Holds another number, which is to be reported, and tells whether it is another.
    fn put(&mut self, number: u64, now: Instant) -> Result<bool, AllocError>
        ensures ok { IfOk result (λ new. self.new ≡ (if new then with_put self.old number now else self.old)) }
        ensures found { IfOk result (λ new. is_some (arrival_of self.old.arrivals number) ≡ not new) }
        ensures ordered { OnOk result (IsStrictlySortedBy nat_cmp (keys_of self.old.arrivals)) }
        ensures err { OnErr result (self.new ≡ self.old) }
    {
        let Entry::Vacant(slot) = self.arrivals.entry(number)? else {
            return Ok(false);
        };
        self.pending.insert(number, now)?;
        slot.insert(now);
        self.lowest = Some(match self.lowest {
            Some(lowest) => lowest.min(number),
            None => number,
        });
        Ok(true)
    }

    // Lets go of the numbers that no longer count.
    #[tactic(auto, using(crate::proofs::Keeping::above_is, crate::proofs::Keeping::not_below_zero))]
    fn forget(&mut self)
        ensures { self.new ≡ with_recent self.old }
    {
        let Some(last) = self.first_counted().checked_sub(1) else {
            return;
        };
        forget_to(&mut self.arrivals, last);
        forget_to(&mut self.pending, last);
    }

    fn arrival(&self, number: u64) -> Option<Instant>
        ensures { result ≡ arrival_of self.now.arrivals number }
    {
        self.arrivals.get(&number).copied()
    }

    // The lowest unreported number, and when it came, in nanoseconds.
    fn first_unreported(&self) -> Option<(u64, u64)>
        ensures { result ≡ slice_get self.now.pending 0 }
    {
        match self.pending.first_key_value() {
            Some((number, moment)) => Some((*number, moment.as_nanos())),
            None => None,
        }
    }

    fn greatest(&self) -> Option<u64>
        ensures { result ≡ greatest_of self.now.arrivals }
    {
        match self.arrivals.last_key_value() {
            Some((number, _)) => Some(*number),
            None => None,
        }
    }

    // The lowest number that counts.
    fn first_counted(&self) -> u64
        ensures { result ≡ first_counted self.now.arrivals }
    {
        self.greatest().unwrap_or(0).saturating_sub(SPAN)
    }

    /// Whether a number is unreported.
    #[tactic(auto, using(crate::proofs::Keeping::pending_told))]
    pub fn has_unreported(&self) -> bool
        ensures { (past : Receiving) → StandsFor self.now past → result ≡ is_some (slice_get (unreported past) 0) }
    {
        self.first_unreported().is_some()
    }

    /// The greatest number, None where no packet came.
    #[tactic(auto, using(crate::proofs::Keeping::greatest_told))]
    pub fn max_seq(&self) -> Option<SeqNo>
        ensures { (past : Receiving) → StandsFor self.now past → result ≡ greatest_of past.arrivals }
    {
        match self.greatest() {
            Some(number) => Some(SeqNo::from(number)),
            None => None,
        }
    }

    // The rows of so many numbers that fit so many bytes.
    fn rows(
        &self,
        alloc: Global,
        base: u64,
        count: u64,
        reference: u64,
        limit: usize,
    ) -> Result<StatusList, AllocError>
        requires within { base + count ≤ 2 ^ 64 }
        requires few { count ≤ 65535 }
        ensures rows { IfOk result (λ rows. rows ≡ rows_within limit (rows_from self.now.arrivals count base reference)) }
        ensures most { IfOk result (λ rows. length rows ≤ count) }
    {
        let mut rows = StatusList::new(alloc);
        let mut size = Size::new();
        let mut last = reference;
        for i in 0..count {
            let Some((row, after)) = next_row(self.arrival(base + i), last) else {
                return Ok(rows);
            };
            size.add(row);
            if size.bytes() > limit {
                return Ok(rows);
            }
            rows.push(row)?;
            last = after;
        }
        Ok(rows)
    }

    // The rows of a report from a number on, which came at a moment.
    fn rows_after(
        &self,
        alloc: Global,
        base: u64,
        moment: u64,
        limit: usize,
    ) -> Result<StatusList, AllocError>
        ensures rows { IfOk result (λ rows. rows ≡ report_rows self.now.arrivals limit (base, moment)) }
        ensures most { IfOk result (λ rows. base + length rows ≤ 2 ^ 64) }
    {
        let greatest = self.greatest().unwrap_or(0);
        let count = greatest.saturating_sub(base).min(REPORT_SPAN) + 1;
        let reference = moment / REFERENCE_NANOS;
        self.rows(alloc, base, count, 256 * reference, limit)
    }

    fn report(
        &self,
        sender_ssrc: Ssrc,
        ssrc: Ssrc,
        base: u64,
        moment: u64,
        rows: StatusList,
    ) -> Twcc
        ensures { result ≡ report_with self.now.reports sender_ssrc ssrc (base, moment) rows }
    {
        let reference = moment / REFERENCE_NANOS;
        Twcc {
            sender_ssrc,
            ssrc,
            base_seq: (base % 0x1_0000) as u16,
            reference_time: signed((reference % 0x100_0000) as u32),
            feedback_count: self.report_count,
            rows,
        }
    }

    /// The next report, of at most so many bytes with its header: from the lowest unreported number
    /// to the greatest, at most 65,535, and up to the first arrival whose delta leaves 16 bits.
    /// What was reported is told again only behind a number that comes late, and is not unreported
    /// again. The reference time is that of the first arrival, rounded down. None where nothing is
    /// unreported or not one number fits, which takes 24 bytes. Without memory nothing changes.
    #[tactic(auto, using(crate::proofs::Reported::none_report, crate::proofs::Reported::none_after))]
    pub fn build_report(
        &mut self,
        alloc: Global,
        sender_ssrc: Ssrc,
        ssrc: Ssrc,
        limit: usize,
    ) -> Result<Option<Twcc>, AllocError>
        ensures report { IfOk result (λ t. (past : Receiving) → StandsFor self.old past → t ≡ report_of past sender_ssrc ssrc limit) }
        ensures ok { OnOk result ((past : Receiving) → StandsFor self.old past → StandsFor self.new (after_report past limit)) }
        ensures err { OnErr result (self.new ≡ self.old) }
    {
        let Some((base, moment)) = self.first_unreported() else {
            return Ok(None);
        };
        let rows = self.rows_after(alloc, base, moment, limit)?;
        let report = self.report(sender_ssrc, ssrc, base, moment, rows);
        let len = report.rows.len() as u64;
        if len == 0 {
            return Ok(None);
        }
        forget_to(&mut self.pending, base + (len - 1));
        self.report_count = self.report_count.wrapping_add(1);
        Ok(Some(report))
    }

    // How many of so many numbers are missing.
    fn missing(&self, number: u64, count: u64) -> u64
        requires { number + count ≤ 2 ^ 64 }
        ensures value { result ≡ missing_from self.now.arrivals number count }
        ensures most { result ≤ count }
    {
        let mut missing = 0;
        for i in 0..count {
            if self.arrival(number + i).is_none() {
                missing += 1;
            }
        }
        missing
    }

    fn share(&self, lowest: u64, greatest: u64) -> Share
        ensures { result ≡ share_between self.now.arrivals lowest greatest }
    {
        let start = greatest.saturating_sub(LOSS_SPAN).max(lowest);
        let total = greatest.saturating_sub(start) + 1;
        Share {
            missing: self.missing(start, total),
            total,
        }
    }

    /// What is missing of the last 100 numbers, up to the greatest; numbers below the lowest that
    /// came do not count. None where no packet came.
    #[tactic(auto, using(crate::proofs::Keeping::loss_told, crate::proofs::Keeping::no_loss_told, crate::proofs::Keeping::never_loss_told))]
    pub fn loss(&self) -> Option<Share>
        ensures { (past : Receiving) → StandsFor self.now past → result ≡ loss_of past.arrivals }
    {
        let lowest = self.lowest?;
        let greatest = self.greatest()?;
        Some(self.share(lowest, greatest))
    }
}
