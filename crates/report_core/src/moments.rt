//! The moments of receivers that wait for an answer.
ghost use Rattle.std.specs.Prelude.{
  ◌≡◌,
  ◌==◌,
  ◌≤◌,
  [],
  length,
  take,
  drop,
  map,
  IfOk,
  OnOk,
  OnErr,
  position,
  ◌≢◌,
  Ok,
  None,
  IsOk,
};
ghost use Rattle.std.specs.VecDeque.Iter.{deque_iter_rest, deque_iter_steps};
ghost use Rattle.std.specs.Iterator.Runs.{YieldsRefsInOrder};
ghost use Rattle.report_core.specs.declared.moments.ReceiverMoment.{ReceiverMoment as Moment};
ghost use Rattle.report_core.specs.Moments.{
  moment_of,
  with_moment,
  held_behind,
  item_of,
  items_of,
  answer_of,
  unanswered,
  MomentsStayOne,
};

use crate::sender_news::{compact_ntp, delay_in_units};
use media_base::Listed;
use media_units::Instant;
use rtcp_items::{Dlrr, DlrrItem, ExtendedReport, ReportBlock, Rrtr};
use rtp_base::Ssrc;
use std::alloc::{AllocError, Global};
use std::collections::{VecDeque, vec_deque};
use std::marker::Model;

/// How many moments of receivers wait at most: a choice.
pub const MAX_WAITING_MOMENTS: usize = 300;

/// How many moments of receivers one report answers at most: a choice.
pub const MAX_ANSWERED_MOMENTS: usize = 50;

/// The last moment that came from a receiver.
#[derive(Clone, Copy, Debug, PartialEq, Eq)]
pub struct ReceiverMoment {
    /// The receiver.
    pub ssrc: Ssrc,
    /// The middle 32 bits of its moment, as NTP tells it.
    pub last_rr_time: u32,
    /// When it came.
    pub received_at: Instant,
}

impl ReceiverMoment {
    /// The answer at a moment (RFC 3611 section 4.5).
    fn item(&self, now: Instant) -> DlrrItem
        ensures { result ≡ item_of now self.now }
    {
        DlrrItem {
            ssrc: self.ssrc,
            last_rr_time: self.last_rr_time,
            last_rr_delay: delay_in_units(now.saturating_duration_since(self.received_at)),
        }
    }
}

/// The moments of receivers (RFC 3611 section 4.4) that wait for an answer, in the order in which
/// their SSRCs came, one of each SSRC and at most 300. Contracts see the list of them.
#[derive(Drop)]
pub struct ReceiverMoments {
    waiting: VecDeque<ReceiverMoment>,
}

impl Model for ReceiverMoments {
    ghost use Rattle.std.specs.Prelude.{List, ◌≤◌, length};
    ghost use Rattle.report_core.specs.declared.moments.ReceiverMoment.{ReceiverMoment};
    ghost use Rattle.report_core.specs.declared.moments.TheConstants.{MAX_WAITING_MOMENTS};

    ghost Value = { List ReceiverMoment };

    ghost view = { λ m. m.waiting.items };

    ghost invariant = { λ m. length m.waiting.items ≤ MAX_WAITING_MOMENTS };
}

/// Drops so many values from the front.
fn drop_front(waiting: &mut VecDeque<ReceiverMoment>, count: usize)
    ensures rest { waiting.new.items ≡ drop count waiting.old.items }
    ensures fewer { length waiting.new.items ≤ length waiting.old.items }
{
    for _turn in 0..count {
        waiting.pop_front();
    }
}

/// The place of an SSRC.
fn place_of(waiting: &VecDeque<ReceiverMoment>, ssrc: Ssrc) -> Option<usize>
    ensures { result ≡ position (λ m. m.ssrc == ssrc) waiting.now.items }
{
    waiting.iter().position(|moment| moment.ssrc == ssrc)
}

/// The answers to the first moments, so many of them.
fn items(
    alloc: Global,
    waiting: &VecDeque<ReceiverMoment>,
    count: usize,
    now: Instant,
) -> Result<Vec<DlrrItem>, AllocError>
    ensures { IfOk result (λ v. v.items ≡ map (item_of now) (take count waiting.now.items)) }
{
    waiting
        .iter()
        .take(count)
        .map(|moment| moment.item(now))
        .collect(alloc)
}

impl ReceiverMoments {
    /// No moments. It grows as moments come.
    pub fn new(alloc: Global) -> Self
        ensures { result ≡ [] }
    {
        ReceiverMoments {
            waiting: VecDeque::new(alloc),
        }
    }

    /// How many wait, at most 300.
    pub fn len(&self) -> usize
        ensures { result ≡ length self.now }
    {
        self.waiting.len()
    }

    /// Whether none waits.
    pub fn is_empty(&self) -> bool
        ensures { result ≡ (length self.now == 0) }
    {
        self.waiting.is_empty()
    }

    /// The moments that wait, oldest first.
    pub fn iter(&self) -> vec_deque::Iter<'_, ReceiverMoment>
        ensures rest { deque_iter_rest result ≡ self.now }
        ensures runs { YieldsRefsInOrder (deque_iter_steps {X = Moment}) deque_iter_rest }
    {
        self.waiting.iter()
    }

    /// Takes in the moment of a receiver that came at a moment. It stands in place of the one of
    /// its SSRC that waits, which needs no memory, or behind the others; of more than 300 the
    /// oldest goes. Without memory nothing changes. The time grows with the number that waits.
    pub fn take(&mut self, ssrc: Ssrc, moment: &Rrtr, now: Instant) -> Result<(), AllocError>
        ensures ok { OnOk result (self.new ≡ with_moment (moment_of ssrc moment.now now) self.old) }
        ensures err { OnErr result (self.new ≡ self.old) }
        ensures waits { position (λ m. m.ssrc == ssrc) self.old ≢ None → IsOk result }
    {
        let latest = ReceiverMoment {
            ssrc,
            last_rr_time: compact_ntp(moment.ntp_time),
            received_at: now,
        };
        match place_of(&self.waiting, ssrc) {
            Some(place) => {
                self.waiting[place] = latest;
                Ok(())
            }
            None => self.push(latest),
        }
    }

    /// Puts a moment behind the others; of more than 300 the oldest goes.
    fn push(&mut self, latest: ReceiverMoment) -> Result<(), AllocError>
        ensures ok { OnOk result (self.new ≡ held_behind latest self.old) }
        ensures err { OnErr result (self.new ≡ self.old) }
    {
        self.waiting.push_back(latest)?;
        if self.waiting.len() > MAX_WAITING_MOMENTS {
            self.waiting.pop_front();
        }
        Ok(())
    }

    /// The extended report that answers the first 50 that wait, at a moment, with the sender's SSRC
    /// (RFC 3611 section 4.5). None exactly where none waits. They wait on until `answered` is
    /// called. The time grows with the number that is answered.
    pub fn answer(
        &self,
        alloc: Global,
        sender_ssrc: Ssrc,
        now: Instant,
    ) -> Result<Option<ExtendedReport>, AllocError>
        ensures answer { IfOk result (λ r. r ≡ answer_of sender_ssrc now self.now) }
        ensures none { self.now ≡ [] → result ≡ Ok None }
    {
        if self.waiting.is_empty() {
            return Ok(None);
        }
        let items = Listed::from_vec(items(alloc, &self.waiting, MAX_ANSWERED_MOMENTS, now)?);
        let mut blocks = Listed::new(alloc);
        blocks.push(ReportBlock::Dlrr(Dlrr { items }))?;
        Ok(Some(ExtendedReport {
            ssrc: sender_ssrc,
            blocks,
        }))
    }

    /// The first 50 that wait were answered: they wait no more.
    pub fn answered(&mut self)
        ensures { self.new ≡ unanswered self.old }
    {
        drop_front(&mut self.waiting, MAX_ANSWERED_MOMENTS);
    }
}

/// The moments that wait are of one receiver each, and one that came waits.
pub fn moments_stay_one()
    ensures { MomentsStayOne }
{}
