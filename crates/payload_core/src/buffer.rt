//! Packets put back into the order of their numbers.
ghost use Rattle.std.specs.Prelude.{◌≡◌, List, [], ◌∷◌, ◌++◌, IsOk, IsTrue, OnOk, OnErr};
ghost use Rattle.std.specs.Option.{option_map};
ghost use Rattle.payload_core.specs.History.{EventsDetermine};
ghost use Rattle.payload_core.specs.InOrder.{ComesOutAsIn};
ghost use Rattle.payload_core.specs.Reordering.{frame_of};
ghost use Rattle.payload_core.specs.Buffer.{settled, is_next, is_past, timed_out};

use crate::error::PacketError;
use crate::payload::{CodecDepacketizer, CodecExtra};
use media_base::Bytes;
use media_units::{Duration, Instant, earlier};
use rtp_wire::{MediaTime, RtpHeader, SeqNo};
use std::alloc::{AllocError, Global};
use std::collections::{BTreeMap, BTreeSet};
use std::marker::Model;
use std::ops::Range;

/// What is known of a packet beside its payload. `I` is what its sender last told of itself.
#[derive(Clone, Copy, Debug)]
pub struct RtpMeta<I> {
    /// When it came.
    pub received: Instant,
    /// When its frame begins, in ticks of the RTP clock.
    pub time: MediaTime,
    /// Its number.
    pub seq_no: SeqNo,
    /// Its header.
    pub header: RtpHeader,
    /// What its sender had told of itself by then.
    pub last_sender_info: Option<I>,
}

/// A packet that waits.
#[derive(Debug, Drop)]
pub struct Arrival<I> {
    /// What is known of it.
    pub meta: RtpMeta<I>,
    /// Its payload.
    pub payload: Bytes,
}

/// A frame, which came in one packet.
#[derive(Debug, Drop)]
pub struct Depacketized<I> {
    /// What is known of its packet.
    pub meta: RtpMeta<I>,
    /// Whether its number is the next, or the first.
    pub contiguous: bool,
    /// What it tells beside its bytes.
    pub codec_extra: CodecExtra,
    /// Its bytes.
    pub payload: Bytes,
}

/// Packets that wait until it is their turn. Contracts see what waits and what was given last.
#[derive(Debug, Drop)]
pub struct DepacketizingBuffer<I> {
    depack: CodecDepacketizer,
    hold_back: usize,
    packets: BTreeMap<u64, Arrival<I>>,
    paddings: BTreeSet<u64>,
    last: Option<u64>,
    deadline: Option<Instant>,
}

impl<I> Model for DepacketizingBuffer<I> {
    ghost use Rattle.payload_core.specs.Waiting.{Waiting};

    ghost Value = { Waiting I };

    ghost view = { λ b. record {
      depack = b.depack;
      hold_back = b.hold_back;
      packets = b.packets.entries;
      paddings = b.paddings.keys;
      last = b.last;
      deadline = b.deadline;
    } };
}

// Padding numbers that are next count as given, and those that were passed go. Gives the last
// number.
fn settle(last: Option<u64>, paddings: &mut BTreeSet<u64>) -> Option<u64>
    ensures { (result, paddings.new.keys) ≡ settled last paddings.old.keys }
{
    let Some(mut last) = last else {
        return None;
    };
    while let Some(first) = paddings.first() {
        let number = *first;
        if number.saturating_sub(last) > 1 {
            break;
        }
        last = last.max(number);
        let _ = paddings.pop_first();
    }
    Some(last)
}

fn is_next(last: Option<u64>, number: u64) -> bool
    ensures { result ≡ is_next last number }
{
    match last {
        Some(last) => number.saturating_sub(last) == 1,
        None => true,
    }
}

fn is_past(moment: Option<Instant>, now: Instant) -> bool
    ensures { result ≡ is_past moment now }
{
    match moment {
        Some(moment) => moment <= now,
        None => false,
    }
}

fn timed_out(received: Instant, timeout: Option<Duration>) -> Option<Instant>
    ensures { result ≡ timed_out received timeout }
{
    match timeout {
        Some(timeout) => Some(received.saturating_add(timeout)),
        None => None,
    }
}

// The frame of a packet, or why there is none.
fn frame<I: Drop>(
    depack: CodecDepacketizer,
    arrival: Arrival<I>,
    contiguous: bool,
) -> Result<Depacketized<I>, PacketError>
    ensures { result ≡ frame_of depack arrival contiguous }
{
    let Arrival { meta, payload } = arrival;
    match depack.depacketize(payload.as_slice()) {
        Ok(codec_extra) => Ok(Depacketized {
            meta,
            contiguous,
            codec_extra,
            payload,
        }),
        Err(error) => Err(error),
    }
}

impl<I: Drop> DepacketizingBuffer<I> {
    ghost use Rattle.payload_core.specs.History.{Event, pushed, padded, StandsFor, given_now, GivesByRule};
    ghost use Rattle.payload_core.specs.Reordering.{nothing_waits, is_known, with_packet, with_padding, is_late, turn, popped, after_pop, blocked, next_moment, candidate};

    /// Nothing waits, and nothing was given. More than so many packets do not wait for a missing
    /// one.
    #[tactic(auto, using(crate::proofs::Histories::new_stands))]
    pub fn new(alloc: Global, depack: CodecDepacketizer, hold_back: usize) -> Self
        ensures value { result ≡ nothing_waits depack hold_back }
        ensures stands { StandsFor result [] }
    {
        DepacketizingBuffer {
            depack,
            hold_back,
            packets: BTreeMap::new(alloc),
            paddings: BTreeSet::new(alloc),
            last: None,
            deadline: None,
        }
    }

    fn is_known(&self, number: u64) -> bool
        ensures { result ≡ is_known self.now number }
    {
        if let Some(last) = self.last {
            if number <= last {
                return true;
            }
        }
        self.packets.contains_key(&number) || self.paddings.contains(&number)
    }

    /// Puts a packet among those that wait. One at or below the last number that was given, and a
    /// second one of a number, are dropped. Without memory nothing changes. The time grows with the
    /// logarithm of the packets that wait.
    pub fn push(&mut self, meta: RtpMeta<I>, payload: Bytes) -> Result<(), AllocError>
        ensures ok { OnOk result (self.new ≡ with_packet self.old (record { meta = meta; payload = payload })) }
        ensures err { OnErr result (self.new ≡ self.old) }
        ensures known { IsTrue (is_known self.old meta.seq_no) → IsOk result }
        ensures stands { (events : List (Event I)) → StandsFor self.old events
            → OnOk result (StandsFor self.new (events ++ pushed (record { meta = meta; payload = payload }) ∷ [])) }
    {
        let number = u64::from(meta.seq_no);
        if self.is_known(number) {
            return Ok(());
        }
        self.packets.insert(number, Arrival { meta, payload })?;
        Ok(())
    }

    /// Tells that a number carries no frame here: once it is next it counts as given. Without
    /// memory nothing changes.
    pub fn push_padding(&mut self, seq_no: SeqNo) -> Result<(), AllocError>
        ensures ok { OnOk result (self.new ≡ with_padding self.old seq_no) }
        ensures err { OnErr result (self.new ≡ self.old) }
        ensures known { IsTrue (is_known self.old seq_no) → IsOk result }
        ensures stands { (events : List (Event I)) → StandsFor self.old events
            → OnOk result (StandsFor self.new (events ++ padded seq_no ∷ [])) }
    {
        let number = u64::from(seq_no);
        if self.is_known(number) {
            return Ok(());
        }
        self.paddings.insert(number)?;
        self.last = settle(self.last, &mut self.paddings);
        Ok(())
    }

    // Whether a front that came then is given though packets are missing before it.
    fn is_late(&self, received: Instant, now: Instant, audio_timeout: Option<Duration>) -> bool
        ensures { result ≡ is_late self.now received now audio_timeout }
    {
        self.packets.len() > self.hold_back
            || is_past(self.deadline, now)
            || is_past(timed_out(received, audio_timeout), now)
    }

    // Whether the front is given now, and then whether nothing is missing before it.
    fn turn(&self, now: Instant, audio_timeout: Option<Duration>) -> Option<bool>
        ensures { result ≡ turn self.now now audio_timeout }
    {
        let Some((number, arrival)) = self.packets.first_key_value() else {
            return None;
        };
        if is_next(self.last, *number) {
            return Some(true);
        }
        if self.is_late(arrival.meta.received, now, audio_timeout) {
            return Some(false);
        }
        None
    }

    /// Gives the front, the packet with the lowest number: where nothing was given yet or it is the
    /// next number; else, and then not contiguous, where more packets wait than are held back, the
    /// recovery deadline has come, or a timeout is given and has passed since the packet came. None
    /// exactly where none of this holds or nothing waits. Unsupported comes exactly for a format of
    /// video, and ShortTelephone exactly for a telephone event under 4 bytes: such a front is gone.
    pub fn pop(
        &mut self,
        now: Instant,
        audio_timeout: Option<Duration>,
    ) -> Option<Result<Depacketized<I>, PacketError>>
        ensures given { result ≡ popped self.old now audio_timeout }
        ensures after { self.new ≡ after_pop self.old now audio_timeout }
        ensures rule { (events : List (Event I)) → StandsFor self.old events
            → GivesByRule self.old events now audio_timeout result }
        ensures stands { (events : List (Event I)) → StandsFor self.old events
            → StandsFor self.new (events ++ given_now self.old now audio_timeout) }
    {
        let Some(contiguous) = self.turn(now, audio_timeout) else {
            return None;
        };
        let Some((number, arrival)) = self.packets.pop_first() else {
            return None;
        };
        self.last = settle(Some(number), &mut self.paddings);
        Some(frame(self.depack, arrival, contiguous))
    }

    fn blocked(&self) -> Option<(u64, Instant)>
        ensures { result ≡ blocked self.now }
    {
        let Some((number, arrival)) = self.packets.first_key_value() else {
            return None;
        };
        if is_next(self.last, *number) || self.packets.len() > self.hold_back {
            return None;
        }
        Some((*number, arrival.meta.received))
    }

    /// When the front is given that waits for a missing packet: the earlier of the recovery
    /// deadline and the end of its timeout. None where nothing waits so, or neither is there.
    pub fn poll_timeout(&self, audio_timeout: Option<Duration>) -> Option<Instant>
        ensures { result ≡ next_moment self.now audio_timeout }
    {
        let Some((_, received)) = self.blocked() else {
            return None;
        };
        earlier(self.deadline, timed_out(received, audio_timeout))
    }

    /// The numbers that are missing before the front that waits for them, and when that came. None
    /// where nothing waits so.
    pub fn recovery_candidate(&self) -> Option<(Range<SeqNo>, Instant)>
        ensures { option_map (λ x. (x.0.start, x.0.end, x.1)) result ≡ candidate self.now }
    {
        let Some(last) = self.last else {
            return None;
        };
        let Some((number, received)) = self.blocked() else {
            return None;
        };
        let missing = SeqNo::from(last.saturating_add(1))..SeqNo::from(number);
        Some((missing, received))
    }

    /// Sets when the missing packets before the front are given up, None for never.
    pub fn set_recovery_deadline(&mut self, deadline: Option<Instant>)
        ensures value { self.new ≡ record self.old { deadline = deadline } }
        ensures stands { (events : List (Event I)) → StandsFor self.old events → StandsFor self.new events }
    {
        self.deadline = deadline;
    }
}

/// Packets that come in order are given as they came, one for each.
#[tactic(auto, using(crate::proofs::InOrder::in_order))]
pub fn frames_come_out_as_in<I: Drop>()
    ensures { ComesOutAsIn I }
{}

/// What was pushed and given determines what a buffer holds: the last number, and what waits.
pub fn events_determine_what_waits<I: Drop>()
    ensures { EventsDetermine I }
{}
