//! Sending frames with older ones (RED, RFC 2198).
ghost use Rattle.std.specs.Prelude.{◌≡◌, ◌==◌, ◌&&◌, ◌-◌, ◌<◌, ◌≤◌, max, fold, IfOk, OnOk, OnErr};
ghost use Rattle.std.specs.Bool.{OnTrue};
ghost use Rattle.std.specs.List.{list_any};
ghost use Rattle.payload_core.specs.Red.{block_of, blocks_of};
ghost use Rattle.payload_core.specs.RedWriting.{red_bytes};
ghost use Rattle.payload_core.specs.Sending.{Fits, fits, older_block};
ghost use Rattle.payload_core.specs.SendingLaws.{FramesAreSentAgain};

use crate::payload::MediaPacket;
use crate::red::{RED_LEN_LIMIT, RED_OFFSET_LIMIT, RedBlock};
use crate::red_encoder::red_bytes;
use media_base::Bytes;
use rtp_wire::Pt;
use std::alloc::{AllocError, Global};
use std::marker::Model;
use std::mem;

/// A frame that was sent.
#[derive(Debug, Drop)]
pub struct SentFrame {
    /// When it begins, in ticks of the RTP clock.
    pub time: u64,
    /// The frame.
    pub payload: Bytes,
}

/// Puts older frames beside each that is sent. Contracts see its types, its distances and the
/// frames that it remembers, the last one first.
#[derive(Debug, Drop)]
pub struct RedSender {
    red_type: Pt,
    frame_type: Pt,
    distances: Vec<u32>,
    sent: Vec<SentFrame>,
}

impl Model for RedSender {
    ghost use Rattle.payload_core.specs.Remembered.{Remembered};

    ghost Value = { Remembered };

    ghost view = { λ s. record {
      red_pt = s.red_type;
      pt = s.frame_type;
      distances = s.distances.items;
      sent = s.sent.items;
    } };
}

fn is_distance(distances: &[u32], distance: u64) -> bool
    ensures { result ≡ list_any (λ d. d == distance) distances.now }
{
    distances.iter().any(|d| u64::from(*d) == distance)
}

fn greatest(distances: &[u32]) -> u32
    ensures { result ≡ fold max 0 distances.now }
{
    distances.iter().fold(0, |most, d| most.max(*d))
}

// Whether a frame can stand in a redundant block beside one of this time, in so much room.
fn fits(time: u64, sent: &SentFrame, room: usize) -> bool
    ensures value { result ≡ fits time room sent.now }
    ensures fields { OnTrue result (Fits time room sent.now) }
{
    sent.time <= time
        && time - sent.time < RED_OFFSET_LIMIT
        && sent.payload.len() < RED_LEN_LIMIT
        && 4 + sent.payload.len() <= room
}

// Whether a frame so many packets back stands beside one of this time, in so much room.
fn is_taken(distances: &[u32], distance: u64, time: u64, sent: &SentFrame, room: usize) -> bool
    ensures value { result ≡ (list_any (λ d. d == distance) distances.now && fits time room sent.now) }
    ensures fields { OnTrue result (Fits time room sent.now) }
{
    is_distance(distances, distance) && fits(time, sent, room)
}

fn older_block(pt: Pt, time: u64, sent: &SentFrame) -> RedBlock<'_>
    requires before { sent.now.time ≤ time }
    requires near { time - sent.now.time < RED_OFFSET_LIMIT }
    ensures { block_of result ≡ older_block pt time sent.now }
{
    RedBlock {
        pt,
        timestamp_offset: (time - sent.time) as u16,
        payload: sent.payload.as_slice(),
        is_primary: false,
    }
}

impl RedSender {
    ghost use Rattle.payload_core.specs.Sending.{no_frames, synced, chosen, frame_blocks, with_frame, without_last, trimmed, with_sent, wrapped};

    /// Sends frames of a type under the type of RED, with the frames that are so many packets back.
    /// No frame was sent.
    pub fn new(alloc: Global, red_pt: Pt, pt: Pt, distances: &[u32]) -> Result<Self, AllocError>
        ensures { IfOk result (λ s. s ≡ no_frames red_pt pt distances.now) }
    {
        let distances = distances.to_vec(alloc)?;
        Ok(RedSender {
            red_type: red_pt,
            frame_type: pt,
            distances,
            sent: Vec::new(alloc),
        })
    }

    /// Takes on types and distances that may have changed. The frames that were sent stay, unless
    /// they are of another type. Without memory nothing changes.
    pub fn sync(
        &mut self,
        alloc: Global,
        red_pt: Pt,
        pt: Pt,
        distances: &[u32],
    ) -> Result<(), AllocError>
        ensures ok { OnOk result (self.new ≡ synced self.old red_pt pt distances.now) }
        ensures err { OnErr result (self.new ≡ self.old) }
    {
        let distances = distances.to_vec(alloc)?;
        self.distances = distances;
        if self.frame_type != pt {
            self.sent.clear();
        }
        self.red_type = red_pt;
        self.frame_type = pt;
        Ok(())
    }

    // The blocks beside a frame, and its own, which is the last.
    fn blocks<'a>(
        &'a self,
        alloc: Global,
        time: u64,
        frame: &'a [u8],
        limit: usize,
    ) -> Result<Vec<RedBlock<'a>>, AllocError>
        ensures { IfOk result (λ v. blocks_of v.items ≡ frame_blocks self.now time frame.now limit) }
    {
        let count = self.sent.len();
        let mut blocks = Vec::with_capacity(alloc, count + 1)?;
        blocks.push_reserved(RedBlock {
            pt: self.frame_type,
            timestamp_offset: 0,
            payload: frame,
            is_primary: true,
        });
        let mut room = limit.saturating_sub(1).saturating_sub(frame.len());
        for i in 0..count {
            let sent = &self.sent[i];
            if is_taken(&self.distances, i as u64 + 1, time, sent, room) {
                room -= 4 + sent.payload.len();
                blocks.push_reserved(older_block(self.frame_type, time, sent));
            }
        }
        blocks.reverse();
        Ok(blocks)
    }

    // The payload under the type of RED of a frame at this time.
    fn payload(
        &self,
        alloc: Global,
        time: u64,
        frame: &[u8],
        limit: usize,
    ) -> Result<Vec<u8>, AllocError>
        ensures { IfOk result (λ v. v.items ≡ red_bytes (frame_blocks self.now time frame.now limit)) }
    {
        let blocks = self.blocks(alloc, time, frame, limit)?;
        red_bytes(alloc, &blocks)
    }

    // Puts a frame before those that were sent.
    fn add(&mut self, time: u64, payload: Bytes) -> Result<(), AllocError>
        ensures ok { OnOk result (self.new ≡ with_frame self.old time payload) }
        ensures err { OnErr result (self.new ≡ self.old) }
    {
        self.sent.insert(0, SentFrame { time, payload })?;
        Ok(())
    }

    // Lets go of the frame that was added last.
    pub(crate) fn remove_last(&mut self)
        ensures { self.new ≡ without_last self.old }
    {
        if !self.sent.is_empty() {
            let _last = self.sent.remove(0);
        }
    }

    // Lets go of the frames that are farther back than any distance.
    pub(crate) fn forget(&mut self)
        ensures { self.new ≡ trimmed self.old }
    {
        let depth = greatest(&self.distances) as usize;
        self.sent.truncate(depth);
    }

    /// The packet under the type of RED: its frame as the last block, and before it the frames at
    /// the distances whose offset and length fit their fields and which the limit leaves room for,
    /// the nearest last; of these the nearer come first to the room. The frame is remembered.
    /// Without memory nothing changes. The time grows with the distances and with the greatest of
    /// them.
    pub fn wrap(
        &mut self,
        alloc: Global,
        packet: MediaPacket,
        limit: usize,
    ) -> Result<MediaPacket, AllocError>
        ensures packet { IfOk result (λ p. p ≡ wrapped self.old packet limit) }
        ensures sent { OnOk result (self.new ≡ with_sent self.old packet.rtp_time.numer packet.payload) }
        ensures err { OnErr result (self.new ≡ self.old) }
    {
        let wrapped = self.wrap_only(alloc, packet, limit)?;
        self.forget();
        Ok(wrapped)
    }

    // Wraps a packet, and keeps all frames.
    pub(crate) fn wrap_only(
        &mut self,
        alloc: Global,
        packet: MediaPacket,
        limit: usize,
    ) -> Result<MediaPacket, AllocError>
        ensures packet { IfOk result (λ p. p ≡ wrapped self.old packet limit) }
        ensures sent { OnOk result (self.new ≡ with_frame self.old packet.rtp_time.numer packet.payload) }
        ensures err { OnErr result (self.new ≡ self.old) }
    {
        let mut packet = packet;
        let time = packet.rtp_time.numer();
        let payload = self.payload(alloc, time, packet.payload.as_slice(), limit)?;
        let frame = mem::replace(&mut packet.payload, Bytes::from_vec(payload));
        self.add(time, frame)?;
        packet.pt = self.red_type;
        Ok(packet)
    }
}

/// What a sender of RED makes of a frame is read again, and is within the limit where the frame
/// with its own header is.
#[tactic(auto, using(crate::proofs::SentAgain::sent_again))]
pub fn frames_are_sent_again()
    ensures { FramesAreSentAgain }
{}
