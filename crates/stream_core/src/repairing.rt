//! What a stream sends again (RFC 4588), and its packets, which go after that.
ghost use Rattle.std.specs.Prelude.{◌≡◌, ◌≤◌, ◌<◌, ◌+◌, ◌↔◌, [], ◌||◌, length, is_some, true, None, Some, IfOk, IfSome, IfNone, OnOk, OnErr, IsErrOf};
ghost use Rattle.rtp_wire.specs.Header.{header_bytes};
ghost use Rattle.rtp_wire.specs.HeaderLaws.{IsReadAgain};
ghost use Rattle.stream_core.specs.Queue.{IsSendable, next_of};
ghost use Rattle.stream_core.specs.Repairing.{RepairsRecord, RepairsStandFor, size_of_sent, number_of_sent, repair_values, repair_header, repair_of, kept_as, Repairs, Keeps, Polls, Stays, IsUsedUp, has_asked};
ghost use Rattle.stream_core.specs.TxRecord.{after_poll, polled, IsSealable};
ghost use Rattle.stream_core.specs.Sealing.{after_packet};

use crate::packet::RtpPacket;
use crate::payload_types::PayloadTypes;
use crate::stream_tx::{PacketReceipt, StreamTx, receipt};
use crate::transport::Transport;
use media_units::Instant;
use resend_core::{Cached, ResendStore};
use rtp_base::{NUMBER_LIMIT, Pt, SeqNo, Ssrc};
use rtp_wire::{MAX_SOURCES, RtpHeader};
use rtx_core::{ResendError, ResendQueue};
use std::alloc::{AllocError, Global};
use std::marker::Model;

/// A packet that was sent and may be sent again. Contracts see the packet and the type of its
/// repairs.
#[derive(Debug, Drop)]
pub struct Sent {
    packet: RtpPacket,
    rtx_type: Pt,
}

impl Model for Sent {
    ghost use Rattle.stream_core.specs.Repairing.{SentPacket};
    ghost use Rattle.stream_core.specs.Queue.{IsSendable};

    ghost Value = { SentPacket };

    ghost view = { λ s. record { packet = s.packet; rtx_type = s.rtx_type } };

    ghost invariant = { λ s. IsSendable s.packet };
}

impl Cached for Sent {
    ghost use Rattle.stream_core.specs.Repairing.{number_of_sent, size_of_sent};

    ghost number = { number_of_sent };

    ghost size = { size_of_sent };

    fn seq_no(&self) -> SeqNo {
        self.packet.seq_no
    }

    fn payload_len(&self) -> usize {
        self.packet.payload.len()
    }
}

impl Sent {
    ghost use Rattle.stream_core.specs.Repairing.{SentPacket};

    /// A packet, and the type of its repairs. The bytes of its payload are not copied.
    fn of(packet: &RtpPacket, rtx_type: Pt) -> Result<Self, AllocError>
        requires { IsSendable packet.now }
        ensures { IfOk result (λ s. s ≡ record { packet = packet.now; rtx_type = rtx_type }) }
    {
        Ok(Sent {
            packet: packet.shared()?,
            rtx_type,
        })
    }

    /// The header of a repair of a stream, under a number, as it is sealed at a moment.
    fn repair_header(
        &self,
        stream: &StreamTx,
        ssrc: Ssrc,
        seq_no: SeqNo,
        now: Instant,
        transport: &Transport,
    ) -> RtpHeader
        ensures header { record result { header_len = length (header_bytes transport.now.exts result) } ≡ repair_header ssrc stream.now transport.now now seq_no self.now }
        ensures sources { result.csrc_count ≤ MAX_SOURCES }
    {
        let mut header = self.packet.header;
        header.payload_type = self.rtx_type;
        header.sequence_number = (u64::from(seq_no) % 65536) as u16;
        header.ssrc = ssrc;
        header.ext_vals.mid = Some(stream.mid());
        header.ext_vals.rid = None;
        header.ext_vals.rid_repair = stream.rid();
        transport.put_values(&mut header.ext_vals, now);
        header
    }

    /// What there is to seal for a repair (RFC 4588 section 4).
    fn repair(
        &self,
        alloc: Global,
        stream: &StreamTx,
        ssrc: Ssrc,
        seq_no: SeqNo,
        now: Instant,
        transport: &Transport,
    ) -> Result<PacketReceipt, AllocError>
        ensures repair { IfOk result (λ p. p ≡ repair_of ssrc stream.now transport.now now seq_no self.now) }
        ensures small { seq_no < NUMBER_LIMIT → IfOk result IsSealable }
        ensures reads { IfOk result (λ p. IsReadAgain transport.now.exts p.header) }
    {
        let header = self.repair_header(stream, ssrc, seq_no, now, transport);
        let low = (u64::from(self.packet.seq_no) % 65536) as u16;
        let number = low.to_be_bytes();
        let payload = &self.packet.payload;
        let receipt = receipt(alloc, header, &transport.exts, seq_no, &number, payload)?;
        Ok(receipt)
    }
}

/// What is to be sent again next, under its own number. Where nothing is, nothing is asked for any
/// more.
///
/// # Errors
/// `Exhausted` where something is and 2^48 numbers were used; `Memory`. Nothing changes then.
fn poll_repair<S: ResendStore<Sent>>(
    alloc: Global,
    stream: &StreamTx,
    ssrc: Ssrc,
    repairs: &mut ResendQueue<Sent, S>,
    now: Instant,
    transport: &Transport,
) -> Result<Option<PacketReceipt>, ResendError>
    ensures polled { IfOk result (λ o. (r : RepairsRecord) → RepairsStandFor S.stands_for repairs.old r
        → (after : RepairsRecord) × Repairs transport.now now ssrc stream.now r after o × RepairsStandFor S.stands_for repairs.new after) }
    ensures small { IfOk result (λ o. IfSome o IsSealable) }
    ensures reads { IfOk result (λ o. IfSome o (λ p. IsReadAgain transport.now.exts p.header)) }
    ensures fewer { IfOk result (λ o. IfSome o (λ p. length repairs.new.state.resends < length repairs.old.state.resends)) }
    ensures none { IfOk result (λ o. IfNone o (repairs.new.state.resends ≡ [])) }
    ensures exhausted { IsErrOf result ResendError.Exhausted → (r : RepairsRecord) → RepairsStandFor S.stands_for repairs.old r → IsUsedUp now r }
    ensures err { OnErr result (repairs.new ≡ repairs.old) }
    ensures cause { OnErr result (has_asked (Some repairs.old.state) ≡ true) }
{
    let Some(sent) = repairs.peek(now) else {
        repairs.give_up(now);
        return Ok(None);
    };
    let seq_no = repairs.next_seq_no();
    let receipt = sent.repair(alloc, stream, ssrc, seq_no, now, transport)?;
    match repairs.pop(now) {
        Ok(Some(_)) => Ok(Some(receipt)),
        Ok(None) => Ok(None),
        Err(error) => Err(error),
    }
}

/// A packet is sent for the first time: it is kept to be sent again, where it may be, and else
/// counted. Without memory nothing changes.
fn keep<S: ResendStore<Sent>>(
    repairs: &mut ResendQueue<Sent, S>,
    packet: &RtpPacket,
    types: &PayloadTypes,
    now: Instant,
) -> Result<(), AllocError>
    requires { IsSendable packet.now }
    ensures ok { OnOk result ((r : RepairsRecord) → RepairsStandFor S.stands_for repairs.old r
        → (after : RepairsRecord) × Keeps types.now now packet.now r after × RepairsStandFor S.stands_for repairs.new after) }
    ensures asked { repairs.new.state.resends ≡ repairs.old.state.resends }
    ensures err { OnErr result (repairs.new ≡ repairs.old) }
{
    match packet.kept_as(types) {
        Some(rtx_type) => {
            let sent = Sent::of(packet, rtx_type)?;
            repairs.cache_sent_packet(sent, now)?;
        }
        None => repairs.count_sent(now, packet.payload.len())?,
    }
    Ok(())
}

/// What is sent for the first time next. Without memory nothing changes.
fn poll_first<S: ResendStore<Sent>>(
    alloc: Global,
    stream: &mut StreamTx,
    repairs: &mut ResendQueue<Sent, S>,
    now: Instant,
    transport: &Transport,
    types: &PayloadTypes,
) -> Result<Option<PacketReceipt>, AllocError>
    ensures polled { IfOk result (λ o. o ≡ polled stream.old transport.now now) }
    ensures after { OnOk result (stream.new ≡ after_poll stream.old) }
    ensures kept { IfOk result (λ o. IfSome o (λ p. (r : RepairsRecord) → RepairsStandFor S.stands_for repairs.old r
        → (packet : _) × (next_of stream.old.queue ≡ Some packet) × (after : RepairsRecord) × Keeps types.now now packet r after × RepairsStandFor S.stands_for repairs.new after)) }
    ensures none { IfOk result (λ o. IfNone o (repairs.new ≡ repairs.old)) }
    ensures small { IfOk result (λ o. IfSome o IsSealable) }
    ensures reads { IfOk result (λ o. IfSome o (λ p. IsReadAgain transport.now.exts p.header)) }
    ensures asked { repairs.new.state.resends ≡ repairs.old.state.resends }
    ensures err { OnErr result ((stream.new ≡ stream.old) × (repairs.new ≡ repairs.old)) }
    ensures cause { OnErr result (is_some (next_of stream.old.queue) ≡ true) }
{
    let Some(receipt) = stream.next_receipt(alloc, now, transport)? else {
        return Ok(None);
    };
    if let Some(packet) = stream.next_packet() {
        keep(repairs, packet, types, now)?;
    }
    stream.pop_packet();
    Ok(Some(receipt))
}

/// What a stream with repairs gives at a moment: first what is to be sent again, then the packet at
/// the front of those that wait.
///
/// # Errors
/// `Exhausted` where something is to be sent again and 2^48 numbers were used, and nothing changes
/// then; `Memory`, and then nothing changes but that nothing may be asked for any more.
pub(crate) fn poll_both<S: ResendStore<Sent>>(
    alloc: Global,
    stream: &mut StreamTx,
    ssrc: Ssrc,
    repairs: &mut ResendQueue<Sent, S>,
    now: Instant,
    transport: &Transport,
    types: &PayloadTypes,
) -> Result<Option<PacketReceipt>, ResendError>
    requires { stream.old.rtx ≡ Some ssrc }
    ensures polled { IfOk result (λ o. (r : RepairsRecord) → RepairsStandFor S.stands_for repairs.old r
        → (after : RepairsRecord) × Polls types.now transport.now now stream.old (Some r) stream.new (Some after) o × RepairsStandFor S.stands_for repairs.new after) }
    ensures small { IfOk result (λ o. IfSome o IsSealable) }
    ensures reads { IfOk result (λ o. IfSome o (λ p. IsReadAgain transport.now.exts p.header)) }
    ensures fewer { OnOk result ((has_asked (Some repairs.old.state) || is_some (next_of stream.old.queue)) ≡ true
        → length repairs.new.state.resends + length stream.new.queue < length repairs.old.state.resends + length stream.old.queue) }
    ensures asked { has_asked (Some repairs.new.state) ≡ true → has_asked (Some repairs.old.state) ≡ true }
    ensures exhausted { IsErrOf result ResendError.Exhausted → (stream.new ≡ stream.old) × (repairs.new ≡ repairs.old)
        × ((r : RepairsRecord) → RepairsStandFor S.stands_for repairs.old r → IsUsedUp now r) }
    ensures failed { OnErr result ((stream.new ≡ stream.old) × ((r : RepairsRecord) → RepairsStandFor S.stands_for repairs.old r
        → (after : RepairsRecord) × Stays now (Some r) (Some after) × RepairsStandFor S.stands_for repairs.new after)) }
    ensures cause { OnErr result ((has_asked (Some repairs.old.state) || is_some (next_of stream.old.queue)) ≡ true) }
{
    match poll_repair(alloc, stream, ssrc, repairs, now, transport) {
        Ok(Some(receipt)) => {
            stream.count_resend(&receipt);
            return Ok(Some(receipt));
        }
        Ok(None) => {}
        Err(error) => return Err(error),
    }
    match poll_first(alloc, stream, repairs, now, transport, types) {
        Ok(polled) => Ok(polled),
        Err(_) => Err(ResendError::Memory),
    }
}

/// As `poll_both`, of a stream without repairs.
pub(crate) fn poll_alone(
    alloc: Global,
    stream: &mut StreamTx,
    now: Instant,
    transport: &Transport,
) -> Result<Option<PacketReceipt>, ResendError>
    ensures polled { IfOk result (λ o. o ≡ polled stream.old transport.now now) }
    ensures after { OnOk result (stream.new ≡ after_poll stream.old) }
    ensures small { IfOk result (λ o. IfSome o IsSealable) }
    ensures reads { IfOk result (λ o. IfSome o (λ p. IsReadAgain transport.now.exts p.header)) }
    ensures memory { IsErrOf result ResendError.Exhausted → ⊥ }
    ensures err { OnErr result (stream.new ≡ stream.old) }
    ensures cause { OnErr result (is_some (next_of stream.old.queue) ≡ true) }
{
    match stream.next_receipt(alloc, now, transport) {
        Ok(polled) => {
            stream.pop_packet();
            Ok(polled)
        }
        Err(_) => Err(ResendError::Memory),
    }
}
