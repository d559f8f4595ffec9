//! Packets that come in any order, given in the order of their numbers.
ghost use Rattle.std.specs.Prelude.{◌≡◌, ℕ, Option, None, Some, true, IfOk, OnOk, OnErr};
ghost use Rattle.payload_core.specs.declared.payload.CodecDepacketizer.{CodecDepacketizer};
ghost use Rattle.payload_core.specs.Buffer.{is_next};
ghost use Rattle.payload_core.specs.InOrder.{empty_after};
ghost use Rattle.payload_core.specs.Reordering.{with_packet, popped, after_pop, frame_of};

use media_units::Instant;
use payload_core::{
    Arrival, Depacketized, DepacketizingBuffer, PacketError, frames_come_out_as_in,
};
use std::alloc::AllocError;

/// Puts a packet that came among those that wait, and gives the frame whose turn it is, if any. A
/// packet with the next number is given at once, where nothing waits.
pub fn next_frame<I: Drop>(
    buffer: &mut DepacketizingBuffer<I>,
    packet: Arrival<I>,
    now: Instant,
) -> Result<Option<Result<Depacketized<I>, PacketError>>, AllocError>
    ensures given { IfOk result (λ frame. frame ≡ popped (with_packet buffer.old packet) now None) }
    ensures after { OnOk result (buffer.new ≡ after_pop (with_packet buffer.old packet) now None) }
    ensures unchanged { OnErr result (buffer.new ≡ buffer.old) }
    ensures at_once { (format : CodecDepacketizer) (hold_back : ℕ) (deadline last : Option ℕ)
        → buffer.old ≡ empty_after format hold_back deadline last
        → is_next last packet.meta.seq_no ≡ true
        → IfOk result (λ frame. frame ≡ Some (frame_of format packet true)) }
{
    frames_come_out_as_in::<I>();
    let Arrival { meta, payload } = packet;
    buffer.push(meta, payload)?;
    Ok(buffer.pop(now, None))
}
