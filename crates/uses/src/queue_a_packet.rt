//! A packet that is written on a stream and sealed after the next tick.
ghost use Rattle.std.specs.Prelude.{◌≡◌, ◌↔◌, IfOk, OnOk, OnErr, IsErrOf};
ghost use Rattle.stream_core.specs.TxRecord.{written, after_timeout, after_poll, polled, transport_after_poll, IsTooBig, IsTooLong};
ghost use Rattle.stream_core.specs.declared.write.WriteError.TheVariants.{NumberTooBig, PayloadTooLong};

use media_units::Instant;
use std::alloc::Global;
use stream_core::{PacketReceipt, RtpWrite, StreamTx, Transport, WriteError};

/// Writes a packet behind those that wait, ticks, and gives what is to be sealed first.
pub fn write_and_poll(
    alloc: Global,
    stream: &mut StreamTx,
    write: RtpWrite,
    now: Instant,
    transport: &mut Transport,
) -> Result<Option<PacketReceipt>, WriteError>
    ensures first { IfOk result (λ receipt. receipt
        ≡ polled (after_timeout now (written write stream.old)) transport.old now) }
    ensures after { OnOk result (stream.new
        ≡ after_poll (after_timeout now (written write stream.old))) }
    ensures counted { OnOk result (transport.new
        ≡ transport_after_poll (after_timeout now (written write stream.old)) transport.old) }
    ensures uncounted { OnErr result (transport.new ≡ transport.old) }
    ensures number { IsErrOf result NumberTooBig ↔ IsTooBig write }
    ensures payload { IsErrOf result PayloadTooLong ↔ IsTooLong write }
{
    stream.write_rtp(write)?;
    stream.handle_timeout(now);
    Ok(stream.poll_packet(alloc, now, transport)?)
}
