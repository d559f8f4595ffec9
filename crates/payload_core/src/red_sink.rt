//! Older frames beside each on its way out (RED, RFC 2198).
ghost use Rattle.std.specs.Prelude.{◌≡◌};

use crate::payload::{MediaPacket, PacketSink};
use crate::red_sender::RedSender;
use std::alloc::{AllocError, Global};

/// Takes packets of media, puts older frames beside each, and hands them on under the type of RED.
#[derive(Drop)]
pub struct RedSink<'a, S> {
    /// What takes them then.
    pub sink: &'a mut S,
    /// What remembers the older frames.
    pub sender: &'a mut RedSender,
    /// How many bytes a payload has at most.
    pub limit: usize,
    /// Where payloads are made.
    pub alloc: Global,
}

impl<'a, S> RedSink<'a, S> {
    /// Hands packets on to this sink, with the frames that this sender remembers, in payloads of at
    /// most so many bytes.
    pub fn new(
        alloc: Global,
        sink: &'a mut S,
        sender: &'a mut RedSender,
        limit: usize,
    ) -> RedSink<'a, S>
        ensures sink { result.sink.ghost_name ≡ sink.entry.ghost_name }
        ensures sink_now { result.sink.now ≡ sink.old }
        ensures sender { result.sender.ghost_name ≡ sender.entry.ghost_name }
        ensures sender_now { result.sender.now ≡ sender.old }
        ensures limit { result.limit ≡ limit }
    {
        RedSink {
            sink,
            sender,
            limit,
            alloc,
        }
    }
}

impl<S: PacketSink> PacketSink for RedSink<'_, S> {
    ghost use Rattle.payload_core.specs.RedSinks.{HandsOn};

    ghost takes = { λ s p t. HandsOn S.takes s p t };

    fn write_packet(&mut self, packet: MediaPacket) -> Result<(), AllocError> {
        let wrapped = self.sender.wrap_only(self.alloc, packet, self.limit)?;
        match self.sink.write_packet(wrapped) {
            Ok(()) => {
                self.sender.forget();
                Ok(())
            }
            Err(error) => {
                self.sender.remove_last();
                Err(error)
            }
        }
    }
}
