//! What an RTCP datagram says of streams.
ghost use Rattle.std.specs.Prelude.{◌≡◌, IfOk};
ghost use Rattle.std.specs.List.{flat_map};
ghost use Rattle.rtcp_wire.specs.Items.{items_of};
ghost use Rattle.rtcp_wire.specs.Streams.{feedback_of};

use rtcp_wire::{Rtcp, RtcpFb};
use std::alloc::{AllocError, Global};
use std::collections::VecDeque;

/// What a datagram says of single streams, in order. What stands behind an item that cannot be read
/// is passed over.
pub fn read_feedback(alloc: Global, bytes: &[u8]) -> Result<Vec<RtcpFb>, AllocError>
    ensures { IfOk result (λ told. told.items ≡ flat_map feedback_of (items_of bytes.now)) }
{
    let mut items = VecDeque::new(alloc);
    Rtcp::read_packet(alloc, bytes, &mut items)?;
    RtcpFb::from_rtcp(alloc, items)
}
