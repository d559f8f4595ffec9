//! Of which stream a datagram is that came.
ghost use Rattle.std.specs.Prelude.{◌≡◌, true, false, IfOk, OnErr};
ghost use Rattle.std.specs.Option.{option_copied};
ghost use Rattle.mapping_core.specs.Mapped.{mapped};
ghost use Rattle.mapping_core.specs.Streams.{committed, is_known};

use mapping_core::{MappedStreams, Mapping, Rids, TypeClaim};
use rtp_wire::RtpHeader;
use std::alloc::AllocError;

/// Of which stream a datagram is, by its header. Where its SSRC was unknown and it opened, as one
/// of that stream, this is known from then on. Without memory nothing changes.
pub fn map_datagram(
    streams: &mut MappedStreams,
    rids: Option<&Rids>,
    types: &[TypeClaim],
    header: &RtpHeader,
    opened: bool,
) -> Result<Mapping, AllocError>
    ensures stream { IfOk result (λ m.
        m ≡ mapped (option_copied rids.entry) types.now streams.old header.now) }
    ensures opened { IfOk result (λ m. opened ≡ true → streams.new ≡ committed m streams.old) }
    ensures closed { opened ≡ false → streams.new ≡ streams.old }
    ensures known { is_known streams.old header.now.ssrc ≡ true → streams.new ≡ streams.old }
    ensures unchanged { OnErr result (streams.new ≡ streams.old) }
{
    let mapping = streams.map(rids, types, header);
    streams.commit(&mapping, opened)?;
    Ok(mapping)
}
