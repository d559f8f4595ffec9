//! A setup and its steps, made in code: a packet that side A writes and seals, and side B gets.
ghost use Rattle.std.specs.Prelude.{◌≡◌, ◌∷◌, [], IfOk, length};
ghost use Rattle.media_model.specs.Setup.{streams_of, types_of};

use crate::script_parts::{deliver, packet, payload_type, setup, stream, tick, video, write};
use media_base::Bytes;
use media_model::{Codec, Setup, Side, Step};
use media_units::Instant;
use rtp_wire::Mid;
use std::alloc::{AllocError, Global};

/// One stream from A to B, and a packet on it.
pub fn one_write(alloc: Global, mid: Mid, payload: &[u8]) -> Result<(Setup, Vec<Step>), AllocError>
    ensures streams { IfOk result (λ script. streams_of Side.A script.0 ≡ 42 ∷ []) }
    ensures types { IfOk result (λ script. types_of script.0 ≡ 96 ∷ []) }
    ensures steps { IfOk result (λ script. length script.1.items ≡ 3) }
{
    let types = vec![in alloc; payload_type(96, Codec::Vp8, 90_000)]?;
    let streams = vec![in alloc; stream(Side::A, 42)]?;
    let cname = Bytes::from_slice(alloc, b"cam")?;
    let media = vec![in alloc; video(mid, cname, streams)]?;
    let now = Instant::from_nanos(1);
    let payload = Bytes::from_slice(alloc, payload)?;
    let steps = vec![in alloc;
        write(Side::A, now, packet(42, 1, 96, payload)),
        tick(Side::A, now),
        deliver(Side::B, now, 1),
    ]?;
    Ok((setup(alloc, types, media), steps))
}
