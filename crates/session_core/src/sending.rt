ghost use Rattle.std.specs.Prelude.{◌≡◌, ◌<◌, Some, None, true, length, take, slice_get, IfOk, IfSome};
ghost use Rattle.std.specs.Map.{values_of};
ghost use Rattle.std.specs.Option.{option_map};
ghost use Rattle.stream_core.specs.StreamsRecord.{is_ready};
ghost use Rattle.stream_core.specs.TxRecord.{IsSealable};
ghost use Rattle.session_core.specs.Sending.{has_mid, is_due, first_due, sealed_as, sealed_by};

use crate::datagram::Datagram;
use crate::media::Media;
use media_base::Bytes;
use repair_core::GapWindow;
use resend_core::ResendStore;
use rtp_base::{Kind, Mid};
use srtp_core::{SrtpCipher, SrtpContext};
use std::alloc::{AllocError, Global};
use stream_core::{PacketReceipt, Sent, Streams};

/// Whether some media section has this mid.
pub fn has_mid(medias: &[Media], mid: Mid) -> bool
    ensures { result ≡ has_mid mid medias.now }
{
    medias.iter().any(|media| media.mid() == mid)
}

/// Whether the stream at a place has a packet to be sealed, or, where those may leave, one that is
/// asked for, and its mid is a media section's.
fn is_due<W: GapWindow, S: ResendStore<Sent>>(
    streams: &Streams<W, S>,
    place: usize,
    medias: &[Media],
    released: bool,
) -> bool
    requires { place < length streams.now.tx }
    ensures { Some result ≡ option_map (is_due medias.now released streams.now.repairs) (slice_get (values_of streams.now.tx) place) }
{
    let stream = streams.tx(place);
    has_mid(medias, stream.mid()) && (stream.is_ready() || released && streams.is_asked(place))
}

/// The place of the first stream that is due, where none before `from` is. The time grows with the
/// number of streams from there to it, and with that of the media sections.
pub fn first_due<W: GapWindow, S: ResendStore<Sent>>(
    streams: &Streams<W, S>,
    medias: &[Media],
    released: bool,
    from: usize,
) -> Option<usize>
    requires { first_due medias.now released streams.now.repairs (take from streams.now.tx) ≡ None }
    ensures place { result ≡ first_due medias.now released streams.now.repairs streams.now.tx }
    ensures within { IfSome result (λ i. i < length streams.now.tx) }
    ensures before { IfSome result (λ i. first_due medias.now released streams.now.repairs (take i streams.now.tx) ≡ None) }
    ensures ready { IfSome result (λ i. option_map (is_ready streams.now.repairs) (slice_get (values_of streams.now.tx) i) ≡ Some true) }
{
    for place in from..streams.tx_len() {
        if is_due(streams, place, medias, released) {
            return Some(place);
        }
    }
    None
}

fn seal_with<C: SrtpCipher>(
    context: &mut SrtpContext<C>,
    receipt: PacketReceipt,
) -> Result<Datagram, AllocError>
    requires { IsSealable receipt }
    ensures sealed { IfOk result (λ d. d ≡ sealed_as C.meaning context.old receipt) }
    ensures same { context.new ≡ context.old }
{
    let bytes = context.protect_rtp(
        receipt.plain.as_slice(),
        &receipt.header,
        u64::from(receipt.seq_no),
    )?;
    Ok(Datagram {
        kind: Kind::Rtp,
        ssrc: receipt.header.ssrc,
        index: receipt.seq_no,
        plain: receipt.plain,
        bytes: Bytes::from_vec(bytes),
    })
}

/// Seals a packet, where there are keys.
pub fn seal<C: SrtpCipher>(
    sealing: &mut Option<SrtpContext<C>>,
    receipt: PacketReceipt,
) -> Result<Option<Datagram>, AllocError>
    requires { IsSealable receipt }
    ensures sealed { IfOk result (λ d. d ≡ sealed_by C.meaning sealing.old (Some receipt)) }
    ensures same { sealing.new ≡ sealing.old }
{
    match sealing {
        Some(context) => Ok(Some(seal_with(context, receipt)?)),
        None => Ok(None),
    }
}
