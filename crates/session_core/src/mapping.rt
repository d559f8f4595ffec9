//! Datagrams that come under an SSRC of no table: under which number they may open, before it is
//! taken up of which stream they are.
ghost use Rattle.std.specs.Prelude.{◌≡◌, ◌<◌, ◌%◌, ◌==◌, ℕ, List, Some, None, false, IfSome};
ghost use Rattle.std.specs.Option.{option_copied};
ghost use Rattle.stream_core.specs.RxRecord.{RxRecord};
ghost use Rattle.stream_core.specs.Seen.{SeenStandsFor};
ghost use Rattle.stream_core.specs.StreamsRecord.{StreamsRecord, StandsFor as StreamsStand, taken_up};
ghost use Rattle.stream_core.specs.Tables.{value_under};
ghost use Rattle.session_core.specs.Mapping.{rids_for, is_nowhere, is_standing, mapped_in, unseen_number};
ghost use Rattle.session_core.specs.Receiving.{as_repair, opening_number};
ghost use Rattle.session_core.specs.Repairs.{repair_accepted};
ghost use Rattle.session_core.specs.SessionRecord.{SessionRecord, streams_in, with_incoming};

use crate::media::{Media, media_of};
use crate::restoring::{accepts_repair, is_known};
use mapping_core::{Mapping, Rids};
use repair_core::GapWindow;
use resend_core::ResendStore;
use rtp_base::{NUMBER_LIMIT, SeqNo, Ssrc};
use rtp_wire::RtpHeader;
use stream_core::{
    PayloadTypes, Seen, Sent, Streams, first_number, first_repair, first_repair_number,
};

/// What the media section expects whose mid a header carries; None where there is no such section.
/// The time grows with the number of media sections.
pub fn rids_for<'a>(medias: &'a [Media], header: &RtpHeader) -> Option<&'a Rids>
    ensures { option_copied result ≡ rids_for header.now medias.now }
{
    let Some(mid) = header.ext_vals.mid else {
        return None;
    };
    match media_of(medias, mid) {
        Some(media) => Some(media.rids_rx()),
        None => None,
    }
}

/// Whether a datagram is of no stream.
pub fn is_nowhere(mapping: &Mapping) -> bool
    ensures { result ≡ is_nowhere mapping.now }
{
    matches!(mapping, Mapping::Nowhere(_))
}

/// Whether an SSRC is that of probes, of a stream or of a stream's repairs: at most two look-ups in
/// hash tables.
pub fn is_standing<W: GapWindow, S: ResendStore<Sent>>(ssrc: Ssrc, streams: &Streams<W, S>) -> bool
    ensures { (r : StreamsRecord) → StreamsStand W.remembers S.stands_for streams.now r → result ≡ is_standing ssrc r.rx r.known.originals }
{
    ssrc.is_probe() || streams.rx_place(ssrc).is_some() || streams.original(ssrc).is_some()
}

/// The number of a datagram of an SSRC that is near the greatest that was seen on it, where no
/// datagram of that SSRC opened under it.
pub fn unseen_number(header: &RtpHeader, seen: &Seen) -> Option<SeqNo>
    ensures number { (numbers : List (ℕ × List ℕ)) → SeenStandsFor seen.now numbers → result ≡ unseen_number numbers header.now }
    ensures small { IfSome result (λ n. n < NUMBER_LIMIT) }
    ensures low { IfSome result (λ n. n % 65536 ≡ header.now.sequence_number) }
{
    let number = first_repair_number(header.sequence_number, seen.get(header.ssrc));
    if seen.accepts(header.ssrc, number) {
        Some(number)
    } else {
        None
    }
}

/// The own number under which the first repair of a stream may open.
fn first_repair_under(header: &RtpHeader, seen: &Seen) -> Option<SeqNo>
    ensures number { (numbers : List (ℕ × List ℕ)) (x : RxRecord) → SeenStandsFor seen.now numbers → x.repairs ≡ None → result ≡ repair_accepted numbers header.now x }
    ensures small { IfSome result (λ n. n < NUMBER_LIMIT) }
    ensures low { IfSome result (λ n. n % 65536 ≡ header.now.sequence_number) }
{
    if header.has_padding {
        return unseen_number(header, seen);
    }
    first_repair(header.sequence_number, seen.get(header.ssrc))
}

/// The number of a repair, told as such.
fn as_repair(number: Option<SeqNo>) -> Option<(SeqNo, bool)>
    ensures value { result ≡ as_repair number }
    ensures small { IfSome number (λ n. n < NUMBER_LIMIT) → IfSome result (λ f. f.0 < NUMBER_LIMIT) }
    ensures low { (low : ℕ) → IfSome number (λ n. n % 65536 ≡ low) → IfSome result (λ f. f.0 % 65536 ≡ low) }
{
    match number {
        Some(number) => Some((number, true)),
        None => None,
    }
}

/// The number under which the first datagram of a stream may open, and whether it is a repair: it
/// is one where its type is one of repairs.
fn first_under(
    types: &PayloadTypes,
    seen: &Seen,
    header: &RtpHeader,
    repair: Option<SeqNo>,
) -> Option<(SeqNo, bool)>
    requires small { IfSome repair (λ n. n < NUMBER_LIMIT) }
    requires low { IfSome repair (λ n. n % 65536 ≡ header.now.sequence_number) }
    ensures number { (r : SessionRecord) (x : RxRecord) → SeenStandsFor seen.now r.seen → types.now ≡ r.state.types → (header.now.ssrc == 0) ≡ false
        → x.numbers ≡ None → x.state.roc ≡ None → value_under header.now.ssrc r.rx ≡ Some x → repair_accepted r.seen header.now x ≡ repair
        → result ≡ opening_number header.now r }
    ensures small { IfSome result (λ f. f.0 < NUMBER_LIMIT) }
    ensures low { IfSome result (λ f. f.0 % 65536 ≡ header.now.sequence_number) }
{
    if types.primary(header.payload_type).is_some() {
        return as_repair(repair);
    }
    if !types.has(header.payload_type) {
        return None;
    }
    match first_number(header.sequence_number, seen.get(header.ssrc)) {
        Some(number) => Some((number, false)),
        None => None,
    }
}

/// The number under which a datagram of an SSRC of no table may open once it is taken up of which
/// stream it is, and whether it is a repair then. Nothing changes.
pub fn first_opening<W: GapWindow, S: ResendStore<Sent>>(
    types: &PayloadTypes,
    streams: &Streams<W, S>,
    seen: &Seen,
    header: &RtpHeader,
    mapping: &Mapping,
) -> Option<(SeqNo, bool)>
    ensures number { (r : SessionRecord) → StreamsStand W.remembers S.stands_for streams.now (streams_in r) → SeenStandsFor seen.now r.seen → types.now ≡ r.state.types
        → is_standing header.now.ssrc r.rx r.known.originals ≡ false → mapping.now ≡ mapped_in header.now r
        → result ≡ opening_number header.now (with_incoming (taken_up header.now.ssrc mapping.now (streams_in r)) r) }
    ensures small { IfSome result (λ f. f.0 < NUMBER_LIMIT) }
    ensures low { IfSome result (λ f. f.0 % 65536 ≡ header.now.sequence_number) }
{
    match mapping {
        Mapping::Main(_) | Mapping::Nowhere(_) => None,
        Mapping::NewStream(_) => {
            let repair = first_repair_under(header, seen);
            first_under(types, seen, header, repair)
        }
        Mapping::NewMain(change) => {
            let place = streams.rx_place(change.from)?;
            let repair = accepts_repair(header, place, seen, streams);
            first_under(types, seen, header, repair)
        }
        Mapping::NewRepairs(change) => {
            if !is_known(types, header.payload_type) || streams.rx_place(change.main).is_none() {
                return None;
            }
            as_repair(first_repair_under(header, seen))
        }
        Mapping::Repairs(main) => {
            if !is_known(types, header.payload_type) {
                return None;
            }
            let place = streams.rx_place(*main)?;
            as_repair(accepts_repair(header, place, seen, streams))
        }
    }
}
