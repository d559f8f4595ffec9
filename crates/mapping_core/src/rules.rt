//! The rules of `specs/Mapped`, one after another.
ghost use Rattle.std.specs.Prelude.{◌≡◌, ◌↔◌, false, find, Some, IsTrue, IfSome, IfNone};
ghost use Rattle.std.specs.List.{list_any};
ghost use Rattle.std.specs.Option.{option_copied};
ghost use Rattle.mapping_core.specs.Streams.{has_main, has_repairs, is_named};
ghost use Rattle.mapping_core.specs.Mapped.{is_new, mapped, mapping_rules, first_that_applies, known_rules, rid_in, names_rid, is_unexpected, refuses, is_packet, declared_in, for_standing, placed_packet, placed_repair, is_early_padding};
ghost use Rattle.mapping_core.specs.Maps.{IsUnknown, MapsAnew};

use crate::claim::{TypeClaim, claim_of};
use crate::mapping::{MainChange, Mapping, RepairsChange, Unmapped};
use crate::rids::Rids;
use crate::stream::{IncomingStream, is_ssrc};
use rtp_base::{Mid, Rid, Ssrc};
use rtp_wire::RtpHeader;

fn with_main(streams: &[IncomingStream], ssrc: Ssrc) -> Option<&IncomingStream>
    ensures { option_copied result ≡ find (has_main ssrc) streams.now }
{
    streams.iter().find(|stream| stream.ssrc == ssrc)
}

fn with_repairs(streams: &[IncomingStream], ssrc: Ssrc) -> Option<&IncomingStream>
    ensures { option_copied result ≡ find (has_repairs ssrc) streams.now }
{
    streams.iter().find(|stream| is_ssrc(stream.rtx, ssrc))
}

fn rid_in(header: &RtpHeader) -> Option<Rid>
    ensures { result ≡ rid_in header.now }
{
    header.ext_vals.rid.or(header.ext_vals.rid_repair)
}

/// The stream that a header names in a media section: the first one that is so named.
fn standing<'a>(
    streams: &'a [IncomingStream],
    mid: Mid,
    header: &RtpHeader,
) -> Option<&'a IncomingStream>
    ensures { option_copied result ≡ find (is_named mid (rid_in header.now)) streams.now }
{
    let rid = rid_in(header);
    streams.iter().find(|stream| stream.is_named(mid, rid))
}

/// A datagram under an SSRC that is known.
#[tactic(auto, using(crate::proofs::Finding::known_by_main, crate::proofs::Finding::known_by_repairs, crate::proofs::Finding::unknown_to_both))]
fn known(streams: &[IncomingStream], header: &RtpHeader) -> Option<Mapping>
    ensures rule { result ≡ first_that_applies (known_rules streams.now header.now) }
    ensures unknown { IfNone result (IsUnknown streams.now header.now.ssrc) }
    ensures known { IfSome result (λ m.
        (is_new m ≡ false) × (IsUnknown streams.now header.now.ssrc → ⊥)) }
{
    if header.ssrc.is_probe() {
        return Some(Mapping::Nowhere(Unmapped::Probe));
    }
    if let Some(stream) = with_main(streams, header.ssrc) {
        return Some(Mapping::Main(stream.ssrc));
    }
    match with_repairs(streams, header.ssrc) {
        Some(stream) => Some(Mapping::Repairs(stream.ssrc)),
        None => None,
    }
}

fn is_unexpected(rids: &Rids, rid: Option<Rid>) -> bool
    ensures { result ≡ is_unexpected rids.now rid }
{
    match rid {
        Some(rid) => !rids.contains(rid),
        None => false,
    }
}

/// Whether a header carries a rid or a repair rid that is not expected.
fn refuses(rids: &Rids, header: &RtpHeader) -> bool
    ensures { result ≡ refuses rids.now header.now }
{
    is_unexpected(rids, header.ext_vals.rid) || is_unexpected(rids, header.ext_vals.rid_repair)
}

fn names_rid(header: &RtpHeader) -> bool
    ensures { result ≡ names_rid header.now }
{
    header.ext_vals.rid.is_some() || header.ext_vals.rid_repair.is_some()
}

/// Whether a datagram of a type that a row knows is a packet, and no repair.
fn is_packet(claim: &TypeClaim, header: &RtpHeader) -> bool
    ensures { result ≡ is_packet claim.now header.now }
{
    header.ext_vals.rid.is_some()
        || (header.ext_vals.rid_repair.is_none() && claim.carries_media(header.payload_type))
}

fn declared_in(mid: Mid, rtx: Option<Ssrc>, claim: &TypeClaim, header: &RtpHeader) -> IncomingStream
    ensures { result ≡ declared_in mid rtx claim.now header.now }
{
    IncomingStream {
        ssrc: header.ssrc,
        rtx,
        mid,
        rid: header.ext_vals.rid,
        previous: None,
        suppress_nack: claim.rtx.is_none(),
    }
}

/// A packet under an unknown SSRC for a stream that stands.
fn for_standing(claim: &TypeClaim, header: &RtpHeader, stream: &IncomingStream) -> Mapping
    ensures { result ≡ for_standing claim.now header.now stream.now }
{
    if is_ssrc(stream.previous, header.ssrc) {
        let beside = declared_in(stream.mid, stream.rtx, claim, header);
        return Mapping::NewStream(beside);
    }
    Mapping::NewMain(MainChange {
        from: stream.ssrc,
        to: header.ssrc,
    })
}

fn placed_packet(
    streams: &[IncomingStream],
    mid: Mid,
    claim: &TypeClaim,
    header: &RtpHeader,
) -> Mapping
    ensures { result ≡ placed_packet streams.now mid claim.now header.now }
{
    match standing(streams, mid, header) {
        Some(stream) => for_standing(claim, header, stream),
        None => Mapping::NewStream(declared_in(mid, None, claim, header)),
    }
}

#[tactic(auto, using(crate::proofs::Finding::any_is_found))]
fn placed_repair(streams: &[IncomingStream], mid: Mid, header: &RtpHeader) -> Mapping
    ensures place { result ≡ placed_repair streams.now mid header.now }
    ensures stands { is_new result ≡ list_any (is_named mid (rid_in header.now)) streams.now }
{
    match standing(streams, mid, header) {
        Some(stream) => Mapping::NewRepairs(RepairsChange {
            main: stream.ssrc,
            rtx: header.ssrc,
        }),
        None => Mapping::Nowhere(Unmapped::NoMainStream),
    }
}

/// Of which stream a datagram with this header is: what the first rule answers that applies.
pub fn map(
    streams: &[IncomingStream],
    rids: Option<&Rids>,
    types: &[TypeClaim],
    header: &RtpHeader,
) -> Mapping
    ensures value { result ≡ mapped (option_copied rids.entry) types.now streams.now header.now }
    ensures applies { let rules = mapping_rules (option_copied rids.entry) types.now streams.now header.now
        in first_that_applies rules ≡ Some result }
    ensures exactly { IsTrue (is_new result)
        ↔ (MapsAnew (option_copied rids.entry) types.now streams.now header.now) }
{
    if let Some(mapping) = known(streams, header) {
        return mapping;
    }
    let Some(mid) = header.ext_vals.mid else {
        return Mapping::Nowhere(Unmapped::NoMid);
    };
    let Some(rids) = rids else {
        return Mapping::Nowhere(Unmapped::UnknownMid);
    };
    let Some(claim) = claim_of(types, header.payload_type) else {
        return Mapping::Nowhere(Unmapped::UnclaimedType);
    };
    if refuses(rids, header) {
        return Mapping::Nowhere(Unmapped::UnexpectedRid);
    }
    if !names_rid(header) && rids.is_specific() {
        return Mapping::Nowhere(Unmapped::RidMissing);
    }
    if is_packet(claim, header) {
        placed_packet(streams, mid, claim, header)
    } else {
        placed_repair(streams, mid, header)
    }
}

/// Whether a datagram whose SSRC stays unknown may open as padding of a stream that is not known
/// yet: it has padding, a repair rid that its media section expects, no rid, and a type that has a
/// type of repairs (RFC 4588 section 8.1, RFC 8852 section 3). The time grows with the number of
/// types and of rids.
pub fn is_early_padding(rids: Option<&Rids>, types: &[TypeClaim], header: &RtpHeader) -> bool
    ensures { result ≡ is_early_padding (option_copied rids.entry) types.now header.now }
{
    let (Some(rids), Some(repaired)) = (rids, header.ext_vals.rid_repair) else {
        return false;
    };
    let Some(claim) = claim_of(types, header.payload_type) else {
        return false;
    };
    header.has_padding
        && header.ext_vals.rid.is_none()
        && rids.contains(repaired)
        && claim.rtx.is_some()
}
