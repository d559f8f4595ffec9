// The rules of a setup.
ghost use Rattle.std.specs.Prelude.{◌≡◌, ◌||◌, ◌++◌, ◌==◌, bytes_eq, nat_lt, length, IfOk, OnOk};
ghost use Rattle.std.specs.List.{list_any, flat_map};
ghost use Rattle.srtp_core.specs.Keys.{material_len};
ghost use Rattle.media_model.specs.Setup.{material_of, claimed_of};
ghost use Rattle.setup_rules.specs.SetupRules.{has};
ghost use Rattle.setup_rules.specs.SetupRules.{repeats, clash, any_ext_wrong, both_of, all_ssrcs, is_mtu, are_long, is_beyond, any_mid_again, rids_meet, meets, any_rid_again, is_old, any_size_wrong, media_fault, setup_fault};

use crate::fault::SetupFault;
use media_model::{LAST_TIME, Media, Mtu, NamedCache, NamedExtension, ReportTimes, Setup, Stream};
use rtp_wire::{MAX_ID_ONE_BYTE_FORM, Mid, Pt, Rid};
use std::alloc::{AllocError, Global};

/// The greatest payload type, of 7 bits (RFC 3550 section 5.1).
pub const MAX_PT: u8 = 127;

/// The least target for the length of a datagram, in bytes: a choice.
pub const LEAST_TARGET: u64 = 900;

/// The greatest length of a datagram to warn of, in bytes: a choice.
pub const GREATEST_WARN: u64 = 1_500;

/// The greatest Unix time of the moment 0, in seconds: a choice, with which the NTP seconds of
/// every step fit 32 bits.
pub const MAX_UNIX_SECS: u64 = 2_075_000_000;

/// The most packets of a cache: a choice.
pub const MOST_PACKETS: u64 = 32_000;

fn has_number(numbers: &[u32], number: u32) -> bool
    ensures { result ≡ has numbers.now number }
{
    numbers.iter().any(|n| *n == number)
}

fn any_number_again(numbers: &[u32]) -> bool
    ensures { result ≡ repeats numbers.now }
{
    for (i, number) in numbers.iter().enumerate() {
        if has_number(&numbers[i + 1..], *number) {
            return true;
        }
    }
    false
}

fn has_type(types: &[Pt], pt: Pt) -> bool
    ensures { result ≡ has types.now pt }
{
    types.iter().any(|t| *t == pt)
}

fn any_type_again(types: &[Pt]) -> bool
    ensures { result ≡ repeats types.now }
{
    for (i, pt) in types.iter().enumerate() {
        if has_type(&types[i + 1..], *pt) {
            return true;
        }
    }
    false
}

fn any_type_above(types: &[Pt]) -> bool
    ensures { result ≡ list_any (nat_lt MAX_PT) types.now }
{
    types.iter().any(|pt| u8::from(*pt) > MAX_PT)
}

fn clashes(exts: &[NamedExtension], named: &NamedExtension) -> bool
    ensures { result ≡ list_any (clash named.now) exts.now }
{
    exts.iter().any(|n| named.id == n.id || named.extension as u8 == n.extension as u8)
}

fn any_ext_wrong(exts: &[NamedExtension]) -> bool
    ensures { result ≡ any_ext_wrong exts.now }
{
    for (i, named) in exts.iter().enumerate() {
        let has_id = named.id >= 1 && named.id <= MAX_ID_ONE_BYTE_FORM;
        if !has_id || clashes(&exts[i + 1..], named) {
            return true;
        }
    }
    false
}

fn add_ssrcs(ssrcs: &mut Vec<u32>, streams: &[Stream]) -> Result<(), AllocError>
    ensures { OnOk result (ssrcs.new.items ≡ ssrcs.old.items ++ flat_map both_of streams.now) }
{
    for stream in streams {
        ssrcs.push(u32::from(stream.ssrc))?;
        if let Some(rtx) = stream.rtx {
            ssrcs.push(u32::from(rtx))?;
        }
    }
    Ok(())
}

/// The SSRCs of the sides themselves, and then those of all streams.
fn all_ssrcs(alloc: Global, setup: &Setup) -> Result<Vec<u32>, AllocError>
    ensures { IfOk result (λ v. v.items ≡ all_ssrcs setup.now) }
{
    let mut ssrcs = vec![in alloc; u32::from(setup.a.ssrc), u32::from(setup.b.ssrc)]?;
    for media in setup.media.as_slice() {
        add_ssrcs(&mut ssrcs, media.streams.as_slice())?;
    }
    Ok(ssrcs)
}

fn is_mtu(mtu: &Mtu) -> bool
    ensures { result ≡ is_mtu mtu.now }
{
    LEAST_TARGET <= mtu.target && mtu.target <= mtu.warn && mtu.warn <= GREATEST_WARN
}

fn are_long(intervals: &ReportTimes) -> bool
    ensures { result ≡ are_long intervals.now }
{
    intervals.audio.as_nanos() > LAST_TIME || intervals.video.as_nanos() > LAST_TIME
}

fn any_cache_old(caches: &[NamedCache]) -> bool
    ensures { result ≡ list_any is_old caches.now }
{
    caches
        .iter()
        .any(|named| named.cache.age.as_nanos() > LAST_TIME)
}

/// Whether a time of the setup is too great.
fn is_beyond(setup: &Setup) -> bool
    ensures { result ≡ is_beyond setup.now }
{
    setup.beginning.unix_secs > MAX_UNIX_SECS
        || are_long(&setup.intervals)
        || setup.pause_threshold.as_nanos() > LAST_TIME
        || any_cache_old(setup.caches.as_slice())
}

fn has_mid(media: &[Media], mid: &Mid) -> bool
    ensures { result ≡ list_any (λ m. bytes_eq m.mid mid.now) media.now }
{
    media.iter().any(|m| m.mid == *mid)
}

fn any_mid_again(media: &[Media]) -> bool
    ensures { result ≡ any_mid_again media.now }
{
    for (i, m) in media.iter().enumerate() {
        if has_mid(&media[i + 1..], &m.mid) {
            return true;
        }
    }
    false
}

fn rids_meet(a: &Option<Rid>, b: &Option<Rid>) -> bool
    ensures { result ≡ rids_meet a.now b.now }
{
    match (a, b) {
        (Some(a), Some(b)) => a == b,
        _ => true,
    }
}

fn any_meets(streams: &[Stream], stream: &Stream) -> bool
    ensures { result ≡ list_any (meets stream.now) streams.now }
{
    streams.iter().any(|s| stream.side == s.side && rids_meet(&stream.rid, &s.rid))
}

fn any_rid_again(streams: &[Stream]) -> bool
    ensures { result ≡ any_rid_again streams.now }
{
    for (i, stream) in streams.iter().enumerate() {
        if any_meets(&streams[i + 1..], stream) {
            return true;
        }
    }
    false
}

fn any_media_rid_again(media: &[Media]) -> bool
    ensures { result ≡ list_any (λ m. any_rid_again m.streams) media.now }
{
    media.iter().any(|m| any_rid_again(m.streams.as_slice()))
}

fn any_size_wrong(caches: &[NamedCache]) -> bool
    ensures { result ≡ any_size_wrong caches.now }
{
    caches.iter().any(|named| named.cache.packets < 1 || named.cache.packets > MOST_PACKETS)
}

/// The first rule of media, their streams and caches that a setup breaks.
fn check_media(setup: &Setup) -> Option<SetupFault>
    ensures { result ≡ media_fault setup.now }
{
    let media = setup.media.as_slice();
    if any_mid_again(media) || any_media_rid_again(media) {
        return Some(SetupFault::RidTwice);
    }
    if any_size_wrong(setup.caches.as_slice()) {
        return Some(SetupFault::CacheSize);
    }
    None
}

/// The first rule that a setup breaks.
pub fn check_setup(alloc: Global, setup: &Setup) -> Result<Option<SetupFault>, AllocError>
    ensures { IfOk result (λ fault. fault ≡ setup_fault setup.now) }
{
    let material = setup.material(alloc)?;
    let types = setup.claimed_types(alloc)?;
    let ssrcs = all_ssrcs(alloc, setup)?;
    if material.len() != setup.profile.keying_material_len() {
        return Ok(Some(SetupFault::KeyLength));
    }
    if !is_mtu(&setup.mtu) {
        return Ok(Some(SetupFault::Mtu));
    }
    if is_beyond(setup) {
        return Ok(Some(SetupFault::Times));
    }
    if any_ext_wrong(setup.exts.as_slice()) {
        return Ok(Some(SetupFault::ExtId));
    }
    if any_type_above(&types) || any_type_again(&types) {
        return Ok(Some(SetupFault::TypeTwice));
    }
    if has_number(&ssrcs, 0) {
        return Ok(Some(SetupFault::SsrcZero));
    }
    if any_number_again(&ssrcs) {
        return Ok(Some(SetupFault::SsrcTwice));
    }
    Ok(check_media(setup))
}
