ghost use Rattle.std.specs.Prelude.{◌≡◌, ◌≢◌, ◌≤◌, ◌<◌, ◌↔◌, [], false, length, take, IsTrue, IfOk, IfErr, IfSome, IsErrOf, OnOk, OnErr};
ghost use Rattle.std.specs.List.{AllByRecursion};
ghost use Rattle.std.specs.Option.{option_map};
ghost use Rattle.srtp_core.specs.RtcpSeals.{sender_of};
ghost use Rattle.session_core.specs.declared.error.RtcError.TheVariants.{Memory, KeyExhausted};
ghost use Rattle.session_core.specs.Feedback.{FitsAlone, AreLeft, room_of, compound_of, items_after, sealed_compound, counted, is_used_up, CompoundsKeepToTarget};

use crate::config::LEAST_TARGET;
use crate::datagram::Datagram;
use crate::error::RtcError;
use media_base::Bytes;
use rtcp_wire::Rtcp;
use rtp_base::wire::word;
use rtp_base::{Kind, SeqNo, Ssrc};
use srtp_core::laws::rtcp_seal_keeps_header;
use srtp_core::{
    Counter, HEADER_LEN, SRTCP_INDEX_LIMIT, SRTCP_OVERHEAD, SrtpCipher, SrtpContext, SrtpError,
};
use std::alloc::{AllocError, Global};
use std::collections::VecDeque;

/// The most bytes of an item of feedback: under each target it fits a compound of its own.
pub const MAX_ITEM_LEN: usize = LEAST_TARGET - SRTCP_OVERHEAD;

/// The most bytes of a compound under a target for the length of datagrams.
fn room(target: usize) -> usize
    requires { SRTCP_OVERHEAD ≤ target }
    ensures { result ≡ room_of target }
{
    (target - SRTCP_OVERHEAD) / 4 * 4
}

/// Takes the compound of the first items that fit off the list. Without memory nothing changes.
fn take_compound(
    alloc: Global,
    target: usize,
    items: &mut VecDeque<Rtcp>,
) -> Result<Vec<u8>, AllocError>
    requires target { LEAST_TARGET ≤ target }
    requires some { items.old.items ≢ [] }
    requires fit { AllByRecursion FitsAlone items.old.items }
    ensures compound { IfOk result (λ v. v.items ≡ compound_of target items.old.items) }
    ensures left { OnOk result (items.new.items ≡ items_after target items.old.items) }
    ensures fewer { OnOk result (length items.new.items < length items.old.items) }
    ensures fit { AllByRecursion FitsAlone items.new.items }
    ensures err { OnErr result (items.new ≡ items.old) }
{
    let mut bytes = vec![in alloc; 0; room(target)]?;
    let len = Rtcp::write_packet(items, bytes.as_mut_slice());
    bytes.truncate(len);
    Ok(bytes)
}

/// The SSRC of the sender of a compound's first item.
pub fn sender(plain: &[u8]) -> Ssrc
    requires { HEADER_LEN ≤ length plain.now }
    ensures { result ≡ sender_of (take HEADER_LEN plain.now) }
{
    Ssrc::from(word(&plain[..HEADER_LEN], 4))
}

/// Seals a compound under the index of the next SRTCP datagram.
fn seal_compound<C: SrtpCipher>(
    context: &mut SrtpContext<C>,
    plain: Vec<u8>,
) -> Result<Datagram, SrtpError>
    requires long { HEADER_LEN ≤ length plain.items }
    ensures sealed { IfOk result (λ d. d ≡ sealed_compound C.meaning plain.items context.old) }
    ensures next { OnOk result (context.new ≡ counted context.old) }
    ensures err { OnErr result (context.new ≡ context.old) }
    ensures memory { context.old.srtcp_index ≢ SRTCP_INDEX_LIMIT → IfErr result (λ e. e ≡ SrtpError.Memory) }
{
    let index = context.srtcp_index();
    let bytes = context.protect_rtcp(plain.as_slice())?;
    Ok(Datagram {
        kind: Kind::Rtcp,
        ssrc: sender(plain.as_slice()),
        index: SeqNo::from(index),
        plain: Bytes::from_vec(plain),
        bytes: Bytes::from_vec(bytes),
    })
}

/// A datagram of feedback has at most as many bytes as the target, once it is sealed: the compound
/// that leaves next, of items each of which fits one of its own.
pub fn compounds_keep_to_target<C: SrtpCipher>()
    ensures { CompoundsKeepToTarget C.meaning }
{
    rtcp_seal_keeps_header::<C>();
}

/// Whether no further SRTCP datagram can be sealed under the keys.
pub fn is_used_up<C: SrtpCipher>(sealing: &Option<SrtpContext<C>>) -> bool
    ensures { result ≡ is_used_up sealing.now }
{
    match sealing {
        Some(context) => context.srtcp_index() == SRTCP_INDEX_LIMIT,
        None => false,
    }
}

/// Takes the compound of the first items that fit off the list, and seals it where there are keys.
///
/// # Errors
/// `KeyExhausted` where no further SRTCP datagram can be sealed under the keys, and then nothing
/// changes; `Memory`.
pub fn poll_compound<C: SrtpCipher>(
    alloc: Global,
    target: usize,
    items: &mut VecDeque<Rtcp>,
    sealing: &mut Option<SrtpContext<C>>,
) -> Result<Option<Datagram>, RtcError>
    requires target { LEAST_TARGET ≤ target }
    requires some { items.old.items ≢ [] }
    requires fit { AllByRecursion FitsAlone items.old.items }
    ensures exhausted { IsErrOf result (KeyExhausted Counter.Rtcp) ↔ IsTrue (is_used_up sealing.old) }
    ensures memory { is_used_up sealing.old ≡ false → IfErr result (λ e. e ≡ Memory) }
    ensures sealed { IfOk result (λ d. d ≡ option_map (sealed_compound C.meaning (compound_of target items.old.items)) sealing.old) }
    ensures within { IfOk result (λ d. IfSome d (λ s. length s.bytes ≤ target)) }
    ensures left { OnOk result (items.new.items ≡ items_after target items.old.items) }
    ensures next { OnOk result (sealing.new ≡ option_map counted sealing.old) }
    ensures fewer { OnOk result (length items.new.items < length items.old.items) }
    ensures fit { AllByRecursion FitsAlone items.new.items }
    ensures unsealed { OnErr result (sealing.new ≡ sealing.old) }
    ensures kept { IsTrue (is_used_up sealing.old) → items.new ≡ items.old }
    ensures lost { OnErr result (AreLeft target items.old.items items.new.items) }
{
    compounds_keep_to_target::<C>();
    if is_used_up(sealing) {
        return Err(RtcError::KeyExhausted(Counter::Rtcp));
    }
    let plain = take_compound(alloc, target, items)?;
    match sealing {
        Some(context) => match seal_compound(context, plain) {
            Ok(datagram) => Ok(Some(datagram)),
            Err(_) => Err(RtcError::Memory),
        },
        None => Ok(None),
    }
}
