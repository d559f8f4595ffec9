//! A datagram that is sealed and opened again.
ghost use Rattle.std.specs.Prelude.{◌≡◌, ◌+◌, ◌≤◌, ◌<◌, ◌%◌, ◌≢◌, length, drop, IfOk, IsSomeAnd, IsErrOf};
ghost use Rattle.srtp_core.specs.Keys.{material_len};
ghost use Rattle.srtp_core.specs.declared.error.SrtpError.TheVariants.{KeyLength};

use rtp_wire::RtpHeader;
use srtp_core::laws::{rtp_opens_once, rtp_opens_sealed, rtp_seal_keeps_header};
use srtp_core::{
    KeyingMaterial, MAX_DATAGRAM_LEN, SRTP_OVERHEAD, SrtpCipher, SrtpContext, SrtpError,
    SrtpProfile,
};
use std::alloc::Global;

/// Seals a datagram as the left side of the material and opens it as the right one: to its payload.
pub fn seal_and_open<C: SrtpCipher>(
    alloc: Global,
    cipher: C,
    profile: SrtpProfile,
    material: &KeyingMaterial,
    header: &RtpHeader,
    datagram: &[u8],
) -> Result<Option<Vec<u8>>, SrtpError>
    requires header { header.now.header_len ≤ length datagram.now }
    requires short { length datagram.now + SRTP_OVERHEAD ≤ MAX_DATAGRAM_LEN }
    ensures again { IfOk result (λ opened. IsSomeAnd opened (λ v.
        v.items ≡ drop header.now.header_len datagram.now)) }
    ensures length { length material.now ≢ material_len profile → IsErrOf result KeyLength }
{
    rtp_opens_sealed::<C>();
    rtp_opens_once::<C>();
    rtp_seal_keeps_header::<C>();
    let mut left = SrtpContext::new(alloc, cipher, profile, material, true)?;
    let mut right = SrtpContext::new(alloc, cipher, profile, material, true)?;
    let index = u64::from(header.sequence_number);
    let sealed = left.protect_rtp(datagram, header, index)?;
    match right.unprotect_rtp(sealed.as_slice(), header, index) {
        Some(payload) => Ok(Some(payload.to_vec(alloc)?)),
        None => Ok(None),
    }
}
