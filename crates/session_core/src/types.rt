//! The rows of payload types that streams use, made of the codecs.
ghost use Rattle.std.specs.Prelude.{◌≡◌, IfOk, OnOk};
ghost use Rattle.session_core.specs.Types.{with_params, types_of};

use payload_core::{CodecConfig, PayloadParams};
use std::alloc::{AllocError, Global};
use stream_core::{PayloadTypes, TypeRow};

/// Adds the row of a payload type, and that of its redundant data (RED, RFC 2198) where that has
/// none: of the same clock, and without repairs.
fn add_params(types: &mut PayloadTypes, params: &PayloadParams) -> Result<(), AllocError>
    ensures { OnOk result (types.new ≡ with_params params.now types.old) }
{
    let clock = params.spec.rtp_clock_rate();
    types.add(TypeRow {
        pt: params.pt,
        clock,
        rtx: params.resend,
        red: params.red,
    })?;
    let Some(pt) = params.red else {
        return Ok(());
    };
    if types.has(pt) {
        return Ok(());
    }
    types.add(TypeRow {
        pt,
        clock,
        rtx: None,
        red: None,
    })
}

/// The rows of codecs, in their order.
pub fn payload_types(alloc: Global, codecs: &CodecConfig) -> Result<PayloadTypes, AllocError>
    ensures { IfOk result (λ types. types ≡ types_of codecs.now.params) }
{
    let mut types = PayloadTypes::new(alloc);
    for codec in codecs.params() {
        add_params(&mut types, codec)?;
    }
    Ok(types)
}
