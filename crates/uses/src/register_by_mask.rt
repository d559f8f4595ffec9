//! The register that is a mask.
ghost use Rattle.std.specs.Prelude.{◌≡◌, ◌<◌, false, IfOk};

use mask_register::MaskRegister;
use repair_core::{GapWindow, taken_is_not_fresh};
use rtp_base::{NUMBER_LIMIT, SeqNo};
use std::alloc::{AllocError, Global};

/// Whether a number that was taken is taken again, where another came between: it never is.
pub fn is_taken_twice(alloc: Global, number: SeqNo, other: SeqNo) -> Result<bool, AllocError>
    requires number { number < NUMBER_LIMIT }
    requires other { other < NUMBER_LIMIT }
    ensures { IfOk result (λ again. again ≡ false) }
{
    taken_is_not_fresh();
    let mut register = MaskRegister::new(alloc, None)?;
    register.update(number);
    register.update(other);
    Ok(register.update(number))
}
