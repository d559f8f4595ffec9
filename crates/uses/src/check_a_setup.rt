//! Whether two sessions can be made of a setup.
ghost use Rattle.std.specs.Prelude.{◌≡◌, is_none, IfOk};
ghost use Rattle.setup_rules.specs.SetupRules.{setup_fault};

use media_model::Setup;
use setup_rules::check_setup;
use std::alloc::{AllocError, Global};

/// Whether a setup breaks no rule.
pub fn may_be_played(alloc: Global, setup: &Setup) -> Result<bool, AllocError>
    ensures { IfOk result (λ may. may ≡ is_none (setup_fault setup.now)) }
{
    Ok(check_setup(alloc, setup)?.is_none())
}
