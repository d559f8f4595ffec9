ghost use Rattle.resend_core.specs.EventLaws.{AddsOneEvent, StoresUnder, ChangesOneValue};

/// What holds of the events of each store: what one more changes, what is known of the value that
/// was stored last under a position, and what another value there changes.
#[inline(always)]
pub fn event_laws<T>()
    ensures added { AddsOneEvent T }
    ensures stored { StoresUnder T }
    ensures changed { ChangesOneValue T }
{}
