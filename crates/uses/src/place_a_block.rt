//! Where a redundant block belongs, which the window then takes.
ghost use Rattle.std.specs.Prelude.{◌≡◌, ℕ, List, ◌<◌, true, None, IfSome, IfNone, OnSome};
ghost use Rattle.repair_core.specs.Fresh.{is_fresh};
ghost use Rattle.repair_core.specs.Rounds.{Heard, came, taken};
ghost use Rattle.red_core.specs.Known.{with_known};
ghost use Rattle.red_core.specs.Placing.{place_of};

use red_core::RedMemory;
use repair_core::GapWindow;
use rtp_base::{NUMBER_LIMIT, SeqNo};

/// The number of a redundant block of this time that came in a datagram. The window takes it, so
/// that it is neither asked for nor taken again, and no other block of that time has a place then.
/// None where the block has no place; nothing changes then.
pub fn recover_block<W: GapWindow>(
    memory: &mut RedMemory,
    window: &mut W,
    datagram: SeqNo,
    time: u64,
) -> Option<SeqNo>
    requires { datagram < NUMBER_LIMIT }
    ensures place { (past : Heard) → W.remembers window.old past
        → result ≡ place_of memory.old (taken past) datagram time }
    ensures taken { (past : Heard) → W.remembers window.old past
        → IfSome result (λ n. (is_fresh (taken past) n ≡ true)
        × W.remembers window.new (came past n)) }
    ensures known { IfSome result (λ n.
        memory.new ≡ with_known memory.old (record { number = n; time = time })) }
    ensures once { OnSome result ((others : List ℕ) (later : ℕ)
        → place_of memory.new others later time ≡ None) }
    ensures nothing { IfNone result ((memory.new ≡ memory.old) × (window.new ≡ window.old)) }
{
    let place = memory.place(window, datagram, time)?;
    memory.recovered(window, place, time);
    Some(place)
}
