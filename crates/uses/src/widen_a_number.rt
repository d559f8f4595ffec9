//! The number of a packet of which only 16 bits came.
ghost use Rattle.std.specs.Prelude.{◌≡◌, ℕ, List, Some, None, if◌then◌else◌};
ghost use Rattle.std.specs.declared.option.Option.{Option};
ghost use Rattle.rtp_base.specs.Widen.{widen16 as widened};
ghost use Rattle.rtp_base.specs.Window.{StandsFor, is_fresh_after, greatest_after, with_fresh};

use rtp_base::{SeqNo, SeqNoWindow, widen16};

/// The number with these low 16 bits, nearest to the greatest that was taken, if it was not taken
/// yet and is not too far below. It is taken then.
pub fn take_number(window: &mut SeqNoWindow, low: u16) -> Option<SeqNo>
    ensures number { (floor : Option ℕ) (l : List ℕ) → StandsFor window.old floor l
        → let n = widened (Some (greatest_after floor l)) low in
        result ≡ (if is_fresh_after floor l n then Some n else None) }
    ensures taken { (floor : Option ℕ) (l : List ℕ) → StandsFor window.old floor l
        → StandsFor window.new floor
        (with_fresh floor l (widened (Some (greatest_after floor l)) low)) }
{
    let greatest = u64::from(window.max_seq());
    let number = SeqNo::from(widen16(Some(greatest), low));
    if window.update(number) {
        Some(number)
    } else {
        None
    }
}
