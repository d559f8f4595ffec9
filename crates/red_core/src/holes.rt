ghost use Rattle.std.specs.Prelude.{◌≡◌, ◌+◌, ◌-◌, ◌<◌, ◌≤◌, true, IfSome};
ghost use Rattle.repair_core.specs.Fresh.{is_fresh};
ghost use Rattle.repair_core.specs.Rounds.{Heard, taken};
ghost use Rattle.red_core.specs.Known.{Known};
ghost use Rattle.red_core.specs.Placing.{IsFirst, even_number, chosen, fresh_in};

use crate::known::KnownNumber;
use repair_core::GapWindow;
use rtp_base::{NUMBER_LIMIT, SeqNo};

// The first number from one on and before another that the window may still take.
#[tactic(auto, using(crate::proofs::HoleLaws::fresh_here, crate::proofs::HoleLaws::fresh_later, crate::proofs::HoleLaws::fresh_none))]
fn first_fresh<W: GapWindow>(window: &W, from: u64, end: u64) -> Option<u64>
    requires { end ≤ NUMBER_LIMIT }
    ensures first { (past : Heard) → W.remembers window.now past
        → IsFirst (taken past) from end result }
    ensures fresh { (past : Heard) → W.remembers window.now past
        → IfSome result (λ p. is_fresh (taken past) p ≡ true) }
    ensures begins { IfSome result (λ p. from ≤ p) }
    ensures range { IfSome result (λ p. p < end) }
{
    for number in from..end {
        if window.accepts(SeqNo::from(number)) {
            return Some(number);
        }
    }
    None
}

// The number at a time, where numbers and times rise evenly from one packet to the other.
fn even_number(low: KnownNumber, high: KnownNumber, time: u64) -> Option<u64>
    requires after { low.time < time }
    requires before { time < high.time }
    requires numbers { low.number < high.number }
    ensures value { result ≡ even_number low high time }
    ensures range { IfSome result (λ p. p < high.number) }
{
    let numbers = high.number() - low.number();
    let span = high.time() - low.time();
    if span % numbers != 0 {
        return None;
    }
    let step = span / numbers;
    let back = time - low.time();
    if back % step != 0 {
        return None;
    }
    Some(low.number() + back / step)
}

/// The place between two numbers of a block whose time is between theirs: the only number there
/// that the window may still take, or of several the even one, if it may. The cost grows with the
/// numbers between.
#[tactic(auto, using(crate::proofs::HoleLaws::chosen_none, crate::proofs::HoleLaws::chosen_one, crate::proofs::HoleLaws::chosen_several))]
pub fn place_between<W: GapWindow>(
    window: &W,
    low: KnownNumber,
    high: KnownNumber,
    time: u64,
) -> Option<u64>
    requires after { low.time < time }
    requires before { time < high.time }
    ensures fresh { (past : Heard) → W.remembers window.now past
        → IfSome result (λ p. is_fresh (taken past) p ≡ true) }
    ensures place { (past : Heard) → W.remembers window.now past
        → result ≡ chosen (taken past) low high time
        (fresh_in (taken past) (low.number + 1) high.number) }
{
    let end = high.number();
    let first = first_fresh(window, low.number() + 1, end)?;
    if first_fresh(window, first + 1, end).is_none() {
        return Some(first);
    }
    let place = even_number(low, high, time)?;
    if window.accepts(SeqNo::from(place)) {
        Some(place)
    } else {
        None
    }
}
