//! What the laws of runs say of one that was played to its end.
ghost use Rattle.std.specs.Prelude.{IfSome};
ghost use Rattle.media_laws.specs.Headline.{HoldsOfRun, PlaysSteps};
ghost use Rattle.media_laws.specs.Keys.{sealing_of};

use media_laws::laws::{holds_of_run, plays_steps};
use media_model::{Setup, Step, Transcript};
use media_play::{media_run, runs_of_slices};
use srtp_core::SrtpCipher;
use std::alloc::Global;

/// What happens where the sessions of a setup play these steps under any cipher, if all of them are
/// played: all that the headline says holds of it, and it has each step once, in order.
pub fn played_to_the_end<C: SrtpCipher>(
    alloc: Global,
    setup: &Setup,
    cipher: &C,
    steps: &[Step],
) -> Option<Transcript>
    ensures holds { IfSome result (HoldsOfRun (sealing_of C.meaning setup.now) setup.now) }
    ensures steps { IfSome result (PlaysSteps steps.now) }
{
    holds_of_run::<C>();
    plays_steps::<C>();
    runs_of_slices::<C>();
    let mut given = steps.iter();
    match media_run(alloc, setup, cipher, &mut given) {
        Ok(transcript) => Some(transcript),
        Err(_) => None,
    }
}
