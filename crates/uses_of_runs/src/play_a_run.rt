//! A run of two sessions, to its last step or to one that is not played.
ghost use Rattle.media_laws.specs.Headline.{NoNonceTwice, NoPacketTwice, SendsWrites, YieldsWrites};

use media_model::{Setup, Step, Transcript};
use media_play::media_run;
use srtp_core::ToyCipher;
use std::alloc::Global;

/// What happens where the sessions of a setup play these steps under the toy cipher, up to a step
/// that is not played.
pub fn played(alloc: Global, setup: &Setup, steps: &[Step]) -> Transcript
    ensures nonces { NoNonceTwice result }
    ensures once { NoPacketTwice result }
    ensures sendings { SendsWrites setup.now result }
    ensures yields { YieldsWrites setup.now result }
{
    let mut given = steps.iter();
    match media_run(alloc, setup, &ToyCipher, &mut given) {
        Ok(transcript) => transcript,
        Err(fault) => fault.sofar,
    }
}
