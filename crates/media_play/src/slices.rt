// Runs whose steps are those of a slice.
ghost use Rattle.std.specs.Prelude.{List};
ghost use Rattle.std.specs.Slice.Iter.{iter_rest, iter_steps};
ghost use Rattle.std.specs.declared.slice.Iter.{Iter};
ghost use Rattle.media_model.specs.declared.entry.Entry.{Entry};
ghost use Rattle.media_model.specs.declared.setup.Setup.{Setup};
ghost use Rattle.media_model.specs.declared.step.Step.{Step};
ghost use Rattle.media_laws.specs.Keys.{sealing_of};
ghost use Rattle.media_laws.specs.Play.{Played};
ghost use Rattle.media_play.specs.declared.fault.RunError.{RunError};
ghost use Rattle.media_play.specs.Running.{EndsAmong, HasCause, PlaysGiven};

use srtp_core::SrtpCipher;

/// What `media_run` says of the steps of a slice, which its iterator gives: all of them were
/// played, or those before the one that ended the run. The call computes nothing.
pub fn runs_of_slices<C: SrtpCipher>()
    ensures played { (setup : Setup) (old new : Iter Step) (entries : List Entry)
        → PlaysGiven (sealing_of C.meaning setup) setup iter_steps old new entries
        → Played (sealing_of C.meaning setup) setup (iter_rest old) entries }
    ensures cause { (setup : Setup) (old new : Iter Step) (entries : List Entry) (cause : RunError)
        → EndsAmong C.meaning setup iter_steps old new entries cause
        → HasCause C.meaning setup (iter_rest old) entries cause }
{}
