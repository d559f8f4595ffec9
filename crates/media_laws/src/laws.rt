// What holds of every run.
ghost use Rattle.std.specs.Prelude.{◌≡◌, ◌∷◌, ◌++◌, List, [], None};
ghost use Rattle.media_model.specs.declared.setup.Setup.{Setup};
ghost use Rattle.media_model.specs.declared.step.Step.{Step};
ghost use Rattle.media_model.specs.declared.entry.Entry.{Entry};
ghost use Rattle.media_model.specs.declared.entry.Side.{Side};
ghost use Rattle.media_laws.specs.declared.counter.Counter.{Counter};
ghost use Rattle.media_laws.specs.Exhausting.{Exhausts};
ghost use Rattle.media_laws.specs.Headline.{HoldsOfRun, HoldsOfFront, HoldsToKey, PlaysSteps};
ghost use Rattle.media_laws.specs.Keys.{sealing_of};
ghost use Rattle.media_laws.specs.Play.{Played};
ghost use Rattle.media_laws.specs.RepairedRun.{setup};
ghost use Rattle.media_laws.specs.RepairedTranscript.{RepairsHappenIn};
ghost use Rattle.setup_rules.specs.SetupRules.{setup_fault};

use rtp_wire::{header_reads_own_bytes, headers_are_as_long};
use srtp_core::SrtpCipher;
use srtp_core::laws::{rtcp_states, rtp_seal_keeps_header, rtp_seals_apart};

/// All that holds of the entries of a run under a cipher, after any of its steps: whoever has a
/// `Run` cites it for what `Run::entries` gives. And what holds of each front of these entries, and
/// of them and what is told of a step that finds a key used up.
pub fn holds_of_run<C: SrtpCipher>()
    ensures whole { (setup : Setup) (steps : List Step) (entries : List Entry)
        → setup_fault setup ≡ None
        → Played (sealing_of C.meaning setup) setup steps entries
        → HoldsOfRun (sealing_of C.meaning setup) setup entries }
    ensures front { (setup : Setup) (steps : List Step) (front rest : List Entry)
        → setup_fault setup ≡ None
        → Played (sealing_of C.meaning setup) setup steps (front ++ rest)
        → HoldsOfFront (sealing_of C.meaning setup) setup front }
    ensures exhausted { (setup : Setup) (steps : List Step) (past : List Entry) (step : Step)
        (side : Side) (counter : Counter) (told : List Entry) → setup_fault setup ≡ None
        → Played (sealing_of C.meaning setup) setup steps past
        → Exhausts (sealing_of C.meaning setup) setup past step side counter told
        → HoldsToKey (sealing_of C.meaning setup) setup side counter (past ++ told) }
{
    header_reads_own_bytes();
    headers_are_as_long();
    rtp_seals_apart::<C>();
    rtp_seal_keeps_header::<C>();
}

/// A run plays each step of its script once, in order, up to the one that finds a key used up.
pub fn plays_steps<C: SrtpCipher>()
    ensures whole { (setup : Setup) (steps : List Step) (entries : List Entry)
        → Played (sealing_of C.meaning setup) setup steps entries → PlaysSteps steps entries }
    ensures exhausted { (setup : Setup) (steps : List Step) (past : List Entry) (step : Step)
        (side : Side) (counter : Counter) (told : List Entry)
        → Played (sealing_of C.meaning setup) setup steps past
        → Exhausts (sealing_of C.meaning setup) setup past step side counter told
        → PlaysSteps (steps ++ step ∷ []) (past ++ told) }
{}

/// Under any cipher there is a run in which a packet is lost, asked for, repaired and yielded, and
/// which meets the premises of the laws of runs.
pub fn repairs_happen_in_runs<C: SrtpCipher>()
    ensures { RepairsHappenIn (sealing_of C.meaning setup) }
{
    header_reads_own_bytes();
    headers_are_as_long();
    rtp_seals_apart::<C>();
    rtp_seal_keeps_header::<C>();
    rtcp_states::<C>();
}
