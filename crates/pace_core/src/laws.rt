//! Laws of what is let out.
ghost use Rattle.pace_core.specs.Answers.{AnswersAreWithin};
ghost use Rattle.pace_core.specs.Envelope.{Envelope};
ghost use Rattle.pace_core.specs.LeakyBurst.{IsLetOutByFive, IsRunOfFive};

/// From one packet to another, both included, a bucket lets out no more than the rate times the
/// time passed, and the burst, and the last packet, whatever was owed before.
#[tactic(auto, using(crate::proofs::EnvelopeLaws::envelope))]
pub fn envelope()
    ensures { Envelope }
{}

/// The same of a leaky bucket pacer, over all that it may be told, where no queue is unpaced and no
/// cluster runs: if each packet answers a poll since the last timeout, and if each packet is at
/// most 460 ms at its rate. The two are apart, since what drives a pacer can keep to the first, and
/// the second is one on the sizes of packets.
#[tactic(auto, using(crate::proofs::AnswerLaws::answers_are_within))]
pub fn answers_are_within()
    ensures { AnswersAreWithin }
{}

/// Ten packets of 1,000 bytes that wait at 1 Mbit/s, with a timeout, a poll and a packet repeated
/// at one moment: five are let out, and then none for 40 ms. It meets all that the bound asks for.
#[tactic(auto, using(crate::proofs::BurstLaws::burst_is_let_out))]
pub fn burst_is_let_out()
    ensures { IsLetOutByFive }
{}

/// The same as a run: it plays all calls, and its log meets all that the bound on runs asks for.
#[tactic(auto, using(crate::proofs::BurstLaws::burst_is_run))]
pub fn burst_is_run()
    ensures { IsRunOfFive }
{}
