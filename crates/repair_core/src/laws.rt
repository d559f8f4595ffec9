//! Laws of what is taken and asked for.
ghost use Rattle.repair_core.specs.Entries.{RoundsNameTheDue};
ghost use Rattle.repair_core.specs.Fresh.{TakenIsNotFresh, RememberedIsNotFresh};

/// The entries of a round name exactly the numbers that are due, modulo 2^16, in order (RFC 4585
/// section 6.2.1).
#[tactic(auto, using(crate::proofs::PackingLaws::due_names))]
pub fn rounds_name_the_due()
    ensures { RoundsNameTheDue }
{}

/// A number that was taken is not accepted again, whatever comes after it; nor is one that came too
/// late once.
#[tactic(auto, using(crate::proofs::FreshLaws::taken_is_not_fresh))]
pub fn taken_is_not_fresh()
    ensures { TakenIsNotFresh }
{}

/// A register that is started from a remembered greatest number accepts no number up to it,
/// whatever comes after.
#[tactic(auto, using(crate::proofs::FreshLaws::remembered_is_not_fresh))]
pub fn remembered_is_not_fresh()
    ensures { RememberedIsNotFresh }
{}
