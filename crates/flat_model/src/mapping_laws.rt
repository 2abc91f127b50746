//! The laws of protections, of tails and of what each history reaches. Each function does nothing: its contract is the law.
ghost use Rattle.flat_model.specs.ProtectLaws.{Protects};
ghost use Rattle.flat_model.specs.ReachedLaws.{StaysReached};
ghost use Rattle.flat_model.specs.TailLaws.{ClearedTails};

/// What a Protect changes, and when it is done.
#[tactic(auto, using(crate::proofs::Protections::protects_law))]
pub fn protects_law()
    ensures { Protects }
{}

/// Which tails become zeros.
#[tactic(auto, using(crate::proofs::ClearedTails::cleared_tails_law))]
pub fn cleared_tails_law()
    ensures { ClearedTails }
{}

/// Zero objects are there where they are named, and slots back what is reserved, over a whole history.
#[tactic(auto, using(crate::proofs::Reached::stays_reached_law))]
pub fn stays_reached_law()
    ensures { StaysReached }
{}
