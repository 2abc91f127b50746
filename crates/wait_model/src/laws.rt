//! The laws. Each function does nothing: its contract is the law.
ghost use Rattle.wait_model.specs.WaitLaws.{NobodySleepsForGood, SomebodySlept};

/// Wherever the steps of the protocol lead, some seat is awake or has a transfer out, where not all have ended.
#[tactic(auto, using(crate::proofs::Awake::nobody_sleeps_for_good))]
pub fn nobody_sleeps_for_good_law()
    ensures { NobodySleepsForGood }
{}

/// With two bells, where whoever meets another seat's call of a file rests on `changes`, they may lead to where nobody is.
#[tactic(auto, using(crate::proofs::Worked::somebody_slept))]
pub fn somebody_slept_law()
    ensures { SomebodySlept }
{}
