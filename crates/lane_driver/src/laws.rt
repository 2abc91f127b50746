//! Laws of orders of turns. Each is a function without a body, whose contract is the law.
ghost use Rattle.lane_driver.specs.DriveLaws.{DriveLaw};

/// What every order of turns keeps, and that a lane which is alone comes to its end.
#[tactic(auto, using(crate::proofs::TurnLaws::drive_law))]
pub fn drive_law()
    ensures { DriveLaw }
{}
