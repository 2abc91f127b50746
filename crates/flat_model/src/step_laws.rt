//! The laws of a step. Each function does nothing: its contract is the law.
ghost use Rattle.flat_model.specs.Births.{Births};
ghost use Rattle.flat_model.specs.FrameLaws.{StepsKeep};
ghost use Rattle.flat_model.specs.Shapes.{KeepsShape};

/// What a step leaves as it was.
#[tactic(auto, using(crate::proofs::Frames::steps_keep_law))]
pub fn steps_keep_law()
    ensures { StepsKeep }
{}

/// Who was ever alive after a history, and that who has exited does nothing any more.
#[tactic(auto, using(crate::proofs::Lives::births_law))]
pub fn births_law()
    ensures { Births }
{}

/// Where two flat memories differ in the bytes of pages alone, the same signal or errno is due in both, and they differ so after an entry.
#[tactic(auto, using(crate::proofs::ShapeSteps::keeps_shape_law))]
pub fn keeps_shape_law()
    ensures { KeepsShape }
{}
