//! The laws of keys, and of what they have to do with the kernel's history. Each function does
//! nothing: its contract is the law.
ghost use Rattle.shm_model.specs.Keys.{KeyLaws};
ghost use Rattle.shm_model.specs.Lives.{SegmentLives};
ghost use Rattle.shm_model.specs.TiedLaws.{TiedLaws};

/// What one entry more leaves, and when it is answered as is due.
#[tactic(auto, using(crate::proofs::KeyLaws::keys_law))]
pub fn keys_law()
    ensures { KeyLaws }
{}

/// Where answers and history are tied, each key's segment lives, and an Attach always finds it.
#[tactic(auto, using(crate::proofs::Found::tied_law))]
pub fn tied_law()
    ensures { TiedLaws }
{}

/// A segment lives as long as somebody has it attached, a child has what its parent had, and it is
/// reserved once.
#[tactic(auto, using(crate::proofs::Lives::segment_lives))]
pub fn lives_law()
    ensures { SegmentLives }
{}
