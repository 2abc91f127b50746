//! The laws of histories. Each function does nothing: its contract is the law.
ghost use Rattle.flat_model.specs.CountLaws.{CountedHistories};
ghost use Rattle.flat_model.specs.OpenLaws.{OpenCalls};
ghost use Rattle.flat_model.specs.ReplayLaws.{JoinedHistories};
ghost use Rattle.flat_model.specs.SpellingLaws.{Spellings};
ghost use Rattle.flat_model.specs.SyncLaws.{SyncStarts};

/// What a history behind another one leaves, and that a front of a legal history is legal.
#[tactic(auto, using(crate::proofs::Replays::joined_histories_law))]
pub fn joined_histories_law()
    ensures { JoinedHistories }
{}

/// Between which positions a Sync may say that it began, entry by entry.
#[tactic(auto, using(crate::proofs::Starts::sync_starts_law))]
pub fn sync_starts_law()
    ensures { SyncStarts }
{}

/// When a counted history stays counted with an entry more.
#[tactic(auto, using(crate::proofs::Counts::counted_histories_law))]
pub fn counted_histories_law()
    ensures { CountedHistories }
{}

/// Entries spell lines in one way.
#[tactic(auto, using(crate::proofs::Spellings::spellings_law))]
pub fn spellings_law()
    ensures { Spellings }
{}

/// Whose call of a file is between two parts, by each process's last entry.
#[tactic(auto, using(crate::proofs::Opens::open_calls_law))]
pub fn open_calls_law()
    ensures { OpenCalls }
{}
