//! What is answered to a load or a store.
ghost use Rattle.std.specs.Prelude.{◌≡◌};
ghost use Rattle.fault_entry.specs.Answers.{attempt_of};

use seg_vn::{Attempt, Hold, Plan, Reply, Signal};

/// What is answered to a load or a store, in few bytes: an `Attempt` has room for a part of a read, which would be moved at each
/// hit. It is flat, since a `Wants` or a `Result` in it would be moved at each hit too.
#[derive(Clone, Copy, PartialEq, Eq, Debug)]
pub enum Answer {
    /// The word that was loaded.
    Word(u32),
    /// The word was stored.
    Stored,
    /// This signal is due.
    Signal(Signal),
    /// This transfer is needed first, and can begin.
    Need(Plan),
    /// It has to wait for this.
    Busy(Hold),
}

impl Answer {
    /// The same as an answer to any call.
    pub fn into_attempt(self) -> Attempt
        ensures { result ≡ attempt_of self }
    {
        match self {
            Answer::Word(word) => Attempt::Done(Reply::Word(word)),
            Answer::Stored => Attempt::Done(Reply::Done),
            Answer::Signal(signal) => Attempt::Done(Reply::Signal(signal)),
            Answer::Need(plan) => Attempt::Need(plan),
            Answer::Busy(hold) => Attempt::Busy(hold),
        }
    }
}
