//! What an event answers to a call.
use seg_ops::{Hold, Plan, Reply};

/// What an event answers to a call.
#[derive(Clone, Copy, PartialEq, Eq, Debug)]
pub enum Attempt {
    /// The call is done, with this reply.
    Done(Reply),
    /// This transfer is needed first, and can begin.
    Need(Plan),
    /// It has to wait for this.
    Busy(Hold),
}
