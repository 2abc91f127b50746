//! What must come first.
use page_store::{Hold, Plan};

/// What must come first: a call, or a fault, answers it in place of its result.
#[derive(Clone, Copy, PartialEq, Eq, Debug)]
pub enum Wants {
    /// This transfer is needed, and can begin.
    Transfer(Plan),
    /// It has to wait for this.
    Seat(Hold),
}
