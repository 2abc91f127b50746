//! What the check of a trace answers.

/// Whether a history is legal.
#[derive(Clone, Copy, PartialEq, Eq, Debug)]
pub enum Verdict {
    /// It is, and it has so many entries.
    Legal(u64),
    /// The entry at this position, counted from 0, is the first with which it isn't.
    First(u64),
}

/// The text isn't a trace's. Its first bad line, counted from 1, or the last one plus one where more
/// had to follow.
#[derive(Clone, Copy, PartialEq, Eq, Debug)]
pub struct TraceFault {
    pub line: u32,
}
