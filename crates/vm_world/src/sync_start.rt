//! Where Syncs began.

/// Where the Sync of a seat began, and of which range it is.
#[derive(Clone, Copy, PartialEq, Eq, Debug)]
pub struct SyncStart {
    /// How many entries the history had at its first event.
    pub from: u64,
    /// The first byte of the range, and how many bytes it has.
    pub addr: u32,
    pub length: u32,
}
