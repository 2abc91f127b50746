//! What is known of one block, and of one push.

/// What is known of a block that has a page of a file. Each mark names a number of entries of the history.
#[derive(Clone, Copy, PartialEq, Eq, Debug)]
pub enum Mark {
    /// The block has the page as it was after so many entries, up to the file's end as it was then.
    Held(u64),
    /// The page was zeros then, or past the file's end. The block may have anything.
    Blank(u64),
    /// A write of the block failed when there were so many entries, with the disk's counts of faults before and after.
    Unsure {
        entries: u64,
        before: u64,
        after: u64,
    },
}

/// A block's mark, and whether its last push went well, so that zeros stand past the file's end.
#[derive(Clone, Copy, PartialEq, Eq, Debug)]
pub struct MarkRow {
    pub mark: Mark,
    pub pushed: bool,
}

impl MarkRow {
    /// Nothing is known of the block but that no page was there.
    pub const UNUSED: MarkRow = MarkRow {
        mark: Mark::Blank(0),
        pushed: false,
    };
}

/// A push of a file's page that is out.
#[derive(Clone, Copy, PartialEq, Eq, Debug)]
pub struct Pushing {
    pub file: u32,
    pub page: u32,
    /// How many entries there were as it began.
    pub from: u32,
    /// Whether the file wasn't made shorter since.
    pub whole: bool,
}
