//! What a call has to wait for.
use page_hash::PageName;

/// A transfer that is needed first: a page that is to be read in, or a page that is to be pushed to its disk.
#[derive(Clone, Copy, PartialEq, Eq, Debug)]
pub enum Plan {
    Read(PageName),
    Push(PageName),
}

/// What another seat has: a page's lock, a disk, or a file's call under way.
#[derive(Clone, Copy, PartialEq, Eq, Debug)]
pub enum Hold {
    Page(u32),
    Disk(u32),
    File(u32),
}
