//! One translation.

/// A page of a space and the frame that it leads to.
#[derive(Clone, Copy, Debug, Drop, PartialEq, Eq)]
pub struct Translation {
    pub space: u32,
    pub page: u32,
    pub frame: u32,
    pub writable: bool,
    pub referenced: bool,
    pub modified: bool,
}

/// What is told of a translation that was dropped.
#[derive(Clone, Copy, Debug, Drop, PartialEq, Eq)]
pub struct Dropped {
    pub space: u32,
    pub page: u32,
    pub frame: u32,
    pub referenced: bool,
    pub modified: bool,
}
