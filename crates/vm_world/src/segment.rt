//! Segments.
use flat_model::{Kind, Object, Prot};

/// A mapping of pages.
#[derive(Clone, Copy, PartialEq, Eq, Debug)]
pub struct Segment {
    /// How many pages it has, at least 1.
    pub pages: u32,
    /// What may be done there.
    pub prot: Prot,
    /// What Protect may allow there.
    pub max: Prot,
    pub kind: Kind,
    /// The file or zero object that it shows, or new zero memory.
    pub object: Object,
    /// The page of the object that its first page shows.
    pub index: u32,
    /// The anon map of its private pages, where it is private.
    pub own: Option<u32>,
    /// The anon map of the zero object that it shows.
    pub shown: Option<u32>,
}
