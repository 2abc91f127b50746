//! Where pages live on the disks.
ghost use Rattle.page_store.specs.Layout.{LayoutLaw};

/// The object of the swap slots; those below are files.
pub const SWAP_OBJECT: u32 = 64;

/// The number of the swap disk; those below are the files' disks.
pub const SWAP_DISK: u32 = 8;

/// The bytes of a page.
pub const PAGE_BYTES: u32 = 4096;

/// Where a page lives: its disk and its block there, how many of the block's bytes are the page's own, from the first
/// on, and whether the page is blank, that is, zeros whatever the block holds.
#[derive(Clone, Copy, PartialEq, Eq, Debug)]
pub struct Place {
    pub disk: u32,
    pub block: u32,
    pub valid: u32,
    pub blank: bool,
}

/// The table of a machine whose files keep blocks of the disks: a page of a file is in its block, with the bytes up to the
/// file's length, a slot in the swap disk's block of its number; and where no block is that of two pages of files, no two
/// names share a block.
#[tactic(auto, using(crate::proofs::LayoutLemmas::layout_law))]
pub fn layout_law()
    ensures { LayoutLaw }
{}
