//! The laws of layouts and of growth. Each function does nothing: its contract is the law.
ghost use Rattle.vnode_files.specs.Layout.{FileLayoutLaw, GrowthLaw};

/// Where no files meet, no block of a disk is that of two pages; where they lie on their disks, no page's block is
/// outside its disk or block 0.
#[tactic(auto, using(crate::proofs::LayoutLaws::file_layout_law))]
pub fn file_layout_law()
    ensures { FileLayoutLaw }
{}

/// A growth takes free blocks that differ, one for each page that is wanted, and keeps the extents apart
/// and on the disk.
pub fn growth_law()
    ensures { GrowthLaw }
{}
