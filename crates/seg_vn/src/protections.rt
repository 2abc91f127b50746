//! Segments whose protection changes.
ghost use Rattle.std.specs.Prelude.{◌≡◌, ◌≤◌, ◌<◌, ◌+◌, ℕ, true};
ghost use Rattle.seg_ops.specs.addr_space.Space.{with_new_piece};
ghost use Rattle.seg_ops.specs.vm_types.Prot.{is_within};
ghost use Rattle.seg_ops.specs.vm_world.ProtectSteps.{with_segment_prot, with_range_prot};
ghost use Rattle.seg_ops.specs.vm_world.Serving.{ModifiesNone};
ghost use Rattle.seg_ops.specs.vm_world.Words.{IsFit, KeepsEveryPage, OnlyHat, OnlyStoreAndHat};
ghost use Rattle.seg_ops.specs.vm_world.World.{world_seen};
ghost use Rattle.seg_ops.specs.Writers.{HasNoWriter, WritersStay};
ghost use Rattle.seg_vn.specs.Protections.{AreLimited};
ghost use Rattle.seg_vn.specs.Words.{IsPart, PartBecomes};

use crate::segment::VnSeg;
use seg_ops::{Disk, Prot, World, protect};

impl VnSeg {
    // Takes the right to write from the translations of its pages. Time: its pages.
    fn hold_writes<D: Disk>(&self, world: &mut World<D>, space: u32, first: u32)
        requires within { first + self.now.pages ≤ 0x80000 }
        ensures none { (q : ℕ) → first ≤ q → q < first + self.now.pages
            → HasNoWriter world.new.hat.places space q }
        ensures stay { WritersStay world.old.hat.places world.new.hat.places }
        // What stays.
        ensures rest { OnlyHat world.old world.new }
        ensures modified { ModifiesNone (world_seen world.old) (world_seen world.new) }
        ensures keeps { KeepsEveryPage world.old world.new }
    {
        for page in first..first + self.pages() {
            protect(world, space, page);
        }
    }

    // Sees to it that the translations of its pages let no more than a protection. Time: its pages, unless it may be written.
    fn limit<D: Disk>(&mut self, world: &mut World<D>, space: u32, first: u32, prot: Prot)
        requires within { first + self.old.pages ≤ 0x80000 }
        requires fits { IsFit world.old }
        ensures limited { AreLimited world.new.hat.places space first self.old.pages prot }
        // What stays.
        ensures segment { self.new ≡ self.old }
        ensures rest { OnlyStoreAndHat world.old world.new }
        ensures modified { ModifiesNone (world_seen world.old) (world_seen world.new) }
        ensures keeps { KeepsEveryPage world.old world.new }
    {
        if prot.can_write() {
            return;
        }
        if prot.can_read() {
            self.hold_writes(world, space, first);
            return;
        }
        self.unmap(world, space, first);
    }

    /// Gives its pages, which begin with this page of the process, another protection. Translations lose the right to write where
    /// that lacks it, and go where it lets nothing. Takes no memory. Time: its pages, unless it may be written.
    pub fn set_prot<D: Disk>(&mut self, world: &mut World<D>, space: u32, first: u32, prot: Prot)
        requires within { is_within prot self.old.max ≡ true }
        requires part { IsPart world.old space first self.old }
        // Memory fits, and in flat memory the cells of its pages have this protection.
        ensures changes { PartBecomes world.old world.new space first self.old
            (with_new_piece first self.new) world.old.zeros
            (λ F. with_range_prot F space first self.old.pages prot) }
        ensures segment { self.new ≡ with_segment_prot prot self.old }
        // What stays.
        ensures rest { OnlyStoreAndHat world.old world.new }
        ensures modified { ModifiesNone (world_seen world.old) (world_seen world.new) }
    {
        self.limit(world, space, first, prot);
        self.segment.prot = prot;
    }
}
