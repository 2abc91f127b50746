//! Segments that lose their translations.
ghost use Rattle.std.specs.Prelude.{◌≡◌, ◌≤◌, ◌<◌, ◌+◌, ℕ, None};
ghost use Rattle.seg_ops.specs.hat_layer.Pool.{translation_at};
ghost use Rattle.seg_ops.specs.vm_world.SpaceSteps.{AreUnloaded};
ghost use Rattle.seg_ops.specs.vm_world.Serving.{ModifiesNone};
ghost use Rattle.seg_ops.specs.vm_world.Words.{IsFit, KeepsEveryPage, OnlyStoreAndHat};
ghost use Rattle.seg_ops.specs.vm_world.World.{world_seen};

use crate::segment::VnSeg;
use seg_ops::{Disk, World, drop_translation};

impl VnSeg {
    /// Drops the translations of its pages, which begin with this page of the process. Time: its pages.
    pub fn unmap<D: Disk>(&mut self, world: &mut World<D>, space: u32, first: u32)
        requires within { first + self.old.pages ≤ 0x80000 }
        requires fits { IsFit world.old }
        // None of its pages has a translation, nor has any page that had none.
        ensures unloaded { AreUnloaded world.new.hat.places space first self.old.pages }
        ensures none { (s q : ℕ) → translation_at world.old.hat.places s q ≡ None
            → translation_at world.new.hat.places s q ≡ None }
        // What stays.
        ensures segment { self.new ≡ self.old }
        ensures rest { OnlyStoreAndHat world.old world.new }
        ensures keeps { KeepsEveryPage world.old world.new }
        ensures modified { ModifiesNone (world_seen world.old) (world_seen world.new) }
    {
        for page in first..first + self.pages() {
            drop_translation(world, space, page);
        }
    }
}
