//! Translations that lose the right to write.
ghost use Rattle.std.specs.Prelude.{◌≡◌, ℕ};
ghost use Rattle.vm_world.specs.hat_layer.Pool.{translation_at, change_page, without_write};
ghost use Rattle.vm_world.specs.Serving.{ModifiesNone};
ghost use Rattle.vm_world.specs.Words.{KeepsEveryPage, OnlyHat};
ghost use Rattle.vm_world.specs.World.{world_seen};
ghost use Rattle.seg_ops.specs.Writers.{HasNoWriter, WritersStay};

use page_store::Disk;
use vm_world::World;

/// Takes the right to write from the translation of a page, where it has one; its bits stay. Takes no memory. Constant expected
/// time.
pub fn protect<D: Disk>(world: &mut World<D>, space: u32, page: u32)
    // No translation of the page may write now, and no other that might not.
    ensures none { HasNoWriter world.new.hat.places space page }
    ensures stay { WritersStay world.old.hat.places world.new.hat.places }
    ensures map { (s p : ℕ) → translation_at world.new.hat.places s p
        ≡ change_page space page without_write (translation_at world.old.hat.places s p) }
    // What stays.
    ensures rest { OnlyHat world.old world.new }
    ensures modified { ModifiesNone (world_seen world.old) (world_seen world.new) }
    ensures keeps { KeepsEveryPage world.old world.new }
{
    world.hat.protect(space, page);
}
