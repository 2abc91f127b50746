//! A page of a file that is given up.
ghost use Rattle.std.specs.Prelude.{◌≡◌, ◌≢◌, ◌<◌, ℕ, length, IsTrue};
ghost use Rattle.seg_ops.specs.page_hash.declared.PageName.{PageName};
ghost use Rattle.seg_ops.specs.page_store.Seen.{residence};
ghost use Rattle.seg_ops.specs.page_store.Steps.{after_abort};
ghost use Rattle.seg_ops.specs.vm_world.FileSteps.{ChangesFile};
ghost use Rattle.seg_ops.specs.vm_world.Segments.{Spaces};
ghost use Rattle.seg_ops.specs.vm_world.Serving.{ModifiesNone};
ghost use Rattle.seg_ops.specs.vm_world.Words.{memory, Fits, IsFit, OnlyHat};
ghost use Rattle.seg_ops.specs.vm_world.World.{world_seen, file_name, page_exists};
ghost use Rattle.seg_map.specs.Voids.{DropsPage, files_voided, with_page_void};

use seg_ops::{Disk, PageName, Residence, World};

/// Drops the translations that lead to a page, with their bits. Time: the page's translations.
fn unload_page<D: Disk>(world: &mut World<D>, name: PageName)
    requires fits { IsFit world.old }
    ensures drops { DropsPage world.old.store world.old.hat world.new.hat name }
    // What stays.
    ensures rest { OnlyHat world.old world.new }
{
    if let Residence::Home(frame) = world.store.resident(name) {
        world.hat.page_unload(frame);
    }
}

/// Gives up a page of a file, wherever it is: it counts as never written, and is zeros; no frame has it, and no
/// translation leads to it. Time: the page's translations.
pub fn void_page<D: Disk>(world: &mut World<D>, file: u32, page: u32)
    requires file { file < length world.old.files.files }
    requires exists { IsTrue
        (page_exists world.old.files world.old.anon (file_name file page)) }
    requires fits { IsFit world.old }
    // In flat memory the page is zeros.
    ensures store { world.new.store ≡ after_abort world.old.store (file_name file page) }
    ensures files { world.new.files ≡ files_voided world.old.files file page }
    ensures absent { residence world.new.store (file_name file page) ≡ Residence.Absent }
    ensures voids { (spaces : Spaces) → Fits world.old spaces
        → ChangesFile file (memory world.old spaces) (memory world.new spaces)
        (with_page_void page) }
    // What stays.
    ensures rest { world.new ≡ record world.old {
      store = world.new.store;
      hat = world.new.hat;
      files = world.new.files;
    } }
    ensures stay { (name : PageName) → name ≢ file_name file page
        → residence world.new.store name ≡ residence world.old.store name }
    ensures modified { ModifiesNone (world_seen world.old) (world_seen world.new) }
{
    let name = PageName { object: file, page };
    unload_page(world, name);
    world.store.abort(name);
    world.files.set_blank(file, page, true);
}
