//! Tails of files that become zeros, since the page that has the tail lost its frame.
ghost use Rattle.std.specs.Prelude.{◌≡◌, ◌<◌, ◌≤◌, ◌^◌, ◌==◌, ◌||◌, ℕ, length, IsTrue, IfSome};
ghost use Rattle.vm_world.specs.flat_model.Step.{is_bit_set};
ghost use Rattle.page_store.specs.page_hash.Names.{is_name};
ghost use Rattle.vm_world.specs.StateSteps.{PendsTails};
ghost use Rattle.vm_world.specs.World.{world_seen, page_exists};

use page_store::{Disk, PageName, SWAP_OBJECT};
use vm_world::{World, pages_in};

/// A set of files, as bits, with one file more.
fn with_file(files: u64, file: u32) -> u64
    requires { file < 64 }
    ensures bits { (f : ℕ) → is_bit_set result f ≡ (is_bit_set files f || (f == file)) }
    ensures below { (n : ℕ) → file < n → files < 2 ^ n → result < 2 ^ n }
{
    files | (1 << file)
}

/// Lets the tail of a file be pending, where the page that lost its frame is the file's last one. Constant time.
pub(crate) fn pend_tail<D: Disk>(world: &mut World<D>, lost: Option<PageName>)
    requires exists { IfSome lost
        (λ name. IsTrue (page_exists world.old.files world.old.anon name)) }
    requires few { length world.old.files.files ≤ 64 }
    ensures pends { PendsTails (world_seen world.old) (is_name lost)
        world.old.pending world.new.pending }
    // What stays.
    ensures rest { world.new ≡ record world.old { pending = world.new.pending } }
{
    let Some(name) = lost else {
        return;
    };
    if name.object == SWAP_OBJECT {
        return;
    }
    let length = world.files.info(name.object).length;
    if name.page + 1 == pages_in(length) {
        world.pending = with_file(world.pending, name.object);
    }
}
