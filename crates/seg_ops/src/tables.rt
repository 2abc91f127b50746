//! Bits that are told of translations, gathered into their pages.
ghost use Rattle.std.specs.Prelude.{◌≡◌, ◌<◌, length, Some, None, IfSome};
ghost use Rattle.page_store.specs.Laws.{StaysInPlace, SameResidence};
ghost use Rattle.page_store.specs.Moves.{is_only};
ghost use Rattle.seg_ops.specs.Steps.{with_bits_gathered, with_dropped_gathered};

use page_store::{Disk, Store};
use vm_world::Dropped;

/// Adds bits that were told of a frame's translations, referenced and modified, to those of its page.
pub(crate) fn add_bits<D: Disk>(store: &mut Store<D>, frame: u32, told: (bool, bool))
    requires { frame < length store.old.frames }
    ensures new { store.new ≡ with_bits_gathered store.old frame told }
    ensures laws { StaysInPlace store.old store.new (is_only (Some frame)) }
{
    store.add_bits(frame, told.0, told.1);
}

/// Gathers the bits of a translation that had to give way, where one had to.
pub(crate) fn gather<D: Disk>(store: &mut Store<D>, dropped: Option<Dropped>)
    requires { IfSome dropped (λ d. d.frame < length store.old.frames) }
    ensures new { store.new ≡ with_dropped_gathered store.old dropped }
    ensures laws { IfSome dropped (λ d. StaysInPlace store.old store.new (is_only (Some d.frame))) }
    ensures stay { SameResidence store.old store.new }
{
    if let Some(told) = dropped {
        add_bits(store, told.frame, (told.referenced, told.modified));
    }
}
