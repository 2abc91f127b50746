//! The law of what blocks hold once a run ended. The function does nothing: its contract is the law.
ghost use Rattle.std.specs.Prelude.{ℕ, ◌≡◌, ◌≤◌, List, [], Some, length, replicate, slice_index_or};
ghost use Rattle.volume_files.specs.vm_types.declared.call.Entry.{Entry};
ghost use Rattle.volume_files.specs.flat_model.Flat.{Flat};
ghost use Rattle.volume_files.specs.flat_model.History.{replay};
ghost use Rattle.vm_core.specs.page_hash.declared.PageName.{PageName};
ghost use Rattle.vm_core.specs.page_store.Bytes.{clip};
ghost use Rattle.vm_core.specs.vm_world.mark_laws.HeldBlocks.{HoldsHistory};
ghost use Rattle.vm_core.specs.vm_world.mark_laws.Pages.{after_first, bytes_there, disk_place, page_there};
ghost use Rattle.vm_core.specs.vm_world.mark_laws.Syncs.{HasSynced};

/// What a Sync made sure of is on the disk: where a page has been the same, and not zeros, since before a Sync began that answered, its block has it, on a disk that
/// has counted no fault.
pub fn synced_block_law()
    ensures { (F : Flat) (H : List Entry) (number faults : ℕ) (given now : List (List ℕ)) →
        (name : PageName) (block k b : ℕ) (bytes : List ℕ) →
        HoldsHistory F H number faults given now → faults ≡ 0 →
        disk_place (replay F H) name ≡ Some (number, block) →
        HasSynced F H k b name → ¬ (bytes ≡ replicate 4096 0) →
        ((j : ℕ) → b ≤ j → j ≤ length H → page_there (after_first F H j) name ≡ bytes) →
        (j : ℕ) × (b ≤ j) × (j ≤ length H)
        × (clip (bytes_there (after_first F H j) name) (slice_index_or now block []) ≡ bytes) }
{}
