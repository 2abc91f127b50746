//! A store begins with its disks, and hands them back.
ghost use Rattle.std.specs.Prelude.{◌≡◌, ◌≢◌, ℕ, ◌<◌, ◌≤◌, ◌^◌, List, Option, Some, None, length, replicate, slice_set, IfOk, IfErr, MatchOption, option_map, []};
ghost use Rattle.std.specs.List.{range_with_len};
ghost use Rattle.core_arena.specs.Bytes.{zeros};
ghost use Rattle.page_hash.specs.Names.{AreDistinct};
ghost use Rattle.page_lists.specs.ListsSeen.{ListsSeen, AreApart};
ghost use Rattle.page_lock.specs.Rows.{clear_row};
ghost use Rattle.page_store.specs.Bays.{AreNumbers, numbers_of, pairs_seen, disks_in, bays_with, bay_at, bay_of, home, missing, IsStill};
ghost use Rattle.page_store.specs.StoreFits.{StoreFits};
ghost use Rattle.page_store.specs.New.{IsNew};
ghost use Rattle.page_store.specs.Notes.{no_notes};
ghost use Rattle.page_store.specs.Seen.{IsSoundStore};
ghost use Rattle.page_store.specs.Table.{PlaceTable, IsApart};

use crate::bays::Bays;
use crate::order::Order;
use crate::place::SWAP_DISK;
use crate::store::Store;
use block_device::Disk;
use core_arena::Core;
use page_clock::Clock;
use page_hash::PageHash;
use page_lists::PageLists;
use page_lock::PageLocks;
use std::alloc::{AllocError, Global};

/// What a store takes memory for.
#[derive(Drop)]
struct Parts<D: Disk> {
    core: Core,
    names: PageHash,
    lists: PageLists,
    locks: PageLocks,
    bays: Bays<D>,
    order: Order<D>,
}

fn take_memory<D: Disk>(
    alloc: Global,
    frames: u32,
    disks: &[(u32, D)],
) -> Result<Parts<D>, AllocError>
    ensures core { IfOk result (λ p. p.core.frames ≡ replicate frames (Some zeros)) }
    ensures names { IfOk result (λ p. p.names ≡ replicate frames None) }
    ensures distinct { IfOk result (λ p. AreDistinct p.names) }
    // All frames are free, and no disk is there yet.
    ensures lists { IfOk result (λ p. p.lists
        ≡ record { frames = frames; free = range_with_len 0 frames; cached = [] }) }
    ensures apart { IfOk result (λ p. AreApart p.lists) }
    ensures locks { IfOk result (λ p. p.locks ≡ replicate frames clear_row) }
    ensures bays { IfOk result (λ p. p.bays ≡ replicate 9 missing) }
    ensures order { IfOk result (λ p. p.order ≡ numbers_of disks.now) }
{
    Ok(Parts {
        core: Core::new(alloc, frames)?,
        names: PageHash::new(alloc, frames)?,
        lists: PageLists::new(alloc, frames)?,
        locks: PageLocks::new(alloc, frames)?,
        bays: Bays::new(alloc)?,
        order: Order::of(alloc, disks)?,
    })
}

fn place_all<D: Disk>(bays: &mut Bays<D>, mut disks: Vec<(u32, D)>)
    requires nine { length bays.old ≡ 9 }
    requires numbers { AreNumbers (numbers_of disks.items) }
    ensures { bays.new ≡ bays_with (pairs_seen D.seen disks.items) bays.old }
{
    while let Some((number, disk)) = disks.pop() {
        bays.put(number, disk);
    }
}

fn place_swap<D: Disk>(bays: &mut Bays<D>, swap: Option<D>)
    requires nine { length bays.old ≡ 9 }
    requires empty { bay_at bays.old 8 ≡ missing }
    ensures { bays.new ≡ slice_set bays.old 8 (bay_of (option_map D.seen swap)) }
{
    if let Some(disk) = swap {
        bays.put(SWAP_DISK, disk);
    }
}

impl<D: Disk> Store<D> {
    /// A store of so many frames over these disks by their numbers, and the swap disk. For want of memory the disks come back.
    ///
    /// The time is proportional to the bytes of the frames. No other call takes memory.
    pub fn new(
        alloc: Global,
        frames: u32,
        disks: Vec<(u32, D)>,
        swap: Option<D>,
    ) -> Result<Store<D>, (Vec<(u32, D)>, Option<D>)>
        requires frames { 2 ≤ frames }
        requires numbers { AreNumbers (numbers_of disks.items) }
        // The store is new, and agrees with no notes.
        ensures store { IfOk result (λ store. IsNew store frames (pairs_seen D.seen disks.items)
            (option_map D.seen swap)) }
        ensures sound { IfOk result IsSoundStore }
        ensures still { IfOk result (λ store. (number : ℕ) → IsStill (bay_at store.bays number)) }
        ensures fits { IfOk result (λ store. (table : PlaceTable) → IsApart table
            → StoreFits store no_notes table) }
        ensures given { IfErr result (λ given. (given.0 ≡ disks) × (given.1 ≡ swap)) }
    {
        let Ok(parts) = take_memory(alloc, frames, disks.as_slice()) else {
            return Err((disks, swap));
        };
        let Parts {
            core,
            names,
            lists,
            locks,
            mut bays,
            order,
        } = parts;
        place_all(&mut bays, disks);
        place_swap(&mut bays, swap);
        Ok(Store {
            frames,
            hand: 0,
            core,
            names,
            lists,
            locks,
            clock: Clock::new(frames, frames / 2),
            bays,
            order,
        })
    }

    /// The disks as they are, in the order in which they came, and the swap disk. Takes no memory.
    pub fn into_disks(self) -> (Vec<(u32, D)>, Option<D>)
        requires { (number : ℕ) → IsStill (bay_at self.bays number) }
        ensures disks { pairs_seen D.seen result.0.items ≡ disks_in self.bays self.order }
        ensures swap { MatchOption result.1 (bay_at self.bays 8
            ≡ missing) (λ disk. bay_at self.bays 8 ≡ home (D.seen disk)) }
    {
        let mut bays = self.bays;
        let swap = bays.remove(SWAP_DISK);
        (self.order.collect(&mut bays), swap)
    }
}
