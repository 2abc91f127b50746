//! The state, and what it tells.
ghost use Rattle.std.specs.Prelude.{◌≡◌, ◌↔◌, ◌+◌, ◌<◌, ◌≤◌, ℕ, length, option_map, IsSome, IsTrue, Some};
ghost use Rattle.std.specs.FinMap as finite;
ghost use Rattle.fault_entry.specs.flat_model.Flat.{Flat, cell_at};
ghost use Rattle.fault_entry.specs.flat_model.Told.{entries_of};
ghost use Rattle.fault_entry.specs.page_store.Notes.{Notes};
ghost use Rattle.fault_entry.specs.vm_world.FlatMemory.{flat_memory};
ghost use Rattle.fault_entry.specs.vm_world.State.{Seats, room_of, seat_of};
ghost use Rattle.fault_entry.specs.vm_world.StateFits.{StateFits};
ghost use Rattle.fault_entry.specs.vm_types.declared.call.Call.TheVariants.{Sync};
ghost use Rattle.fault_entry.specs.vm_world.SyncSteps.{start_of, with_call_begun};
ghost use Rattle.fault_entry.specs.vm_types.Parts.{part_file};
ghost use Rattle.file_calls.specs.Locks.{calls_without};
ghost use Rattle.vm_core.specs.State.{kept_seen, with_next_entry};

use crate::kept::Kept;
use crate::ledger::Ledger;
use crate::syncs::Syncs;
use disk_marks::DiskMarks;
use fault_entry::{Call, Disk, Reply, Spaces, World};
use file_calls::FileLocks;
use std::alloc::Global;
use std::marker::Model;
use vm_types::Object;
use vm_world::SyncStart;

/// The state of the system: the world below the segments, the spaces, and the history.
///
/// Contracts see it as a `KernelState`. What a seat has outside it, a transfer between its begin and its end, the caller keeps.
#[derive(Drop)]
pub struct VmState<D: Disk> {
    pub(crate) world: World<D>,
    pub(crate) spaces: Spaces,
    // The history, and of each process the most entries that it may make.
    pub(crate) ledger: Ledger,
    // Of each file the seat whose call is between two parts.
    pub(crate) calls: FileLocks,
    // Of each seat where its Sync began, of which range it is, and where it looks next.
    pub(crate) syncs: Syncs,
    // The last plan that was answered.
    pub(crate) plan: Option<Kept>,
    // Of each process whether it was ever alive, and its parent.
    pub(crate) born: Vec<bool>,
    pub(crate) parents: Vec<u32>,
    // What is known of the blocks of files' disks.
    pub(crate) marks: DiskMarks,
    // Where a child's space comes from.
    pub(crate) alloc: Global,
}

impl<D: Disk> Model for VmState<D> {
    ghost use Rattle.std.specs.Prelude.{option_map, length};
    ghost use Rattle.fault_entry.specs.vm_world.State.{KernelState};
    ghost use Rattle.fault_entry.specs.vm_world.World.{world_seen};
    ghost use Rattle.vm_core.specs.State.{kept_seen, born_of, EachHasPlaces, IsSoundKernel};
    ghost use Rattle.vm_core.specs.StateCode.{state_code};

    ghost Value = { KernelState };

    ghost coded = { state_code };

    ghost view = { λ s. record {
      memory = record { world = world_seen s.world; spaces = s.spaces.spaces };
      born = born_of s.born.items;
      history = s.ledger.history;
      pending = s.world.pending;
      calls = s.calls;
      syncs = s.syncs;
      plan = option_map kept_seen s.plan;
      parents = s.parents.items;
      entries = s.ledger.entries;
      marks = s.marks;
    } };

    ghost invariant = { λ s. IsSoundKernel s.world.store s.world.zeros s.spaces.spaces s.ledger.entries (length s.syncs)
        × EachHasPlaces s.parents.items s.spaces.processes (length s.born.items) (length s.syncs) };
}

impl<D: Disk> VmState<D> {
    /// Whether a process is alive. Constant time.
    pub fn is_alive(&self, process: u32) -> bool
        ensures { IsTrue result ↔ IsSome (finite.get self.now.memory.spaces process) }
    {
        self.spaces.get(process).is_some()
    }

    /// How many entries a process may still make; 0 for one that is none. Constant time.
    pub fn room(&self, process: u32) -> u32
        ensures { length (entries_of self.now.history process) + result
            ≡ room_of self.now.entries process }
    {
        self.ledger.room(process)
    }

    /// The object of a process's cell at a page, and the page of it that the cell stands for; None
    /// exactly where there is no cell. Time: the logarithm of the process's segments.
    pub fn object(&self, process: u32, page: u32) -> Option<(Object, u32)>
        requires fits { (F : Flat) × (seats : Seats) × StateFits F self.now seats }
        ensures { (notes : Notes) → result ≡ option_map (λ c. (c.object, c.index))
            (cell_at (flat_memory self.now.memory self.now.born notes) process page) }
    {
        let Some(space) = self.spaces.get(process) else {
            return None;
        };
        let Some((first, _pages, segment)) = space.find(page) else {
            return None;
        };
        Some(segment.object(page - first))
    }

    /// How many entries the history has. Constant time.
    pub fn length(&self) -> u64
        ensures { result ≡ length self.now.history }
    {
        u64::from(self.ledger.length())
    }

    // Adds an entry of a process, which takes the pending tails. No Sync of the process has begun then.
    pub(crate) fn add(&mut self, process: u32, call: &Call, reply: &Reply)
        requires { length (entries_of self.old.history process)
            < room_of self.old.entries process }
        ensures new { self.new
            ≡ with_next_entry self.old (record {
              process = process;
              call = call.now;
              reply = reply.now;
              cleared = self.old.pending;
            }) }
        ensures seated { process ≤ length self.old.syncs }
    {
        self.add_here(process, call, reply);
    }

    // The same, inline, so that of a hit no entry is made but the one in the history.
    #[inline(always)]
    pub(crate) fn add_here(&mut self, process: u32, call: &Call, reply: &Reply)
        requires { length (entries_of self.old.history process)
            < room_of self.old.entries process }
        ensures new { self.new
            ≡ with_next_entry self.old (record {
              process = process;
              call = call.now;
              reply = reply.now;
              cleared = self.old.pending;
            }) }
        ensures seated { process ≤ length self.old.syncs }
    {
        self.ledger.push(process, call, reply, self.world.pending);
        self.world.pending = 0;
        self.syncs.set(process - 1, None);
    }

    // The seat of a process that may make an entry is one of the seats.
    #[inline(always)]
    pub(crate) fn seated(&self, seat: u32, process: u32)
        requires room { length (entries_of self.now.history process)
            < room_of self.now.entries process }
        requires own { seat_of process ≡ seat }
        ensures { seat < length self.now.syncs }
    {
        let _ = (seat, process, self.syncs.seats());
    }

    // Where the Sync of a seat began of so many bytes from an address on: with the history as it is, if the seat keeps no start of it.
    pub(crate) fn sync_start(&self, seat: u32, addr: u32, bytes: u32) -> u64
        requires { seat < length self.now.syncs }
        ensures { result ≡ start_of self.now seat (Sync addr bytes) }
    {
        match self.syncs.start(seat) {
            Some(start) if start.addr == addr && start.length == bytes => start.from,
            _ => u64::from(self.ledger.length()),
        }
    }

    // Where the call is a Sync, the seat keeps where it began, and its range.
    pub(crate) fn begin_call(&mut self, seat: u32, call: &Call)
        requires { seat < length self.old.syncs }
        ensures { self.new ≡ with_call_begun self.old seat call.now }
    {
        if let Call::Sync { addr, length } = *call {
            let start = SyncStart {
                from: self.sync_start(seat, addr, length),
                addr,
                length,
            };
            self.syncs.set(seat, Some(start));
        }
    }

    // Where this call is a part of a file whose call is the seat's, that call of the file is over.
    pub(crate) fn release_file(&mut self, seat: u32, call: &Call)
        ensures { self.new
            ≡ record self.old { calls = calls_without seat (part_file call.now) self.old.calls } }
    {
        self.calls.release(seat, call);
    }

    /// The last plan that an event answered, where no event came since.
    pub fn kept(&self) -> Option<Kept>
        ensures { option_map kept_seen result ≡ self.now.plan }
    {
        self.plan
    }
}
