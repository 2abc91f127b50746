//! The start of a state.
ghost use Rattle.std.specs.Prelude.{◌≡◌, ◌≤◌, ◌<◌, ◌+◌, ◌==◌, ◌^◌, ℕ, List, [], Some, None, All, length, map, option_map, replicate, slice_index_or, if◌then◌else◌, IfOk, IfErr, IfSome};
ghost use Rattle.std.specs.FinMap as finite;
ghost use Rattle.std.specs.FinSet as set;
ghost use Rattle.fault_entry.specs.addr_space.Space.{Part};
ghost use Rattle.fault_entry.specs.anon_slots.Slots.{unused_slots, IsSoundAnonSlots};
ghost use Rattle.fault_entry.specs.block_device.DiskSeen.{DiskSeen};
ghost use Rattle.fault_entry.specs.flat_model.Counted.{top_count};
ghost use Rattle.fault_entry.specs.flat_model.Flat.{Flat};
ghost use Rattle.fault_entry.specs.page_store.Bays.{AreNumbers, numbers_of, pairs_seen};
ghost use Rattle.fault_entry.specs.page_store.Notes.{no_notes};
ghost use Rattle.fault_entry.specs.vm_world.FlatMemory.{flat_memory};
ghost use Rattle.fault_entry.specs.vm_world.FramesFit.{FilesFit};
ghost use Rattle.fault_entry.specs.vm_world.Marks.{AreOpeningMarks};
ghost use Rattle.fault_entry.specs.vm_world.Opening.{IsOpening, no_seats};
ghost use Rattle.fault_entry.specs.vm_world.State.{is_top};
ghost use Rattle.fault_entry.specs.vm_world.StateFits.{StateFits};
ghost use Rattle.fault_entry.specs.vm_world.declared.segment.Segment.{Segment};
ghost use Rattle.fault_entry.specs.vnode_files.Files.{vnode_at};
ghost use Rattle.fault_entry.specs.vnode_files.Vnode.{IsSoundVnode};
ghost use Rattle.vm_core.specs.Setup.{disk_total, FilesOnDisks, SwapServes, IsMadeOf, HaveCounted};
ghost use Rattle.vm_core.specs.State.{born_of, top_space};

use crate::ledger::Ledger;
use crate::marks::opening_marks;
use crate::setup::Setup;
use crate::state::VmState;
use crate::syncs::Syncs;
use disk_marks::DiskMarks;
use fault_entry::{
    AnonMaps, AnonSlots, Disk, Files, Hat, Ranges, Spaces, Store, World, ZeroObjects,
};
use file_calls::FileLocks;
use std::alloc::{AllocError, Global};

/// What a state takes memory for, its frames aside.
#[derive(Drop)]
struct Tables {
    anon: AnonSlots,
    hat: Hat,
    spaces: Spaces,
    ledger: Ledger,
    syncs: Syncs,
    born: Vec<bool>,
    marks: DiskMarks,
}

/// A process without a parent is alive from the start, with an empty space.
fn bear(alloc: Global, spaces: &mut Spaces, process: u32, parent: u32)
    requires first { 1 ≤ process }
    requires last { process ≤ spaces.old.processes }
    requires absent { finite.get spaces.old.spaces process ≡ None }
    ensures spaces { spaces.new.spaces ≡ (if parent == 0
        then finite.insert spaces.old.spaces process []
        else spaces.old.spaces) }
    ensures processes { spaces.new.processes ≡ spaces.old.processes }
{
    if parent == 0 {
        spaces.insert(process, Ranges::new(alloc));
    }
}

/// The spaces at the start.
fn top_spaces(alloc: Global, parents: &[u32]) -> Result<Spaces, AllocError>
    requires { length parents.now < 2 ^ 32 }
    ensures tops { IfOk result (λ spaces. (p : ℕ) → finite.get spaces.spaces p
        ≡ top_space parents.now p) }
    ensures processes { IfOk result (λ spaces. spaces.processes ≡ length parents.now) }
{
    let mut spaces = Spaces::new(alloc, parents.len() as u32)?;
    for place in 0..parents.len() {
        bear(alloc, &mut spaces, place as u32 + 1, parents[place]);
    }
    Ok(spaces)
}

/// A mark for each process that has no parent.
fn top_marks(alloc: Global, parents: &[u32]) -> Result<Vec<bool>, AllocError>
    ensures { IfOk result (λ marks. marks.items ≡ map (λ parent. parent == 0) parents.now) }
{
    let mut marks = Vec::with_capacity(alloc, parents.len())?;
    for parent in parents {
        marks.push_reserved(*parent == 0);
    }
    Ok(marks)
}

fn take_tables<D: Disk>(alloc: Global, setup: &Setup<D>) -> Result<Tables, AllocError>
    requires translations { 1 ≤ setup.now.translations }
    requires entries { length setup.now.entries.items < 2 ^ 32 }
    requires parents { length setup.now.parents.items < 2 ^ 32 }
    requires files { FilesFit setup.now.files }
    requires numbers { (disk blocks : ℕ)
        → finite.get setup.now.files.disks disk ≡ Some blocks → disk < 8 }
    // Ok: slots and translations, none of them used.
    ensures anon { IfOk result (λ t. t.anon ≡ unused_slots setup.now.slots) }
    ensures slots { IfOk result (λ t. IsSoundAnonSlots t.anon) }
    ensures places { IfOk result (λ t. t.hat.places ≡ replicate setup.now.translations None) }
    ensures frames { IfOk result (λ t. t.hat.frames ≡ setup.now.frames) }
    // The processes and their history.
    ensures spaces { IfOk result (λ t. (p : ℕ) → finite.get t.spaces.spaces p
        ≡ top_space setup.now.parents.items p) }
    ensures processes { IfOk result (λ t. t.spaces.processes
        ≡ length setup.now.parents.items) }
    ensures history { IfOk result (λ t. t.ledger.history ≡ []) }
    ensures entries { IfOk result (λ t. t.ledger.entries ≡ setup.now.entries.items) }
    ensures syncs { IfOk result (λ t. t.syncs ≡ replicate setup.now.seats None) }
    ensures born { IfOk result (λ t. t.born.items
        ≡ map (λ parent. parent == 0) setup.now.parents.items) }
    // What is known of the disks.
    ensures marks { IfOk result (λ t. AreOpeningMarks setup.now.files setup.now.seats t.marks) }
{
    Ok(Tables {
        anon: AnonSlots::new(alloc, setup.slots)?,
        hat: Hat::new(alloc, setup.translations, setup.frames)?,
        spaces: top_spaces(alloc, setup.parents.as_slice())?,
        ledger: Ledger::new(alloc, setup.entries.as_slice())?,
        syncs: Syncs::new(alloc, setup.seats)?,
        born: top_marks(alloc, setup.parents.as_slice())?,
        marks: opening_marks(alloc, &setup.files, setup.seats)?,
    })
}

/// A disk's count of faults isn't past the end of counts.
fn count_disk<D: Disk>(disk: &D)
    ensures { (D.seen disk.now).faults ≤ top_count }
{
    let _faults = disk.faults();
}

/// Nor is that of any of these.
fn count_disks<D: Disk>(disks: &[(u32, D)])
    ensures { HaveCounted (pairs_seen D.seen disks.now) }
{
    for disk in disks {
        count_disk(&disk.1);
    }
}

fn count_swap<D: Disk>(swap: &Option<D>)
    ensures { IfSome (option_map D.seen swap.now) (λ d. d.faults ≤ top_count) }
{
    if let Some(disk) = swap {
        count_disk(disk);
    }
}

/// Each file agrees with its extents.
fn check_files(files: &Files)
    ensures few { length files.now.files ≤ 64 }
    ensures sound { (f : ℕ) → f < length files.now.files → IsSoundVnode (vnode_at files.now f) }
{
    for file in 0..files.count() {
        files.info(file);
    }
}

impl<D: Disk> VmState<D> {
    /// The state of these disks and files: no frame holds a page, each process without a parent is alive with an empty space,
    /// and nothing happened yet. All memory that loads, stores and transfers need is taken here; where there isn't enough, the
    /// setup comes back.
    ///
    /// The time is proportional to the bytes of the frames, the slots, and the entries of all processes.
    pub fn start(alloc: Global, setup: Setup<D>) -> Result<VmState<D>, Setup<D>>
        // Frames enough that some page can always be brought home, and a translation at least.
        requires frames { disk_total setup.disks.items setup.swap + 4 ≤ setup.frames }
        requires translations { 1 ≤ setup.translations }
        // The disks, the files on them, and the swap disk.
        requires numbers { AreNumbers (numbers_of setup.disks.items) }
        requires files { FilesOnDisks setup.files (pairs_seen D.seen setup.disks.items) }
        requires swap { SwapServes setup.slots (option_map D.seen setup.swap) }
        // The processes.
        requires entries { length setup.parents.items ≡ length setup.entries.items }
        requires seats { length setup.entries.items ≤ setup.seats }
        // Ok: the state at the opening, made of the setup; it fits its own flat memory.
        ensures made { IfOk result (λ state. IsMadeOf D.seen state setup) }
        ensures opening { IfOk result IsOpening }
        ensures fits { IfOk result (λ state. StateFits
            (flat_memory state.memory state.born no_notes) state no_seats) }
        // An error: the setup comes back.
        ensures err { IfErr result (λ back. back ≡ setup) }
    {
        check_files(&setup.files);
        let Ok(tables) = take_tables(alloc, &setup) else {
            return Err(setup);
        };
        count_disks(setup.disks.as_slice());
        count_swap(&setup.swap);
        let Setup {
            frames,
            translations,
            slots,
            disks,
            swap,
            files,
            parents,
            entries,
            seats,
        } = setup;
        match Store::new(alloc, frames, disks, swap) {
            Ok(store) => Ok(VmState {
                world: World {
                    store,
                    anon: tables.anon,
                    maps: AnonMaps::new(alloc),
                    hat: tables.hat,
                    files,
                    zeros: ZeroObjects::new(alloc),
                    pending: 0,
                },
                spaces: tables.spaces,
                ledger: tables.ledger,
                calls: FileLocks::new(),
                syncs: tables.syncs,
                plan: None,
                born: tables.born,
                parents,
                marks: tables.marks,
                alloc,
            }),
            Err((disks, swap)) => Err(Setup {
                frames,
                translations,
                slots,
                disks,
                swap,
                files,
                parents,
                entries,
                seats,
            }),
        }
    }
}
