//! The kernel is started.
ghost use Rattle.std.specs.Prelude.{ℕ, ◌≡◌, ◌≤◌, [], List, Option, None, length, map, IfOk, IfErr, vec_capacity, option_map};
ghost use Rattle.volume_files.specs.block_device.declared.numbered.NumberedDisk.{NumberedDisk};
ghost use Rattle.volume_files.specs.block_device.declared.rack.Spec.{Spec};
ghost use Rattle.volume_files.specs.block_device.DiskSeen.{DiskSeen};
ghost use Rattle.volume_files.specs.vm_script.Processes.{kernel_parents};
ghost use Rattle.volume_files.specs.vm_script.Rules.{broken_rule};
ghost use Rattle.volume_files.specs.vm_script.Sound.{IsSoundPlan};
ghost use Rattle.volume_files.specs.Attached.{ArePlaced, HasRooms, attached_seen, bare_disks};
ghost use Rattle.volume_files.specs.Opened.{OpenedFile, opening_flat};
ghost use Rattle.run_kernel.specs.Played.{IsStarted, HasRoomForPlan, rooms_from};
ghost use Rattle.run_endings.specs.declared.ending.Ending.TheVariants.{Memory};

use crate::entry_rooms::entry_rooms;
use run_endings::Ending;
use run_outcome::{Stop, without_numbers};
use std::alloc::{AllocError, Global};
use vm_core::{KernelHistory, Setup, VmState};
use vm_kernel::starting::Room;
use volume_files::{Attached, Disk, Placed, Plan, Unopened, amounts_of, into_swap};

/// A state to run processes on, whom its callers are for, and room for its disks to be handed back.
#[derive(Drop)]
pub struct Started<D: Disk> {
    pub state: VmState<D>,
    /// Those of the processes in their order, and behind them that of the pageout daemon.
    pub rooms: Vec<Room>,
    pub back: Vec<D>,
}

// Of each process its parent, and how many entries it may make; and whom the kernel's callers are for.
#[derive(Drop)]
struct Processes {
    parents: Vec<u32>,
    entries: Vec<u32>,
    rooms: Vec<Room>,
}

// The rooms of the processes, in their order, and behind them that of the pageout daemon, which makes no entry.
fn rooms_of(alloc: Global, entries: &[u32]) -> Result<Vec<Room>, AllocError>
    requires few { length entries.now ≤ 64 }
    ensures { IfOk result (λ rooms. rooms.items ≡ rooms_from 0 entries.now) }
{
    let mut rooms = Vec::with_capacity(alloc, entries.len() + 1)?;
    for place in 0..entries.len() {
        rooms.push_reserved(Room {
            process: place as u32 + 1,
            entries: entries[place],
        });
    }
    rooms.push_reserved(Room {
        process: 0,
        entries: 0,
    });
    Ok(rooms)
}

fn take_processes(alloc: Global, plan: &Plan) -> Result<Processes, AllocError>
    requires rules { broken_rule plan.now ≡ None }
    requires sound { IsSoundPlan plan.now }
    // The plan's processes, with room for its entries.
    ensures parents { IfOk result (λ p. p.parents.items ≡ kernel_parents plan.now) }
    ensures entries { IfOk result (λ p.
        length p.entries.items ≡ length (kernel_parents plan.now)) }
    ensures entries_of_plan { IfOk result (λ p. HasRoomForPlan plan.now p.entries.items) }
    // Whom the callers are for.
    ensures rooms { IfOk result (λ p. p.rooms.items ≡ rooms_from 0 p.entries.items) }
{
    let entries = entry_rooms(alloc, plan)?;
    Ok(Processes {
        parents: Vec::from_slice(alloc, plan.kernel_parents())?,
        rooms: rooms_of(alloc, &entries)?,
        entries,
    })
}

/// The disks with their numbers, as a kernel takes them.
fn number_disks<D: Disk>(disks: Vec<Unopened<D>>, mut numbered: Vec<(u32, D)>) -> Vec<(u32, D)>
    requires none { numbered.items ≡ [] }
    requires room { length disks.items ≤ vec_capacity numbered }
    ensures { result.items ≡ map (λ (d : NumberedDisk D). (d.number, d.disk)) disks.items }
{
    for disk in disks {
        numbered.push_reserved((disk.number(), disk.into_disk()));
    }
    numbered
}

// Memory lacked: the disks are handed back.
fn without_memory<D: Disk>(disks: Vec<(u32, D)>, swap: Option<D>, back: Vec<D>) -> Stop<D>
    requires none { back.items ≡ [] }
    requires room { length disks.items ≤ vec_capacity back }
    // Nothing happened.
    ensures ending { result.ending ≡ Memory }
    ensures entries { result.history.entries ≡ [] }
    ensures faults { result.history.faults ≡ [] }
    // The disks.
    ensures disks { result.disks.items ≡ map (λ (d : ℕ × D). d.1) disks.items }
    ensures swap { result.swap ≡ swap }
{
    Stop {
        ending: Ending::Memory,
        history: KernelHistory::none(*back.allocator()),
        disks: without_numbers(disks, back),
        swap,
    }
}

/// Starts the kernel of a plan over the files that were placed.
///
/// An error is want of memory; it has all disks. The time is that of the lines, the frames, the slots and the entries that
/// the lines may make.
pub fn start<D: Disk>(alloc: Global, plan: &Plan, placed: Placed<D>) -> Result<Started<D>, Stop<D>>
    requires placed { (holds : Spec → Option (List (List ℕ))) × (files : List OpenedFile)
        × ArePlaced plan.now holds files (attached_seen D.seen placed.attached) placed.files }
    requires rules { broken_rule plan.now ≡ None }
    requires sound { IsSoundPlan plan.now }
    requires rooms { HasRooms placed.attached }
    // Ok: the kernel at the start, whom its callers are for, and room for its disks to be handed back.
    ensures ok { (holds : Spec → Option (List (List ℕ))) (files : List OpenedFile)
        → ArePlaced plan.now holds files (attached_seen D.seen placed.attached) placed.files
        → IfOk result (λ s. IsStarted plan.now (opening_flat plan.now
        (map (λ (d : ℕ × DiskSeen). (d.0, d.1.size))
        (attached_seen D.seen placed.attached).disks) files)
        (attached_seen D.seen placed.attached).disks (attached_seen D.seen placed.attached).swap
        placed.files s.state) }
    ensures rooms { IfOk result (λ s. s.rooms.items ≡ rooms_from 0 s.state.entries) }
    ensures back { IfOk result (λ s. s.back.items ≡ []) }
    ensures room { IfOk result (λ s. length placed.attached.disks.items ≤ vec_capacity s.back) }
    // An error: nothing happened, and all disks are handed back.
    ensures entries { IfErr result (λ s. s.history.entries ≡ []) }
    ensures counts { IfErr result (λ s. s.history.faults ≡ []) }
    ensures memory { IfErr result (λ s. s.ending ≡ Memory) }
    ensures same { IfErr result (λ s.
        (map D.seen s.disks.items ≡ bare_disks (attached_seen D.seen placed.attached).disks)
        × (option_map D.seen s.swap ≡ (attached_seen D.seen placed.attached).swap)) }
{
    let Placed { attached, files } = placed;
    let Attached {
        disks,
        tables: _,
        swap,
        numbered,
        back,
    } = attached;
    let disks = number_disks(disks, numbered);
    let swap = into_swap(swap);
    let Ok(processes) = take_processes(alloc, plan) else {
        return Err(without_memory(disks, swap, back));
    };
    let amounts = amounts_of(plan.setup());
    let seats = plan.kernel_parents().len() as u32 + 1;
    let setup = Setup {
        frames: amounts.frames,
        translations: amounts.translations,
        slots: amounts.slots,
        disks,
        swap,
        files,
        parents: processes.parents,
        entries: processes.entries,
        seats,
    };
    match VmState::start(alloc, setup) {
        Ok(state) => Ok(Started {
            state,
            rooms: processes.rooms,
            back,
        }),
        Err(setup) => Err(without_memory(setup.disks, setup.swap, back)),
    }
}
