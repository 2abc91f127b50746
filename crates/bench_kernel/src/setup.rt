//! A kernel with a caller for each of its processes.
ghost use Rattle.std.specs.Prelude.{◌≡◌, ◌≤◌, IfOk};
ghost use Rattle.block_device.specs.MemDiskLook.{look};
ghost use Rattle.block_device.specs.MemSeen.{disk_of};
ghost use Rattle.bench_kernel.specs.Calls.{AllHaveCalls, AreFirstRooms, BeginsWith};

use block_device::MemDisk;
use std::alloc::{AllocError, Global};
use vm_core::{Setup, VmState};
use vm_kernel::caller::Caller;
use vm_kernel::kernel::VmKernel;
use vm_kernel::starting::Room;
use vnode_files::Files;

// The rooms of so many processes.
fn rooms_of(alloc: Global, processes: u32, entries: u32) -> Result<Vec<Room>, AllocError>
    requires { processes ≤ 8 }
    ensures { IfOk result (λ rooms. AreFirstRooms processes entries rooms.items) }
{
    let mut rooms = Vec::with_capacity(alloc, processes as usize)?;
    for process in 0..processes {
        rooms.push_reserved(Room {
            process: process + 1,
            entries,
        });
    }
    Ok(rooms)
}

// A swap disk of eight blocks.
fn new_swap(alloc: Global) -> Result<MemDisk, AllocError>
    ensures { IfOk result (λ disk. (disk_of (look disk)).size ≡ 8) }
{
    MemDisk::new(alloc, 8, Vec::new(alloc))
}

// A state of so many processes, each of which may make so many entries, and as many seats.
fn new_state(alloc: Global, processes: u32, entries: u32) -> Result<VmState<MemDisk>, AllocError>
    ensures { IfOk result (λ state. BeginsWith processes entries state) }
{
    let setup = Setup {
        frames: 16,
        translations: 16,
        slots: 8,
        disks: Vec::new(alloc),
        swap: Some(new_swap(alloc)?),
        files: Files::new(alloc),
        parents: vec![in alloc; 0u32; processes as usize]?,
        entries: vec![in alloc; entries; processes as usize]?,
        seats: processes,
    };
    match VmState::start(alloc, setup) {
        Ok(state) => Ok(state),
        Err(_) => Err(AllocError),
    }
}

/// A kernel of so many processes, each of which may make so many entries, and their callers.
pub(crate) fn started(
    alloc: Global,
    processes: u32,
    entries: u32,
) -> Result<(VmKernel<MemDisk>, Vec<Caller<MemDisk>>), AllocError>
    requires count { (1 ≤ processes) × (processes ≤ 8) }
    ensures { IfOk result (λ r. AllHaveCalls r.0 entries r.1.items) }
{
    let rooms = rooms_of(alloc, processes, entries)?;
    let state = new_state(alloc, processes, entries)?;
    match VmKernel::start(alloc, state, rooms.as_slice()) {
        Ok(started) => Ok(started),
        Err(_) => Err(AllocError),
    }
}
