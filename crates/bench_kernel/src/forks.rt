//! Forks: one process fills private pages, and then forks one child after another, each of which
//! stores into some pages, loads some, and ends.
ghost use Rattle.std.specs.Prelude.{◌≡◌, ◌+◌, ◌≤◌, IfOk, length};
ghost use Rattle.block_device.specs.MemDiskLook.{look};
ghost use Rattle.block_device.specs.MemSeen.{disk_of};

use crate::machine::Machine;
use crate::numbers::number;
use block_device::MemDisk;
use std::alloc::{AllocError, Global};
use std::env::Args;
use vm_core::{Call, Setup, VmState};
use vm_types::{Kind, Object, Place, Prot};
use vnode_files::Files;

// Of each child process 1 is the parent; that one has none.
fn parents(alloc: Global, children: u32) -> Result<Vec<u32>, AllocError>
    requires { children ≤ 63 }
    ensures { IfOk result (λ parents. length parents.items ≡ children + 1) }
{
    let mut parents = vec![in alloc; 1u32; children as usize + 1]?;
    parents[0] = 0;
    Ok(parents)
}

// At most 256 entries of each process.
fn most_entries(alloc: Global, processes: u32) -> Result<Vec<u32>, AllocError>
    ensures { IfOk result (λ entries. length entries.items ≡ processes) }
{
    vec![in alloc; 256u32; processes as usize]
}

// A disk of so many blocks of zeros.
fn swap_disk(alloc: Global, blocks: u32) -> Result<MemDisk, AllocError>
    ensures { IfOk result (λ disk. (disk_of (look disk)).size ≡ blocks) }
{
    MemDisk::new(alloc, blocks, Vec::new(alloc))
}

// Memory for the pages of one process and of a child, and more.
fn started(alloc: Global, children: u32) -> Result<Machine, AllocError>
    requires { children ≤ 63 }
{
    let setup = Setup {
        frames: 4096,
        translations: 8192,
        slots: 65536,
        disks: Vec::new(alloc),
        swap: Some(swap_disk(alloc, 65536)?),
        files: Files::new(alloc),
        parents: parents(alloc, children)?,
        entries: most_entries(alloc, children + 1)?,
        seats: children + 1,
    };
    match VmState::start(alloc, setup) {
        Ok(state) => Ok(Machine::new(state, children + 1)),
        Err(_) => Err(AllocError),
    }
}

const FIRST: u32 = 0x100_0000;

// What is done.
#[derive(Clone, Copy)]
struct Task {
    /// Pages that process 1 fills.
    pages: u32,
    /// How many children are born.
    children: u32,
    /// Pages that each stores into, and that it loads.
    stores: u32,
    loads: u32,
}

// The address of a page: behind the last of 64 comes the first again.
fn address(page: u32) -> u32 {
    FIRST + 4096 * (page % 64)
}

// Stores into so many pages from this one on.
fn store_each(machine: &mut Machine, seat: u32, from: u32, pages: u32) {
    for page in 0..pages {
        machine.make(
            seat,
            &Call::Store {
                addr: address(from.wrapping_add(page)),
                size: 4,
                value: page,
            },
        );
    }
}

fn load_each(machine: &mut Machine, seat: u32, pages: u32) {
    for page in 0..pages {
        machine.make(
            seat,
            &Call::Load {
                addr: address(page),
                size: 4,
            },
        );
    }
}

// One child is born, has its pages, and ends.
fn bear(machine: &mut Machine, child: u32, task: Task)
    requires { child ≤ 64 }
{
    machine.fork(child);
    let seat = child.saturating_sub(1);
    store_each(machine, seat, child, task.stores);
    load_each(machine, seat, task.loads);
    machine.make(seat, &Call::Exit);
}

// How many calls were done.
fn made(machine: &mut Machine, task: Task) -> u64
    requires { task.children ≤ 63 }
{
    machine.make(
        0,
        &Call::Map {
            place: Place::At(FIRST),
            length: 64 * 4096,
            prot: Prot::READ | Prot::WRITE,
            kind: Kind::Private,
            object: Object::NewZero,
            offset: 0,
        },
    );
    store_each(machine, 0, 0, task.pages);
    for child in 2..task.children + 2 {
        bear(machine, child, task);
    }
    machine.entries()
}

/// How many calls are done by a parent and its children, as the numbers say.
pub(crate) fn bear_each(alloc: Global, words: &mut Args) -> Result<u64, AllocError> {
    let task = Task {
        pages: number(words, 64, 64),
        children: number(words, 63, 63),
        stores: number(words, 0, 64),
        loads: number(words, 0, 64),
    };
    let mut machine = started(alloc, 63)?;
    Ok(made(&mut machine, task))
}
