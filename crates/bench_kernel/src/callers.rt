//! Callers that load, each from a page of its own.
ghost use Rattle.std.specs.Prelude.{◌≡◌, ◌≤◌, ◌<◌, ◌+◌, ◌-◌, ◌^◌};
ghost use Rattle.vm_core.specs.vm_types.WellFormed.{IsWellFormed};
ghost use Rattle.bench_kernel.specs.Calls.{HasCalls, AllHaveCalls};
ghost use Rattle.test_threads.specs.Workers.{IsTurnCall};

use bitflags::Flags;
use block_device::MemDisk;
use std::sync::Wait;
use std::thread::{Threads, for_each_mut};
use vm_kernel::caller::Caller;
use vm_kernel::kernel::VmKernel;
use vm_types::{Call, Kind, Object, Place, Prot};

/// Where each process has its page.
const PAGE: u32 = 0x2000;

fn map_page() -> Call
    ensures { IsTurnCall result × IsWellFormed result }
{
    Call::Map {
        place: Place::At(PAGE),
        length: 0x1000,
        prot: Prot::READ.union(Prot::WRITE),
        kind: Kind::Private,
        object: Object::NewZero,
        offset: 0,
    }
}

// A call, to its end, of a caller that may make so many. Inline, since what is timed is the call.
#[inline(always)]
fn make<R: Wait>(
    rt: &R,
    kernel: &VmKernel<MemDisk>,
    caller: &mut Caller<MemDisk>,
    call: &Call,
    _left: u32,
)
    requires call { IsTurnCall call.now × IsWellFormed call.now }
    requires some { 0 < _left }
    requires ready { HasCalls kernel.now _left caller.old }
    ensures ready { HasCalls kernel.now (_left - 1) caller.new }
    ensures number { caller.new.seat.number ≡ caller.old.seat.number }
{
    match kernel.call(rt, caller, call) {
        Ok(_) | Err(_) => {}
    }
}

// So many loads.
fn load_times<R: Wait>(rt: &R, kernel: &VmKernel<MemDisk>, caller: &mut Caller<MemDisk>, loads: u32)
    requires ready { HasCalls kernel.now loads caller.old }
    ensures ready { HasCalls kernel.now 0 caller.new }
    ensures number { caller.new.seat.number ≡ caller.old.seat.number }
{
    let load = Call::Load {
        addr: PAGE,
        size: 4,
    };
    let mut left = loads;
    while left > 0 {
        make(rt, kernel, caller, &load, left);
        left -= 1;
    }
}

// Maps a page, stores into it, and loads from it so many times.
fn use_page<R: Wait>(rt: &R, kernel: &VmKernel<MemDisk>, caller: &mut Caller<MemDisk>, loads: u32)
    requires few { loads ≤ 2 ^ 20 }
    requires ready { HasCalls kernel.now (loads + 2) caller.old }
    ensures ready { HasCalls kernel.now 0 caller.new }
    ensures number { caller.new.seat.number ≡ caller.old.seat.number }
{
    make(rt, kernel, caller, &map_page(), loads + 2);
    let store = Call::Store {
        addr: PAGE,
        size: 4,
        value: 1,
    };
    make(rt, kernel, caller, &store, loads + 1);
    load_times(rt, kernel, caller, loads);
}

/// All callers do so, each on a thread of its own.
pub(crate) fn use_pages<R: Threads + Wait + Sync>(
    rt: &R,
    kernel: &VmKernel<MemDisk>,
    row: &mut [Caller<MemDisk>],
    loads: u32,
)
    requires few { loads ≤ 2 ^ 20 }
    requires ready { AllHaveCalls kernel.now (loads + 2) row.old }
    ensures { AllHaveCalls kernel.now 0 row.new }
{
    let threads = row.len().max(1);
    let work = |_place: usize, caller: &mut Caller<MemDisk>|
        requires { (loads ≤ 2 ^ 20) × HasCalls kernel.now (loads + 2) caller.now }
        ensures { HasCalls kernel.entry.now 0 caller.exit.now
            × (caller.exit.now.seat.number ≡ caller.entry.now.seat.number) }
    { use_page(rt, kernel, caller, loads) };
    for_each_mut(rt, row, threads, &work);
}
