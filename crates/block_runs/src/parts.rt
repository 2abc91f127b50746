//! Calls that are made to their end, a read or a write part by part.
ghost use Rattle.std.specs.Prelude.{◌≡◌, ◌≤◌, ◌<◌, ◌^◌, [], drop, length, OnOk, OnErr};
ghost use Rattle.vm_script.specs.vm_types.Parts.{first_write, part_bytes};
ghost use Rattle.vm_core.specs.Calls.{TakesMemory};
ghost use Rattle.block_runs.specs.Callers.{IsCaller, SeesMore};
ghost use Rattle.block_runs.specs.Parts.{MakesParts, MayMakeParts};

use crate::calls::Calls;
use std::alloc::AllocError;
use std::sync::Wait;
use vm_core::Disk;
use vm_kernel::caller::Caller;
use vm_script::Call;
use vm_types::{first_write, next_part};

/// How many bytes a part writes.
pub fn bytes_in(call: &Call) -> usize
    ensures { result ≡ length (part_bytes call.now) }
{
    match call {
        Call::Write { bytes, .. } => bytes.len() as usize,
        _ => 0,
    }
}

/// Makes a call to its end, a read or a write part by part. `bytes` are those of a write that are still to come. The error is want
/// of memory, at a call that takes some: nothing was made then.
pub(crate) fn make_parts<R: Wait, D: Disk, K: Calls<D>>(
    rt: &R,
    kernel: &K,
    caller: &mut Caller<D>,
    call: &Call,
    bytes: &[u8],
) -> Result<(), AllocError>
    requires caller { IsCaller (K.kernel kernel.now) caller.old }
    requires may { MayMakeParts (K.kernel kernel.now) caller.old call.now bytes.now }
    // It is between its calls again, and made the call's parts.
    ensures caller { IsCaller (K.kernel kernel.now) caller.new }
    ensures made { OnOk result (MakesParts caller.old caller.new call.now bytes.now) }
    // Or memory is wanting, and it made none.
    ensures takes { OnErr result (TakesMemory call.now) }
    ensures err { OnErr result (SeesMore caller.old caller.new []) }
{
    let mut call = *call;
    let mut left = bytes;
    for _ in rt.forever() {
        let reply = kernel.call(rt, caller, &call)?;
        let Some(next) = next_part(&call, &reply, left) else {
            return Ok(());
        };
        let (_, behind) = left.split_at(bytes_in(&next));
        left = behind;
        call = next;
    }
    unreachable!()
}

/// The first part of a write of these bytes, and the bytes behind it.
pub fn cut_write(file: u32, offset: u32, bytes: &[u8]) -> (Call, &[u8])
    requires some { 1 ≤ length bytes.now }
    requires number { length bytes.now < 2 ^ 32 }
    ensures first { result.0 ≡ first_write file offset bytes.now }
    ensures behind { result.1.now
        ≡ drop (length (part_bytes (first_write file offset bytes.now))) bytes.now }
{
    let first = first_write(file, offset, bytes);
    let (_, behind) = bytes.split_at(bytes_in(&first));
    (first, behind)
}
