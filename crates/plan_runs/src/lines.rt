//! The lines of a plan of one block, made on the kernel itself.
ghost use Rattle.std.specs.Prelude.{◌≡◌, ◌⊎◌, [], ◌∷◌, List, All, OnOk, OnErr, length};
ghost use mathlib.Core.List.{IsPrefix};
ghost use Rattle.volume_files.specs.flat_model.Told.{entries_of};
ghost use Rattle.volume_files.specs.vm_script.declared.plan.PlanLine.{PlanLine};
ghost use Rattle.volume_files.specs.vm_script.Told.{Spell};
ghost use Rattle.vm_core.specs.Calls.{TakesMemory};
ghost use Rattle.vm_core.specs.kernel_close.Finish.{FitsStill};
ghost use Rattle.vm_core.specs.vm_world.Events.{IsEvent};
ghost use Rattle.block_runs.specs.Conditions.{MayMakeLine};
ghost use Rattle.block_runs.specs.Lines.{IsCallLine, LineTakesMemory, NamesFile, own_of};
ghost use Rattle.block_runs.specs.Parts.{MakesParts, MayMakeParts};
ghost use Rattle.block_runs.specs.Rows.{IsOnWay, MakesLine, StopsForMemory};
ghost use Rattle.plan_runs.specs.Lines.{alone_caller, alone_kernel, AreOfOne};

use crate::making::make_call;
use block_runs::{bytes_in, cut_write};
use std::alloc::AllocError;
use vm_core::VmState;
use vm_types::next_part;
use volume_files::{Call, Disk, PlanAct, PlanLine};

// Makes a call to its end, a read or a write part by part. `bytes` are those of a write that are still to come.
fn make_parts<D: Disk>(
    state: &mut VmState<D>,
    frames: u32,
    call: &Call,
    bytes: &[u8],
) -> Result<(), AllocError>
    requires frames { length state.old.memory.world.store.frames ≡ frames }
    requires still { FitsStill state.old }
    requires alone { AreOfOne state.old.history }
    requires may { MayMakeParts (alone_kernel state.old)
        (alone_caller state.old state.old.history) call.now bytes.now }
    // The entries of the call's parts are those that came.
    ensures event { IsEvent 0 state.old None state.new None }
    ensures alone { AreOfOne state.new.history }
    ensures made { OnOk result (MakesParts (alone_caller state.old state.old.history)
        (alone_caller state.old state.new.history) call.now bytes.now) }
    // Or memory is wanting, at a call that takes some, and none came.
    ensures takes { OnErr result (TakesMemory call.now) }
    ensures err { OnErr result (state.new.history ≡ state.old.history) }
{
    let mut call = *call;
    let mut left = bytes;
    loop {
        let reply = make_call(state, frames, &call)?;
        let Some(next) = next_part(&call, &reply, left) else {
            return Ok(());
        };
        let (_, behind) = left.split_at(bytes_in(&next));
        left = behind;
        call = next;
    }
}

// Makes a line that names a file. Not inline, so that another line has no room for the parts of a write.
#[inline(never)]
fn make_named<D: Disk>(
    state: &mut VmState<D>,
    frames: u32,
    line: &PlanLine,
) -> Result<(), AllocError>
    requires frames { length state.old.memory.world.store.frames ≡ frames }
    requires still { FitsStill state.old }
    requires alone { AreOfOne state.old.history }
    requires line { IsCallLine line.now.act }
    requires named { NamesFile line.now.act }
    requires may { MayMakeLine (alone_kernel state.old)
        (alone_caller state.old state.old.history) line.now }
    // The line's entries are those that came.
    ensures event { IsEvent 0 state.old None state.new None }
    ensures alone { AreOfOne state.new.history }
    ensures made { OnOk result (MakesLine (alone_caller state.old state.old.history)
        (alone_caller state.old state.new.history) line.now) }
    // Or memory is wanting, at a line of a call that takes some, and none came.
    ensures takes { OnErr result (LineTakesMemory line.now.act) }
    ensures err { OnErr result (state.new.history ≡ state.old.history) }
{
    match &line.act {
        PlanAct::Named { call, .. } => make_parts(state, frames, &call.call(), &[]),
        PlanAct::Write {
            file,
            offset,
            bytes,
            ..
        } => {
            let (first, behind) = cut_write(*file, *offset, bytes.bytes());
            make_parts(state, frames, &first, behind)
        }
        PlanAct::Call(_) | PlanAct::Wait => unreachable!(),
    }
}

// Makes a line.
fn make_line<D: Disk>(
    state: &mut VmState<D>,
    frames: u32,
    line: &PlanLine,
) -> Result<(), AllocError>
    requires frames { length state.old.memory.world.store.frames ≡ frames }
    requires still { FitsStill state.old }
    requires alone { AreOfOne state.old.history }
    requires line { IsCallLine line.now.act }
    requires may { MayMakeLine (alone_kernel state.old)
        (alone_caller state.old state.old.history) line.now }
    // The line's entries are those that came.
    ensures event { IsEvent 0 state.old None state.new None }
    ensures alone { AreOfOne state.new.history }
    ensures made { OnOk result (MakesLine (alone_caller state.old state.old.history)
        (alone_caller state.old state.new.history) line.now) }
    // Or memory is wanting, at a line of a call that takes some, and none came.
    ensures takes { OnErr result (LineTakesMemory line.now.act) }
    ensures err { OnErr result (state.new.history ≡ state.old.history) }
{
    match &line.act {
        PlanAct::Call(call) => {
            make_call(state, frames, &call.call())?;
            Ok(())
        }
        _ => make_named(state, frames, line),
    }
}

/// Makes the lines of process 1. The error is want of memory, at a line of a call that takes some: neither it nor a line behind it
/// is made then.
pub fn make_lines<D: Disk>(
    state: &mut VmState<D>,
    frames: u32,
    lines: &[PlanLine],
) -> Result<(), AllocError>
    requires frames { length state.old.memory.world.store.frames ≡ frames }
    requires still { FitsStill state.old }
    requires none { state.old.history ≡ [] }
    requires plain { All (λ (l : PlanLine). IsCallLine l.act) lines.now }
    requires ready { (lines.now ≡ [])
        ⊎ IsOnWay (alone_kernel state.old) lines.now (alone_caller state.old []) [] 2 }
    // A front of the lines was made, and on Ok all.
    ensures event { IsEvent 0 state.old None state.new None }
    ensures alone { AreOfOne state.new.history }
    ensures front { (made : List PlanLine) × IsPrefix made (own_of 1 lines.now)
        × Spell made (entries_of state.new.history 1) }
    ensures all { OnOk result (Spell (own_of 1 lines.now) (entries_of state.new.history 1)) }
    ensures stopped { OnErr result (StopsForMemory (own_of 1 lines.now)
        (entries_of state.new.history 1)) }
{
    for line in lines {
        make_line(state, frames, line)?;
    }
    Ok(())
}
