//! Calls on files that no other seat holds up.
ghost use Rattle.std.specs.Prelude.{◌≡◌, ℕ, IfOk, IsSome};
ghost use Rattle.seg_vn.specs.vm_types.Parts.{file_of_call};
ghost use Rattle.seg_vn.specs.vm_types.WellFormed.{IsInOneLine, IsWellFormed};
ghost use Rattle.seg_vn.specs.vm_types.declared.call.Call.TheVariants.{Read, Write, Truncate};
ghost use Rattle.seg_vn.specs.vm_world.Segments.{Spaces};
ghost use Rattle.seg_vn.specs.vm_world.Words.{memory, Fits, IsFit, IsKnown, TwoAreHome};
ghost use Rattle.file_calls.specs.Calls.{IsFileReply, ServesCall};

use crate::refused::{read_refusal, room_refusal};
use seg_map::{read_line, truncate, write_line};
use seg_vn::{Call, Disk, Reply, Wants, World};
use vm_types::Line;

/// A part of a read.
fn read<D: Disk>(world: &mut World<D>, file: u32, offset: u32, asked: u32) -> Result<Reply, Wants>
    requires home { TwoAreHome world.old.store }
    requires fits { IsFit world.old }
    requires noted { IsKnown world.old }
    ensures serves { (spaces : Spaces) (p : ℕ) → Fits world.old spaces
        → ServesCall (memory world.old spaces) (memory world.new spaces)
        world.old.pending world.new.pending p (Read file offset asked) result }
    ensures own { IfOk result (λ reply. IsFileReply reply (Read file offset asked)) }
    // What stays.
    ensures rest { world.new ≡ record world.old {
      store = world.new.store;
      hat = world.new.hat;
      pending = world.new.pending;
    } }
{
    if let Some(errno) = read_refusal(world, file) {
        return Ok(Reply::Refused(errno));
    }
    let line = read_line(world, file, offset, asked)?;
    Ok(Reply::Bytes(line))
}

/// A part of a write.
fn write<D: Disk>(
    world: &mut World<D>,
    file: u32,
    offset: u32,
    bytes: &Line,
) -> Result<Reply, Wants>
    requires line { IsInOneLine offset bytes.now }
    requires home { TwoAreHome world.old.store }
    requires fits { IsFit world.old }
    requires noted { IsKnown world.old }
    ensures serves { (spaces : Spaces) (p rest : ℕ) → Fits world.old spaces
        → ServesCall (memory world.old spaces) (memory world.new spaces)
        world.old.pending world.new.pending p (Write file offset bytes.now rest) result }
    ensures own { (rest : ℕ)
        → IfOk result (λ reply. IsFileReply reply (Write file offset bytes.now rest)) }
    // What stays.
    ensures rest { world.new ≡ record world.old {
      store = world.new.store;
      hat = world.new.hat;
      files = world.new.files;
      pending = world.new.pending;
    } }
{
    let end = offset as u64 + bytes.len() as u64;
    if let Some(errno) = room_refusal(world, file, end) {
        return Ok(Reply::Refused(errno));
    }
    write_line(world, file, offset, bytes)?;
    Ok(Reply::Done)
}

/// A Truncate.
fn cut<D: Disk>(world: &mut World<D>, file: u32, length: u32) -> Result<Reply, Wants>
    requires home { TwoAreHome world.old.store }
    requires fits { IsFit world.old }
    requires noted { IsKnown world.old }
    ensures serves { (spaces : Spaces) (p : ℕ) → Fits world.old spaces
        → ServesCall (memory world.old spaces) (memory world.new spaces)
        world.old.pending world.new.pending p (Truncate file length) result }
    ensures own { IfOk result (λ reply. IsFileReply reply (Truncate file length)) }
    // What stays.
    ensures rest { world.new ≡ record world.old {
      store = world.new.store;
      hat = world.new.hat;
      files = world.new.files;
    } }
{
    if let Some(errno) = room_refusal(world, file, length as u64) {
        return Ok(Reply::Refused(errno));
    }
    truncate(world, file, length)?;
    Ok(Reply::Done)
}

/// A call on a file, whatever seats have the files' calls.
pub(crate) fn serve<D: Disk>(world: &mut World<D>, call: &Call) -> Result<Reply, Wants>
    requires file { IsSome (file_of_call call.now) }
    requires formed { IsWellFormed call.now }
    requires home { TwoAreHome world.old.store }
    requires fits { IsFit world.old }
    requires noted { IsKnown world.old }
    ensures serves { (spaces : Spaces) (p : ℕ) → Fits world.old spaces
        → ServesCall (memory world.old spaces) (memory world.new spaces)
        world.old.pending world.new.pending p call.now result }
    ensures own { IfOk result (λ reply. IsFileReply reply call.now) }
    // What stays.
    ensures rest { world.new ≡ record world.old {
      store = world.new.store;
      hat = world.new.hat;
      files = world.new.files;
      pending = world.new.pending;
    } }
{
    match *call {
        Call::Read {
            file,
            offset,
            length,
        } => read(world, file, offset, length),
        Call::Write {
            file,
            offset,
            ref bytes,
            ..
        } => write(world, file, offset, bytes),
        Call::Truncate { file, length } => cut(world, file, length),
        _ => unreachable!(),
    }
}
