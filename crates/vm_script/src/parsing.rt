//! Reads a script.
ghost use Rattle.std.specs.Prelude.{◌≡◌, ◌≤◌, ◌<◌, ◌^◌, ◌+◌, ◌==◌, false, length, IfOk, IfErr, IfSome, IfNone};
ghost use Rattle.vm_script.specs.Plans.{plan_of};
ghost use Rattle.vm_script.specs.ReadLines.{ReadsLine, FailsLine};

use crate::fault::{ReadError, ScriptFault, ScriptKind};
use crate::open_plan::Growing;
use crate::plan::{Plan, PlanAct};
use crate::plan_call::{KeptCall, PlanCall};
use crate::quick::{quick_load, quick_store};
use crate::splitting::split_line;
use crate::statements::statement_of;
use std::alloc::{AllocError, Global};

/// The most bytes that a script may have.
pub const MOST_BYTES: usize = 1_048_576;

// Reads a load or a store whose fields stand one space apart.
fn quick_line<'a>(
    growing: &mut Growing,
    line: u32,
    text: &'a [u8],
) -> Result<Option<&'a [u8]>, AllocError>
    requires inside { (growing.old.inside == 0) ≡ false }
    requires lines { line + 1 < 2 ^ 32 }
    ensures some { IfOk result (λ read. IfSome read (λ rest.
        ReadsLine line growing.old growing.new text.now rest.now)) }
    ensures none { IfOk result (λ read. IfNone read (growing.new ≡ growing.old)) }
{
    if let Some((addr, size, rest)) = quick_load(text) {
        growing.add_line(
            line + 1,
            PlanAct::Call(PlanCall {
                kept: KeptCall::Load { addr, size },
            }),
        )?;
        return Ok(Some(rest));
    }
    if let Some((addr, size, value, rest)) = quick_store(text) {
        growing.add_line(
            line + 1,
            PlanAct::Call(PlanCall {
                kept: KeptCall::Store { addr, size, value },
            }),
        )?;
        return Ok(Some(rest));
    }
    Ok(None)
}

// Reads a line by its fields.
fn exact_line<'a>(
    alloc: Global,
    growing: &mut Growing,
    line: u32,
    text: &'a [u8],
) -> Result<&'a [u8], ReadError>
    requires some { 1 ≤ length text.now }
    requires lines { line + 1 < 2 ^ 32 }
    requires few { length growing.old.parents + 1 < 2 ^ 32 }
    ensures ok { IfOk result (λ rest. ReadsLine line growing.old growing.new text.now rest.now) }
    ensures err { IfErr result (λ e. FailsLine line growing.old text.now e) }
{
    let split = split_line(text);
    let spot = growing.spot_of();
    let statement = statement_of(alloc, spot, split.plain, split.fields.as_slice())?;
    growing.add(line + 1, statement)?;
    Ok(split.rest)
}

// Reads the line in front of a text, and gives what follows it.
fn next_line<'a>(
    alloc: Global,
    growing: &mut Growing,
    line: u32,
    text: &'a [u8],
) -> Result<&'a [u8], ReadError>
    requires some { 1 ≤ length text.now }
    requires lines { line + 1 < 2 ^ 32 }
    requires few { length growing.old.parents + 1 < 2 ^ 32 }
    ensures ok { IfOk result (λ rest. ReadsLine line growing.old growing.new text.now rest.now) }
    ensures err { IfErr result (λ e. FailsLine line growing.old text.now e) }
{
    if growing.inside() != 0 {
        if let Some(rest) = quick_line(growing, line, text)? {
            return Ok(rest);
        }
    }
    exact_line(alloc, growing, line, text)
}

/// The plan that a script spells, or its first fault.
pub fn parse(alloc: Global, text: &[u8]) -> Result<Result<Plan, ScriptFault>, AllocError>
    ensures exact { IfOk result (λ read. read ≡ plan_of text.now) }
{
    if text.len() > MOST_BYTES {
        return Ok(Err(ScriptFault {
            line: 0,
            kind: ScriptKind::Long,
        }));
    }
    let mut growing = Growing::new(alloc);
    let mut line = 0;
    let mut left = text;
    while !left.is_empty() {
        left = match next_line(alloc, &mut growing, line, left) {
            Ok(rest) => rest,
            Err(ReadError::Memory) => return Err(AllocError),
            Err(ReadError::Fault(kind)) => return Ok(Err(ScriptFault {
                line: line + 1,
                kind,
            })),
        };
        line += 1;
    }
    if growing.inside() != 0 {
        return Ok(Err(ScriptFault {
            line: line + 1,
            kind: ScriptKind::Place,
        }));
    }
    Ok(Ok(growing.into_plan()))
}
