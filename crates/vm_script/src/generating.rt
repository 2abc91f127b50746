//! The generated script.
ghost use Rattle.std.specs.Prelude.{◌≡◌, ◌<◌, ◌^◌, ◌+◌, IfOk, OnOk, Ok, length};
ghost use Rattle.vm_script.specs.Plans.{plan_of, empty_plan};
ghost use Rattle.vm_script.specs.Printed.{with_statements};
ghost use Rattle.vm_script.specs.Generated as generated;

use crate::byte_text::ByteText;
use crate::call_lines::UNKNOWN_FILE;
use crate::open_plan::Growing;
use crate::plan::{Plan, PlanAct, SetupAct};
use crate::plan_call::{KeptCall, PlanCall};
use crate::statement::Statement;
use bitflags::Flags;
use flat_model::{Kind, Object, Place, Prot};
use std::alloc::{AllocError, Global};

// The address of a word, which goes through 32 pages.
fn word_address(n: u32, k: u32) -> u32
    requires { k < 1000 }
    ensures { result ≡ generated.word_address n k }
{
    let page = (u64::from(n) + 5 * u64::from(k)) % 32;
    1_048_576 + 4096 * page as u32 + 4 * (k / 32)
}

// The address of the last word of a page.
fn page_end(j: u32) -> u32
    requires { j < 32 }
    ensures { result ≡ generated.page_end j }
{
    1_048_576 + 4096 * j + 4092
}

fn add_word_stores(growing: &mut Growing, line: u32, n: u32, i: u32) -> Result<(), AllocError>
    requires lines { line + 1000 < 2 ^ 32 }
    requires block { i < 8 }
    ensures new { OnOk result
        (growing.new ≡ with_statements growing.old line (generated.word_stores n i 1000)) }
{
    for k in 0..1000 {
        let kept = KeptCall::Store {
            addr: word_address(n, k),
            size: 4,
            value: k + i,
        };
        growing.add_line(line + k + 1, PlanAct::Call(PlanCall { kept }))?;
    }
    Ok(())
}

fn add_word_loads(growing: &mut Growing, line: u32, n: u32) -> Result<(), AllocError>
    requires lines { line + 1000 < 2 ^ 32 }
    ensures new { OnOk result
        (growing.new ≡ with_statements growing.old line (generated.word_loads n 1000)) }
{
    for k in 0..1000 {
        let kept = KeptCall::Load {
            addr: word_address(n, k),
            size: 4,
        };
        growing.add_line(line + k + 1, PlanAct::Call(PlanCall { kept }))?;
    }
    Ok(())
}

fn add_end_stores(growing: &mut Growing, line: u32) -> Result<(), AllocError>
    requires lines { line + 32 < 2 ^ 32 }
    ensures new { OnOk result
        (growing.new ≡ with_statements growing.old line (generated.end_stores 32)) }
{
    for j in 0..32 {
        let kept = KeptCall::Store {
            addr: page_end(j),
            size: 4,
            value: 1,
        };
        growing.add_line(line + j + 1, PlanAct::Call(PlanCall { kept }))?;
    }
    Ok(())
}

fn add_end_loads(growing: &mut Growing, line: u32) -> Result<(), AllocError>
    requires lines { line + 32 < 2 ^ 32 }
    ensures new { OnOk result
        (growing.new ≡ with_statements growing.old line (generated.end_loads 32)) }
{
    for j in 0..32 {
        let kept = KeptCall::Load {
            addr: page_end(j),
            size: 4,
        };
        growing.add_line(line + j + 1, PlanAct::Call(PlanCall { kept }))?;
    }
    Ok(())
}

fn read_write() -> Prot
    ensures { result ≡ record { 0 = 3 } }
{
    Prot::from_bits_retain(3)
}

fn add_head(alloc: Global, growing: &mut Growing, line: u32) -> Result<(), AllocError>
    requires lines { line + 3 < 2 ^ 32 }
    requires few { length growing.old.parents + 1 < 2 ^ 32 }
    ensures new { OnOk result
        (growing.new ≡ with_statements growing.old line generated.block_head) }
{
    growing.add(line + 1, Statement::Process)?;
    let (prot, offset) = (read_write(), 0);
    let place = Place::At(1_048_576);
    let (length, kind, object) = (131_072, Kind::Private, Object::NewZero);
    let kept = KeptCall::Map {
        place,
        length,
        prot,
        kind,
        object,
        offset,
    };
    growing.add_line(line + 1 + 1, PlanAct::Call(PlanCall { kept }))?;
    let place = Place::At(4_194_304);
    let (length, kind, object) = (32_768, Kind::Shared, Object::File(UNKNOWN_FILE));
    let kept = KeptCall::Map {
        place,
        length,
        prot,
        kind,
        object,
        offset,
    };
    let name = ByteText::new(alloc, b"f")?;
    growing.add_line(
        line + 1 + 1 + 1,
        PlanAct::Named {
            name,
            call: PlanCall { kept },
        },
    )
}

fn add_child(growing: &mut Growing, line: u32) -> Result<(), AllocError>
    requires lines { line + 66 < 2 ^ 32 }
    requires few { length growing.old.parents + 1 < 2 ^ 32 }
    ensures new { OnOk result
        (growing.new ≡ with_statements growing.old line generated.child_block) }
{
    growing.add(line + 1, Statement::Fork)?;
    add_end_stores(growing, line + 1)?;
    add_end_loads(growing, line + 33)?;
    growing.end(line + 65 + 1)
}

fn add_tail(
    alloc: Global,
    growing: &mut Growing,
    line: u32,
    n: u32,
    i: u32,
) -> Result<(), AllocError>
    requires lines { line + 4 < 2 ^ 32 }
    requires block { i < 8 }
    ensures new { OnOk result
        (growing.new ≡ with_statements growing.old line (generated.block_tail n i)) }
{
    let name = ByteText::new(alloc, b"f")?;
    let bytes = ByteText::new(alloc, &[0])?;
    let offset = 4096 * i + 4095;
    growing.add_line(
        line + 1,
        PlanAct::Write {
            name,
            file: UNKNOWN_FILE,
            offset,
            bytes,
        },
    )?;
    let addr = 4_194_304 + 4096 * i;
    growing.add_line(
        line + 1 + 1,
        PlanAct::Call(PlanCall {
            kept: KeptCall::Store {
                addr,
                size: 4,
                value: n,
            },
        }),
    )?;
    growing.add_line(
        line + 1 + 1 + 1,
        PlanAct::Call(PlanCall {
            kept: KeptCall::Load { addr, size: 4 },
        }),
    )?;
    growing.end(line + 1 + 1 + 1 + 1)
}

fn add_block(
    alloc: Global,
    growing: &mut Growing,
    line: u32,
    n: u32,
    i: u32,
) -> Result<(), AllocError>
    requires lines { line + 2105 < 2 ^ 32 }
    requires few { length growing.old.parents + 2 < 2 ^ 32 }
    requires block { i < 8 }
    ensures new { OnOk result
        (growing.new ≡ with_statements growing.old line (generated.generated_block n i)) }
{
    add_head(alloc, growing, line)?;
    add_word_stores(growing, line + 3, n, i)?;
    add_child(growing, line + 1003)?;
    add_word_loads(growing, line + 1069, n)?;
    add_end_loads(growing, line + 2069)?;
    add_tail(alloc, growing, line + 2101, n, i)
}

fn add_setup(alloc: Global, growing: &mut Growing) -> Result<(), AllocError>
    requires { growing.old ≡ empty_plan }
    ensures new { OnOk result
        (growing.new ≡ with_statements empty_plan 0 generated.generated_setup) }
{
    growing.add(1, Statement::Setup(SetupAct::Frames(24)))?;
    growing.add(2, Statement::Setup(SetupAct::Swap(512)))?;
    growing.add(3, Statement::Setup(SetupAct::Translations(64)))?;
    growing.add(
        4,
        Statement::Setup(SetupAct::Blank {
            disk: 0,
            blocks: 16,
        }),
    )?;
    let name = ByteText::new(alloc, b"f")?;
    let bytes = ByteText::new(alloc, b"")?;
    let file = SetupAct::File {
        name,
        writable: true,
        disk: 0,
        pages: 8,
        bytes,
    };
    growing.add(5, Statement::Setup(file))
}

/// The plan of the generated script of this number: what reading its text gives.
pub fn generate(alloc: Global, n: u32) -> Result<Plan, AllocError>
    ensures exact { IfOk result (λ plan. plan_of (generated.generated_text n) ≡ Ok plan) }
{
    let mut growing = Growing::new(alloc);
    add_setup(alloc, &mut growing)?;
    for i in 0..8 {
        add_block(alloc, &mut growing, 5 + 2105 * i, n, i)?;
    }
    Ok(growing.into_plan())
}
