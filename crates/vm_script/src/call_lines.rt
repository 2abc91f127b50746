//! The lines of a block that make calls.
ghost use Rattle.std.specs.Prelude.{◌≡◌, ◌*◌, ◌^◌, map as over, nat_lt, IfOk};
ghost use Rattle.flat_model.specs.vm_types.Words.{IsWordSize};
ghost use Rattle.vm_script.specs.Reading.{IsReadAs};
ghost use Rattle.vm_script.specs.Statements as statements;

use crate::fault::{ReadError, ScriptKind};
use crate::fields::{bytes, kind, name, need, number, place, prot, size};
use crate::plan::PlanAct;
use crate::plan_call::{KeptCall, PlanCall};
use flat_model::{Kind, Object, Place, Prot};
use std::alloc::Global;

/// The number of a file of which only the name is known.
pub const UNKNOWN_FILE: u32 = 4_294_967_295;

#[tactic(auto, unfolding(crate::specs::Statements::load_line))]
pub fn load(args: &[&[u8]]) -> Result<PlanAct, ReadError>
    ensures { IsReadAs (λ a. a) result (statements.load_line (over (λ f. f.now) args.now)) }
{
    let [a, s] = args else {
        return Err(ReadError::Fault(ScriptKind::Count));
    };
    let addr = number(a)?;
    let size = size(s)?;
    Ok(PlanAct::Call(PlanCall {
        kept: KeptCall::Load { addr, size },
    }))
}

/// Whether the value fits the word.
#[inline(always)]
pub fn fits_word(size: u32, value: u32) -> bool
    requires { IsWordSize size }
    ensures { result ≡ nat_lt value (2 ^ (8 * size)) }
{
    match size {
        1 => value < 256,
        2 => value < 65_536,
        _ => true,
    }
}

#[tactic(auto, unfolding(crate::specs::Statements::store_line))]
pub fn store(args: &[&[u8]]) -> Result<PlanAct, ReadError>
    ensures { IsReadAs (λ a. a) result (statements.store_line (over (λ f. f.now) args.now)) }
{
    let [a, s, v] = args else {
        return Err(ReadError::Fault(ScriptKind::Count));
    };
    let addr = number(a)?;
    let size = size(s)?;
    let value = number(v)?;
    if !fits_word(size, value) {
        return Err(ReadError::Fault(ScriptKind::Value));
    }
    Ok(PlanAct::Call(PlanCall {
        kept: KeptCall::Store { addr, size, value },
    }))
}

#[tactic(auto, unfolding(crate::specs::Statements::map_object))]
fn map_object(
    alloc: Global,
    place: Place,
    length: u32,
    prot: Prot,
    kind: Kind,
    shown: &[u8],
    o: &[u8],
) -> Result<PlanAct, ReadError>
    ensures { IsReadAs (λ a. a) result
        (statements.map_object place length prot kind shown.now o.now) }
{
    if shown == b"zero".as_slice() {
        let offset = number(o)?;
        let object = Object::NewZero;
        return Ok(PlanAct::Call(PlanCall {
            kept: KeptCall::Map {
                place,
                length,
                prot,
                kind,
                object,
                offset,
            },
        }));
    }
    let name = name(alloc, shown)?;
    let offset = number(o)?;
    let object = Object::File(UNKNOWN_FILE);
    let kept = KeptCall::Map {
        place,
        length,
        prot,
        kind,
        object,
        offset,
    };
    Ok(PlanAct::Named {
        name,
        call: PlanCall { kept },
    })
}

#[tactic(auto, unfolding(crate::specs::Statements::map_of))]
fn map_of(
    alloc: Global,
    a: &[u8],
    l: &[u8],
    p: &[u8],
    k: &[u8],
    shown: &[u8],
    o: &[u8],
) -> Result<PlanAct, ReadError>
    ensures { IsReadAs (λ a. a) result (statements.map_of a.now l.now p.now k.now shown.now o.now) }
{
    let place = place(a)?;
    let length = number(l)?;
    let prot = prot(p)?;
    let kind = kind(k)?;
    map_object(alloc, place, length, prot, kind, shown, o)
}

#[tactic(auto, unfolding(crate::specs::Statements::map_line))]
pub fn map(alloc: Global, args: &[&[u8]]) -> Result<PlanAct, ReadError>
    ensures { IsReadAs (λ a. a) result (statements.map_line (over (λ f. f.now) args.now)) }
{
    let [a, l, p, k, shown, o] = args else {
        return Err(ReadError::Fault(ScriptKind::Count));
    };
    map_of(alloc, a, l, p, k, shown, o)
}

#[tactic(auto, unfolding(crate::specs::Statements::unmap_line))]
pub fn unmap(args: &[&[u8]]) -> Result<PlanAct, ReadError>
    ensures { IsReadAs (λ a. a) result (statements.unmap_line (over (λ f. f.now) args.now)) }
{
    let [a, l] = args else {
        return Err(ReadError::Fault(ScriptKind::Count));
    };
    let addr = number(a)?;
    let length = number(l)?;
    Ok(PlanAct::Call(PlanCall {
        kept: KeptCall::Unmap { addr, length },
    }))
}

#[tactic(auto, unfolding(crate::specs::Statements::sync_line))]
pub fn sync(args: &[&[u8]]) -> Result<PlanAct, ReadError>
    ensures { IsReadAs (λ a. a) result (statements.sync_line (over (λ f. f.now) args.now)) }
{
    let [a, l] = args else {
        return Err(ReadError::Fault(ScriptKind::Count));
    };
    let addr = number(a)?;
    let length = number(l)?;
    Ok(PlanAct::Call(PlanCall {
        kept: KeptCall::Sync { addr, length },
    }))
}

#[tactic(auto, unfolding(crate::specs::Statements::protect_of))]
fn protect_of(a: &[u8], l: &[u8], p: &[u8]) -> Result<PlanAct, ReadError>
    ensures { IsReadAs (λ a. a) result (statements.protect_of a.now l.now p.now) }
{
    let addr = number(a)?;
    let length = number(l)?;
    let prot = prot(p)?;
    Ok(PlanAct::Call(PlanCall {
        kept: KeptCall::Protect { addr, length, prot },
    }))
}

#[tactic(auto, unfolding(crate::specs::Statements::protect_line))]
pub fn protect(args: &[&[u8]]) -> Result<PlanAct, ReadError>
    ensures { IsReadAs (λ a. a) result (statements.protect_line (over (λ f. f.now) args.now)) }
{
    let [a, l, p] = args else {
        return Err(ReadError::Fault(ScriptKind::Count));
    };
    protect_of(a, l, p)
}

#[tactic(auto, unfolding(crate::specs::Statements::read_of))]
fn read_of(alloc: Global, n: &[u8], o: &[u8], l: &[u8]) -> Result<PlanAct, ReadError>
    ensures { IsReadAs (λ a. a) result (statements.read_of n.now o.now l.now) }
{
    let name = name(alloc, n)?;
    let offset = number(o)?;
    let length = number(l)?;
    need(ScriptKind::Value, 1 <= length && length <= 65_536)?;
    let kept = KeptCall::Read {
        file: UNKNOWN_FILE,
        offset,
        length,
    };
    Ok(PlanAct::Named {
        name,
        call: PlanCall { kept },
    })
}

#[tactic(auto, unfolding(crate::specs::Statements::read_call_line))]
pub fn read(alloc: Global, args: &[&[u8]]) -> Result<PlanAct, ReadError>
    ensures { IsReadAs (λ a. a) result (statements.read_call_line (over (λ f. f.now) args.now)) }
{
    let [n, o, l] = args else {
        return Err(ReadError::Fault(ScriptKind::Count));
    };
    read_of(alloc, n, o, l)
}

#[tactic(auto, unfolding(crate::specs::Statements::write_of))]
fn write_of(alloc: Global, n: &[u8], o: &[u8], b: &[u8]) -> Result<PlanAct, ReadError>
    ensures { IsReadAs (λ a. a) result (statements.write_of n.now o.now b.now) }
{
    let name = name(alloc, n)?;
    let offset = number(o)?;
    let bytes = bytes(alloc, b)?;
    Ok(PlanAct::Write {
        name,
        file: UNKNOWN_FILE,
        offset,
        bytes,
    })
}

#[tactic(auto, unfolding(crate::specs::Statements::write_line))]
pub fn write(alloc: Global, args: &[&[u8]]) -> Result<PlanAct, ReadError>
    ensures { IsReadAs (λ a. a) result (statements.write_line (over (λ f. f.now) args.now)) }
{
    let [n, o, b] = args else {
        return Err(ReadError::Fault(ScriptKind::Count));
    };
    write_of(alloc, n, o, b)
}

#[tactic(auto, unfolding(crate::specs::Statements::truncate_line))]
pub fn truncate(alloc: Global, args: &[&[u8]]) -> Result<PlanAct, ReadError>
    ensures { IsReadAs (λ a. a) result (statements.truncate_line (over (λ f. f.now) args.now)) }
{
    let [n, l] = args else {
        return Err(ReadError::Fault(ScriptKind::Count));
    };
    let name = name(alloc, n)?;
    let length = number(l)?;
    let kept = KeptCall::Truncate {
        file: UNKNOWN_FILE,
        length,
    };
    Ok(PlanAct::Named {
        name,
        call: PlanCall { kept },
    })
}
