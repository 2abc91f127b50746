//! The fields of a line, each with its own fault.
ghost use Rattle.std.specs.Prelude.{◌≡◌, IfOk, Bool};
ghost use Rattle.flat_model.specs.vm_types.Words.{IsWordSize};
ghost use Rattle.vm_script.specs.Reading.{IsReadAs};
ghost use Rattle.vm_script.specs.Statements as statements;

use crate::byte_text::ByteText;
use crate::fault::{ReadError, ScriptKind};
use crate::number::{bytes_of, is_file_name, number_of_field};
use bitflags::Flags;
use flat_model::{Kind, Place, Prot};
use std::alloc::Global;

pub fn need(kind: ScriptKind, holds: bool) -> Result<(), ReadError>
    ensures { IsReadAs (λ u. u) result (Rattle.vm_script.specs.Reading.need kind holds) }
{
    if holds {
        Ok(())
    } else {
        Err(ReadError::Fault(kind))
    }
}

pub fn number(field: &[u8]) -> Result<u32, ReadError>
    ensures { IsReadAs (λ n. n) result (statements.number field.now) }
{
    match number_of_field(field) {
        Some(n) => Ok(n),
        None => Err(ReadError::Fault(ScriptKind::Number)),
    }
}

pub fn name(alloc: Global, field: &[u8]) -> Result<ByteText, ReadError>
    ensures { IsReadAs (λ t. t) result (statements.name field.now) }
{
    if !is_file_name(field) {
        return Err(ReadError::Fault(ScriptKind::Name));
    }
    Ok(ByteText::new(alloc, field)?)
}

pub fn bytes(alloc: Global, field: &[u8]) -> Result<ByteText, ReadError>
    ensures { IsReadAs (λ t. t) result (statements.bytes field.now) }
{
    match bytes_of(alloc, field)? {
        Some(bytes) => Ok(ByteText::from_vec(bytes)),
        None => Err(ReadError::Fault(ScriptKind::Bytes)),
    }
}

#[tactic(auto, unfolding(crate::specs::Statements::size))]
pub fn size(field: &[u8]) -> Result<u32, ReadError>
    ensures exact { IsReadAs (λ n. n) result (statements.size field.now) }
    ensures size { IfOk result IsWordSize }
{
    let n = number(field)?;
    if n == 1 || n == 2 || n == 4 {
        Ok(n)
    } else {
        Err(ReadError::Fault(ScriptKind::Value))
    }
}

#[tactic(auto, unfolding(crate::specs::Statements::prot))]
pub fn prot(field: &[u8]) -> Result<Prot, ReadError>
    ensures { IsReadAs (λ p. p) result (statements.prot field.now) }
{
    if field == b"none".as_slice() {
        return Ok(Prot::empty());
    }
    if field == b"r".as_slice() {
        return Ok(Prot::READ);
    }
    if field == b"w".as_slice() {
        return Ok(Prot::WRITE);
    }
    if field == b"rw".as_slice() {
        return Ok(Prot::from_bits_retain(3));
    }
    Err(ReadError::Fault(ScriptKind::Value))
}

#[tactic(auto, unfolding(crate::specs::Statements::kind))]
pub fn kind(field: &[u8]) -> Result<Kind, ReadError>
    ensures { IsReadAs (λ k. k) result (statements.kind field.now) }
{
    if field == b"shared".as_slice() {
        return Ok(Kind::Shared);
    }
    if field == b"private".as_slice() {
        return Ok(Kind::Private);
    }
    Err(ReadError::Fault(ScriptKind::Value))
}

#[tactic(auto, unfolding(crate::specs::Statements::place))]
pub fn place(field: &[u8]) -> Result<Place, ReadError>
    ensures { IsReadAs (λ p. p) result (statements.place field.now) }
{
    if field == b"any".as_slice() {
        return Ok(Place::Any);
    }
    Ok(Place::At(number(field)?))
}

#[tactic(auto, unfolding(crate::specs::Statements::mode))]
pub fn mode(field: &[u8]) -> Result<bool, ReadError>
    ensures { IsReadAs (λ b. b) result (statements.mode field.now) }
{
    if field == b"ro".as_slice() {
        return Ok(false);
    }
    if field == b"rw".as_slice() {
        return Ok(true);
    }
    Err(ReadError::Fault(ScriptKind::Value))
}

#[tactic(auto, unfolding(crate::specs::Statements::join_form))]
pub fn join_form(field: &[u8]) -> Result<bool, ReadError>
    ensures { IsReadAs (λ b. b) result (statements.join_form field.now) }
{
    if field == b"stripe".as_slice() {
        return Ok(false);
    }
    if field == b"mirror".as_slice() {
        return Ok(true);
    }
    Err(ReadError::Fault(ScriptKind::Value))
}

#[tactic(auto, unfolding(crate::specs::Statements::path))]
pub fn path(alloc: Global, field: &[u8]) -> Result<ByteText, ReadError>
    ensures { IsReadAs (λ t. t) result (statements.path field.now) }
{
    need(ScriptKind::Value, field.len() <= 255)?;
    Ok(ByteText::new(alloc, field)?)
}

#[tactic(auto, unfolding(crate::specs::Statements::content))]
pub fn content(alloc: Global, field: &[u8]) -> Result<ByteText, ReadError>
    ensures { IsReadAs (λ t. t) result (statements.content field.now) }
{
    if field == b"-".as_slice() {
        return Ok(ByteText::from_vec(Vec::new(alloc)));
    }
    bytes(alloc, field)
}
