//! What a line of a script says.
ghost use Rattle.std.specs.Prelude.{◌≡◌, map as over};
ghost use Rattle.vm_script.specs.Reading.{IsReadAs};
ghost use Rattle.vm_script.specs.Statements as statements;

use crate::call_lines::{load, map, protect, read, store, sync, truncate, unmap, write};
use crate::fault::{ReadError, ScriptKind};
use crate::fields::need;
use crate::plan::PlanAct;
use crate::setup_lines::setup_statement;
use crate::statement::{LineSpot, Statement};
use std::alloc::Global;

// A line of one word alone.
fn alone(args: &[&[u8]]) -> Result<(), ReadError>
    ensures { IsReadAs (λ u. u) result (statements.lone_word tt (over (λ f. f.now) args.now)) }
{
    if args.is_empty() {
        Ok(())
    } else {
        Err(ReadError::Fault(ScriptKind::Count))
    }
}

// What a line of this word says that begins a block, ends it or waits, or that gives a set-up.
#[tactic(auto, unfolding(crate::specs::Statements::block_statement))]
fn block_statement(
    alloc: Global,
    spot: LineSpot,
    word: &[u8],
    args: &[&[u8]],
) -> Result<Statement, ReadError>
    ensures { IsReadAs (λ s. s) result
        (statements.block_statement spot word.now (over (λ f. f.now) args.now)) }
{
    if word == b"wait".as_slice() {
        need(ScriptKind::Place, spot.inside)?;
        alone(args)?;
        return Ok(Statement::Own(PlanAct::Wait));
    }
    if word == b"process".as_slice() {
        need(ScriptKind::Place, !spot.inside)?;
        alone(args)?;
        return Ok(Statement::Process);
    }
    if word == b"fork".as_slice() {
        need(ScriptKind::Place, spot.inside)?;
        alone(args)?;
        return Ok(Statement::Fork);
    }
    if word == b"end".as_slice() {
        need(ScriptKind::Place, spot.inside)?;
        alone(args)?;
        return Ok(Statement::End);
    }
    setup_statement(alloc, spot, word, args)
}

// What a line of this word says that reads, writes or cuts a file, or that makes no call.
#[tactic(auto, unfolding(crate::specs::Statements::file_statement))]
fn file_statement(
    alloc: Global,
    spot: LineSpot,
    word: &[u8],
    args: &[&[u8]],
) -> Result<Statement, ReadError>
    ensures { IsReadAs (λ s. s) result
        (statements.file_statement spot word.now (over (λ f. f.now) args.now)) }
{
    if word == b"read".as_slice() {
        need(ScriptKind::Place, spot.inside)?;
        return Ok(Statement::Own(read(alloc, args)?));
    }
    if word == b"write".as_slice() {
        need(ScriptKind::Place, spot.inside)?;
        return Ok(Statement::Own(write(alloc, args)?));
    }
    if word == b"truncate".as_slice() {
        need(ScriptKind::Place, spot.inside)?;
        return Ok(Statement::Own(truncate(alloc, args)?));
    }
    block_statement(alloc, spot, word, args)
}

// What a line of this word says that makes, takes or changes a mapping, or that makes another call or none.
#[tactic(auto, unfolding(crate::specs::Statements::mapping_statement))]
fn mapping_statement(
    alloc: Global,
    spot: LineSpot,
    word: &[u8],
    args: &[&[u8]],
) -> Result<Statement, ReadError>
    ensures { IsReadAs (λ s. s) result
        (statements.mapping_statement spot word.now (over (λ f. f.now) args.now)) }
{
    if word == b"map".as_slice() {
        need(ScriptKind::Place, spot.inside)?;
        return Ok(Statement::Own(map(alloc, args)?));
    }
    if word == b"unmap".as_slice() {
        need(ScriptKind::Place, spot.inside)?;
        return Ok(Statement::Own(unmap(args)?));
    }
    if word == b"protect".as_slice() {
        need(ScriptKind::Place, spot.inside)?;
        return Ok(Statement::Own(protect(args)?));
    }
    if word == b"sync".as_slice() {
        need(ScriptKind::Place, spot.inside)?;
        return Ok(Statement::Own(sync(args)?));
    }
    file_statement(alloc, spot, word, args)
}

// What a line of this word says.
#[tactic(auto, unfolding(crate::specs::Statements::word_statement))]
fn word_statement(
    alloc: Global,
    spot: LineSpot,
    word: &[u8],
    args: &[&[u8]],
) -> Result<Statement, ReadError>
    ensures { IsReadAs (λ s. s) result
        (statements.word_statement spot word.now (over (λ f. f.now) args.now)) }
{
    if word == b"load".as_slice() {
        need(ScriptKind::Place, spot.inside)?;
        return Ok(Statement::Own(load(args)?));
    }
    if word == b"store".as_slice() {
        need(ScriptKind::Place, spot.inside)?;
        return Ok(Statement::Own(store(args)?));
    }
    mapping_statement(alloc, spot, word, args)
}

/// What a line says that stands at this spot, or its first fault.
#[tactic(auto, unfolding(crate::specs::Statements::statement))]
pub fn statement_of(
    alloc: Global,
    spot: LineSpot,
    plain: bool,
    fields: &[&[u8]],
) -> Result<Statement, ReadError>
    ensures { IsReadAs (λ s. s) result
        (statements.statement spot plain (over (λ f. f.now) fields.now)) }
{
    let [word, args @ ..] = fields else {
        return Ok(Statement::Nothing);
    };
    if let [b'#', ..] = word {
        return Ok(Statement::Nothing);
    }
    need(ScriptKind::Byte, plain)?;
    word_statement(alloc, spot, word, args)
}
