//! The set-up lines.
ghost use Rattle.std.specs.Prelude.{◌≡◌, map};
ghost use Rattle.vm_script.specs.Reading.{IsReadAs};
ghost use Rattle.vm_script.specs.Statements as statements;

use crate::fault::{ReadError, ScriptKind};
use crate::fields::{content, join_form, mode, name, need, number, path};
use crate::plan::SetupAct;
use crate::statement::{LineSpot, Statement};
use std::alloc::Global;

fn amount(args: &[&[u8]]) -> Result<u32, ReadError>
    ensures { IsReadAs (λ n. n) result (statements.amount (map (λ f. f.now) args.now)) }
{
    let [n] = args else {
        return Err(ReadError::Fault(ScriptKind::Count));
    };
    number(n)
}

#[tactic(auto, unfolding(crate::specs::Statements::disk_setup))]
fn disk_setup(alloc: Global, d: &[u8], form: &[u8], x: &[u8]) -> Result<SetupAct, ReadError>
    ensures { IsReadAs (λ a. a) result (statements.disk_setup d.now form.now x.now) }
{
    let disk = number(d)?;
    if form == b"blank".as_slice() {
        let blocks = number(x)?;
        return Ok(SetupAct::Blank { disk, blocks });
    }
    if form == b"path".as_slice() {
        let path = path(alloc, x)?;
        return Ok(SetupAct::Path { disk, path });
    }
    Err(ReadError::Fault(ScriptKind::Value))
}

#[tactic(auto, unfolding(crate::specs::Statements::disk))]
fn disk(alloc: Global, args: &[&[u8]]) -> Result<SetupAct, ReadError>
    ensures { IsReadAs (λ a. a) result (statements.disk (map (λ f. f.now) args.now)) }
{
    let [d, form, x] = args else {
        return Err(ReadError::Fault(ScriptKind::Count));
    };
    disk_setup(alloc, d, form, x)
}

#[tactic(auto, unfolding(crate::specs::Statements::join_setup))]
fn join_setup(d: &[u8], form: &[u8], e: &[u8]) -> Result<SetupAct, ReadError>
    ensures { IsReadAs (λ a. a) result (statements.join_setup d.now form.now e.now) }
{
    let disk = number(d)?;
    let mirror = join_form(form)?;
    let other = number(e)?;
    Ok(SetupAct::Join {
        disk,
        other,
        mirror,
    })
}

#[tactic(auto, unfolding(crate::specs::Statements::join))]
fn join(args: &[&[u8]]) -> Result<SetupAct, ReadError>
    ensures { IsReadAs (λ a. a) result (statements.join (map (λ f. f.now) args.now)) }
{
    let [d, form, e] = args else {
        return Err(ReadError::Fault(ScriptKind::Count));
    };
    join_setup(d, form, e)
}

#[tactic(auto, unfolding(crate::specs::Statements::file_setup))]
fn file_setup(
    alloc: Global,
    n: &[u8],
    m: &[u8],
    d: &[u8],
    p: &[u8],
    b: &[u8],
) -> Result<SetupAct, ReadError>
    ensures { IsReadAs (λ a. a) result (statements.file_setup n.now m.now d.now p.now b.now) }
{
    let name = name(alloc, n)?;
    let writable = mode(m)?;
    let disk = number(d)?;
    let pages = number(p)?;
    let bytes = content(alloc, b)?;
    Ok(SetupAct::File {
        name,
        writable,
        disk,
        pages,
        bytes,
    })
}

#[tactic(auto, unfolding(crate::specs::Statements::file))]
fn file(alloc: Global, args: &[&[u8]]) -> Result<SetupAct, ReadError>
    ensures { IsReadAs (λ a. a) result (statements.file (map (λ f. f.now) args.now)) }
{
    let [n, m, d, p, b] = args else {
        return Err(ReadError::Fault(ScriptKind::Count));
    };
    file_setup(alloc, n, m, d, p, b)
}

// What a line of this word says that gives a disk or a file.
#[tactic(auto, unfolding(crate::specs::Statements::disk_statement))]
fn disk_statement(
    alloc: Global,
    spot: LineSpot,
    word: &[u8],
    args: &[&[u8]],
) -> Result<Statement, ReadError>
    ensures { IsReadAs (λ s. s) result
        (statements.disk_statement spot word.now (map (λ f. f.now) args.now)) }
{
    if word == b"disk".as_slice() {
        need(ScriptKind::Place, spot.opening)?;
        return Ok(Statement::Setup(disk(alloc, args)?));
    }
    if word == b"join".as_slice() {
        need(ScriptKind::Place, spot.opening)?;
        return Ok(Statement::Setup(join(args)?));
    }
    if word == b"file".as_slice() {
        need(ScriptKind::Place, spot.opening)?;
        return Ok(Statement::Setup(file(alloc, args)?));
    }
    Err(ReadError::Fault(ScriptKind::Word))
}

/// What a set-up line of this word says.
#[tactic(auto, unfolding(crate::specs::Statements::setup_statement))]
pub fn setup_statement(
    alloc: Global,
    spot: LineSpot,
    word: &[u8],
    args: &[&[u8]],
) -> Result<Statement, ReadError>
    ensures { IsReadAs (λ s. s) result
        (statements.setup_statement spot word.now (map (λ f. f.now) args.now)) }
{
    if word == b"frames".as_slice() {
        need(ScriptKind::Place, spot.opening && !spot.frames)?;
        return Ok(Statement::Setup(SetupAct::Frames(amount(args)?)));
    }
    if word == b"swap".as_slice() {
        need(ScriptKind::Place, spot.opening && !spot.swap)?;
        return Ok(Statement::Setup(SetupAct::Swap(amount(args)?)));
    }
    if word == b"translations".as_slice() {
        need(ScriptKind::Place, spot.opening && !spot.translations)?;
        return Ok(Statement::Setup(SetupAct::Translations(amount(args)?)));
    }
    disk_statement(alloc, spot, word, args)
}
