//! A plan while it grows line by line.
ghost use Rattle.std.specs.Prelude.{◌≡◌, ◌+◌, ◌<◌, ◌^◌, ◌||◌, length, OnOk};
ghost use Rattle.vm_script.specs.Plans.{enclosing_block, with_line, with_new_block, with_statement, spot_of, empty_plan, plan_seen, gives_frames, gives_swap, gives_translations};

use crate::plan::{Plan, PlanAct, PlanLine, SetupAct, SetupLine};
use crate::plan_call::{KeptCall, PlanCall};
use crate::statement::{LineSpot, Statement};
use std::alloc::{AllocError, Global};
use std::marker::Model;

/// A plan as far as it is read, and the block that is open innermost, 0 outside blocks.
#[derive(Drop)]
pub struct Growing {
    setup: Vec<SetupLine>,
    lines: Vec<PlanLine>,
    parents: Vec<u32>,
    inside: u32,
    frames: bool,
    swap: bool,
    translations: bool,
}

impl Model for Growing {
    ghost use Rattle.vm_script.specs.Plans.{OpenPlan};
    ghost use Rattle.vm_script.specs.Growing.{open_plan_of, HasFlags};

    ghost Value = { OpenPlan };

    ghost view = { open_plan_of };

    ghost invariant = { HasFlags };
}

// The parent of a block, or 0.
fn enclosing_block(parents: &[u32], p: u32) -> u32
    ensures { result ≡ enclosing_block parents.now p }
{
    if p == 0 {
        return 0;
    }
    match parents.get((p - 1) as usize) {
        Some(parent) => *parent,
        None => 0,
    }
}

fn gives_frames(act: &SetupAct) -> bool
    ensures { result ≡ gives_frames act.now }
{
    matches!(act, SetupAct::Frames(_))
}

fn gives_swap(act: &SetupAct) -> bool
    ensures { result ≡ gives_swap act.now }
{
    matches!(act, SetupAct::Swap(_))
}

fn gives_translations(act: &SetupAct) -> bool
    ensures { result ≡ gives_translations act.now }
{
    matches!(act, SetupAct::Translations(_))
}

fn either(a: bool, b: bool) -> bool
    ensures { result ≡ (a || b) }
{
    a || b
}

impl Growing {
    /// The plan before the first line.
    pub fn new(alloc: Global) -> Growing
        ensures { result ≡ empty_plan }
    {
        Growing {
            setup: Vec::new(alloc),
            lines: Vec::new(alloc),
            parents: Vec::new(alloc),
            inside: 0,
            frames: false,
            swap: false,
            translations: false,
        }
    }

    /// The block that is open innermost, 0 outside blocks.
    #[inline(always)]
    pub fn inside(&self) -> u32
        ensures { result ≡ self.now.inside }
    {
        self.inside
    }

    /// Where the next line stands.
    pub fn spot_of(&self) -> LineSpot
        ensures { result ≡ spot_of self.now }
    {
        LineSpot {
            inside: self.inside != 0,
            opening: self.parents.is_empty(),
            frames: self.frames,
            swap: self.swap,
            translations: self.translations,
        }
    }

    /// Adds a line of the innermost block.
    #[inline(always)]
    pub fn add_line(&mut self, line: u32, act: PlanAct) -> Result<(), AllocError>
        ensures new { OnOk result (self.new ≡ with_line self.old line act) }
    {
        let process = self.inside;
        self.lines.push(PlanLine { line, process, act })?;
        Ok(())
    }

    #[tactic(auto, using(crate::proofs::Flags::has_setup_push))]
    fn add_setup(&mut self, line: u32, act: SetupAct) -> Result<(), AllocError>
        ensures new { OnOk result (self.new ≡ with_statement self.old line (Statement.Setup act)) }
    {
        let frames = either(self.frames, gives_frames(&act));
        let swap = either(self.swap, gives_swap(&act));
        let translations = either(self.translations, gives_translations(&act));
        self.setup.push(SetupLine { line, act })?;
        self.frames = frames;
        self.swap = swap;
        self.translations = translations;
        Ok(())
    }

    fn begin(&mut self, parent: u32) -> Result<(), AllocError>
        requires few { length self.old.parents + 1 < 2 ^ 32 }
        ensures new { OnOk result (self.new ≡ with_new_block self.old parent) }
    {
        self.parents.push(parent)?;
        self.inside = self.parents.len() as u32;
        Ok(())
    }

    fn fork(&mut self, line: u32) -> Result<(), AllocError>
        requires few { length self.old.parents + 1 < 2 ^ 32 }
        ensures new { OnOk result (self.new ≡ with_statement self.old line Statement.Fork) }
    {
        let parent = self.inside;
        let child = self.parents.len() as u32 + 1;
        self.add_line(
            line,
            PlanAct::Call(PlanCall {
                kept: KeptCall::Fork { child },
            }),
        )?;
        self.begin(parent)
    }

    /// Ends the innermost block.
    pub fn end(&mut self, line: u32) -> Result<(), AllocError>
        ensures new { OnOk result (self.new ≡ with_statement self.old line Statement.End) }
    {
        self.add_line(
            line,
            PlanAct::Call(PlanCall {
                kept: KeptCall::Exit,
            }),
        )?;
        self.inside = enclosing_block(&self.parents, self.inside);
        Ok(())
    }

    /// Adds what a line says.
    pub fn add(&mut self, line: u32, statement: Statement) -> Result<(), AllocError>
        requires few { length self.old.parents + 1 < 2 ^ 32 }
        ensures new { OnOk result (self.new ≡ with_statement self.old line statement) }
    {
        match statement {
            Statement::Nothing => Ok(()),
            Statement::Setup(act) => self.add_setup(line, act),
            Statement::Process => self.begin(0),
            Statement::Fork => self.fork(line),
            Statement::End => self.end(line),
            Statement::Own(act) => self.add_line(line, act),
        }
    }

    /// The plan.
    pub fn into_plan(self) -> Plan
        ensures { result ≡ plan_seen self }
    {
        Plan::new(self.setup, self.lines, self.parents)
    }
}
