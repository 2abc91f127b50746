//! The lines of a block and of those within it.
ghost use Rattle.std.specs.Prelude.{◌≡◌, ◌<◌, ◌^◌, ◌++◌, ◌==◌, ◌&&◌};
ghost use Rattle.vm_script.specs.flat_model.Births.{is_done};
ghost use Rattle.block_runs.specs.Lines.{from_own, behind_end, ends_in, first_process, is_end, step_of};

use vm_script::{Call, PlanAct, PlanLine, Reply};

/// The lines up to the first one of the process, and those from it on.
pub fn parted(lines: &[PlanLine], process: u32) -> (&[PlanLine], &[PlanLine])
    ensures whole { result.0.now ++ result.1.now ≡ lines.now }
    ensures from { result.1.now ≡ from_own process lines.now }
{
    let mut left = lines;
    while let Some((line, rest)) = left.split_first() {
        if line.process == process {
            break;
        }
        left = rest;
    }
    lines.split_at(lines.len() - left.len())
}

fn is_end(act: &PlanAct) -> bool
    ensures { result ≡ is_end act.now }
{
    match act {
        PlanAct::Call(call) => matches!(call.call(), Call::Exit),
        _ => false,
    }
}

/// Whether the line is the process's end.
fn is_end_of(line: &PlanLine, process: u32) -> bool
    ensures { result ≡ ((line.now.process == process) && is_end line.now.act) }
{
    line.process == process && is_end(&line.act)
}

/// The lines up to the process's end, and those behind it.
pub fn ended(lines: &[PlanLine], process: u32) -> (&[PlanLine], &[PlanLine])
    ensures whole { result.0.now ++ result.1.now ≡ lines.now }
    ensures behind { result.1.now ≡ behind_end process lines.now }
{
    let mut left = lines;
    while let Some((line, rest)) = left.split_first() {
        if is_end_of(line, process) {
            return lines.split_at(lines.len() - rest.len());
        }
        left = rest;
    }
    lines.split_at(lines.len())
}

/// The process of the first line.
pub fn first_process(lines: &[PlanLine]) -> u32
    ensures { result ≡ first_process lines.now }
{
    match lines.split_first() {
        Some((line, _)) => line.process,
        None => 0,
    }
}

/// How many blocks end in these lines.
pub fn ends_in(lines: &[PlanLine]) -> u32
    requires { ends_in lines.now < 2 ^ 32 }
    ensures { result ≡ ends_in lines.now }
{
    let mut count = 0;
    let mut left = lines;
    while let Some((line, rest)) = left.split_first() {
        if is_end(&line.act) {
            count += 1;
        }
        left = rest;
    }
    count
}

/// How a block goes on at a line.
#[derive(Clone, Copy)]
pub enum Step {
    /// It waits for its children.
    Wait,
    /// It forks a child.
    Fork,
    /// It makes the line.
    Line,
}

/// How a block goes on at this line.
pub fn step_of(act: &PlanAct) -> Step
    ensures { result ≡ step_of act.now }
{
    match act {
        PlanAct::Wait => Step::Wait,
        PlanAct::Call(call) => match call.call() {
            Call::Fork { .. } => Step::Fork,
            _ => Step::Line,
        },
        _ => Step::Line,
    }
}

/// Whether the reply is Done.
pub fn is_done(reply: &Reply) -> bool
    ensures { result ≡ is_done reply.now }
{
    matches!(reply, Reply::Done)
}
