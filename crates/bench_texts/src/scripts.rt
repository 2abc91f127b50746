//! The history that answers each line of a script at once, and its report.

use std::alloc::{AllocError, Global};
use vm_report::{
    Call, Entries, Entry, Errno, Place, Plan, PlanAct, PlanLine, Reply, are_well_formed,
    process_sections,
};

/// An answer to the call.
fn reply_to(call: &Call) -> Reply {
    match call {
        Call::Load { .. } => Reply::Word(0x65),
        Call::Map {
            place: Place::At(addr),
            ..
        } => Reply::Mapped(*addr),
        Call::Map { .. } => Reply::Mapped(0x1000),
        Call::Read { .. } => Reply::Refused(Errno::NoObject),
        _ => Reply::Done,
    }
}

/// Adds the entry of a line; a wait has none, nor has a write, which would be done in parts.
fn add_entry(history: &mut Entries, line: &PlanLine) -> Result<(), AllocError> {
    let call = match &line.act {
        PlanAct::Call(call) => call.call(),
        PlanAct::Named { call, .. } => call.call(),
        _ => return Ok(()),
    };
    let reply = reply_to(&call);
    let process = line.process;
    history.push(&Entry {
        process,
        call,
        reply,
        cleared: 0,
    })
}

/// The history that answers each line of a plan at once.
pub(crate) fn history_of(alloc: Global, plan: &Plan) -> Result<Entries, AllocError> {
    let mut history = Entries::new(alloc);
    for line in plan.lines() {
        add_entry(&mut history, line)?;
    }
    Ok(history)
}

/// The sections of a plan with this history.
pub(crate) fn report_of(
    alloc: Global,
    plan: &Plan,
    history: &Entries,
) -> Result<Vec<u8>, AllocError> {
    let mut out = Vec::new(alloc);
    let is_small = history.len() < 2_000_000 && plan.parents().len() < 2_000_000;
    if is_small && are_well_formed(history) {
        process_sections(plan, history, &mut out)?;
    }
    Ok(out)
}
