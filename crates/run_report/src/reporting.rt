//! What a run tells between the opening part of a trace and the files.
ghost use Rattle.std.specs.Prelude.{◌≡◌, ◌≤◌, ◌++◌, ◌<◌, ◌^◌, [], length, All, IfErr, OnOk};
ghost use Rattle.volume_files.specs.vm_report.Report.{process_sections};
ghost use Rattle.volume_files.specs.vm_types.WellFormed.{IsWellFormed};
ghost use Rattle.volume_files.specs.stored_files.Texts.{Wrote};
ghost use Rattle.run_report.specs.AskedTexts.{before_sections, middle_text};
ghost use Rattle.run_report.specs.ReportEnds.{KeptBack, MiddleStops, UnlessEnded};

use command_line::Options;
use run_endings::Ending;
use std::alloc::{AllocError, Global};
use volume_files::{
    Entries, Plan, SectionsLeft, Sink, process_sections, summary, trace_entries, write_all,
};

// Adds the entries, where a trace is asked for, and the summary of a generated script.
fn begin_middle(options: &Options, history: &Entries, text: &mut Vec<u8>) -> Result<(), AllocError>
    requires few { length history.now < 2 ^ 32 }
    requires well_formed { All (λ e. IsWellFormed e.call) history.now }
    ensures new { OnOk result
        (text.new.items ≡ text.old.items ++ before_sections options.now history.now) }
{
    if options.trace {
        trace_entries(history, text)?;
    }
    match options.make {
        None => Ok(()),
        Some(number) => summary(number, history, text),
    }
}

/// Adds the entries, where a trace is asked for, and the process sections, or the summary of a generated script.
pub fn middle(
    options: &Options,
    plan: &Plan,
    history: &Entries,
    out: &mut Vec<u8>,
) -> Result<(), AllocError>
    requires few { length history.now < 2 ^ 32 }
    requires few_blocks { length plan.now.parents < 2 ^ 31 }
    requires well_formed { All (λ e. IsWellFormed e.call) history.now }
    ensures new { OnOk result
        (out.new.items ≡ out.old.items ++ middle_text options.now plan.now history.now) }
{
    begin_middle(options, history, out)?;
    if options.make.is_none() {
        process_sections(plan, history, out)?;
    }
    Ok(())
}

// Writes a text, which is empty then.
fn send<K: Sink>(text: &mut Vec<u8>, out: &mut K) -> Result<(), Ending>
    ensures ok { OnOk result (Wrote (K.seen out.old) (K.seen out.new) text.old.items) }
    ensures empty { OnOk result (text.new.items ≡ []) }
    ensures stop { IfErr result
        (MiddleStops text.old.items (K.seen out.old) (K.seen out.new)) }
    // Counts of faults.
    ensures later { (K.seen out.old).faults ≤ (K.seen out.new).faults }
    ensures steady { UnlessEnded result ((K.seen out.new).faults ≡ (K.seen out.old).faults) }
{
    match write_all(out, text) {
        Ok(()) => {
            text.clear();
            Ok(())
        }
        Err(_) => Err(Ending::Sink),
    }
}

// How long a text grows, about, before it is written.
const LONG: usize = 65_536;

// Writes a text that is long.
fn send_long<K: Sink>(text: &mut Vec<u8>, out: &mut K) -> Result<(), Ending>
    ensures ok { OnOk result
        (KeptBack (K.seen out.old) (K.seen out.new) text.old.items text.new.items) }
    ensures stop { IfErr result
        (MiddleStops text.old.items (K.seen out.old) (K.seen out.new)) }
    // Counts of faults.
    ensures later { (K.seen out.old).faults ≤ (K.seen out.new).faults }
    ensures steady { UnlessEnded result ((K.seen out.new).faults ≡ (K.seen out.old).faults) }
{
    if text.len() < LONG {
        return Ok(());
    }
    send(text, out)?;
    Ok(())
}

// Writes a text and the sections of all processes behind it, in pieces, but for what is left in the
// text.
fn write_sections<K: Sink>(
    plan: &Plan,
    history: &Entries,
    text: &mut Vec<u8>,
    out: &mut K,
) -> Result<(), Ending>
    requires few { length history.now < 2 ^ 32 }
    requires few_blocks { length plan.now.parents < 2 ^ 31 }
    requires well_formed { All (λ e. IsWellFormed e.call) history.now }
    ensures ok { OnOk result (KeptBack (K.seen out.old) (K.seen out.new)
        (text.old.items ++ process_sections plan.now history.now) text.new.items) }
    ensures stop { IfErr result
        (MiddleStops (text.old.items ++ process_sections plan.now history.now)
        (K.seen out.old) (K.seen out.new)) }
    // Counts of faults.
    ensures later { (K.seen out.old).faults ≤ (K.seen out.new).faults }
    ensures steady { UnlessEnded result ((K.seen out.new).faults ≡ (K.seen out.old).faults) }
{
    let Ok(mut left) = SectionsLeft::new(*text.allocator(), plan, history) else {
        return Err(Ending::Memory);
    };
    let mut more = true;
    while more {
        let Ok(added) = left.push_next(text) else {
            return Err(Ending::Memory);
        };
        more = added;
        match send_long(text, out) {
            Ok(()) => {}
            Err(ending) => return Err(ending),
        }
    }
    Ok(())
}

// Writes the sections of all processes behind a text, but for a generated script, and for what is
// left in the text.
fn write_asked<K: Sink>(
    options: &Options,
    plan: &Plan,
    history: &Entries,
    text: &mut Vec<u8>,
    out: &mut K,
) -> Result<(), Ending>
    requires few { length history.now < 2 ^ 32 }
    requires few_blocks { length plan.now.parents < 2 ^ 31 }
    requires well_formed { All (λ e. IsWellFormed e.call) history.now }
    requires begun { text.old.items ≡ before_sections options.now history.now }
    ensures ok { OnOk result (KeptBack (K.seen out.old) (K.seen out.new)
        (middle_text options.now plan.now history.now) text.new.items) }
    ensures stop { IfErr result (MiddleStops (middle_text options.now plan.now history.now)
        (K.seen out.old) (K.seen out.new)) }
    // Counts of faults.
    ensures later { (K.seen out.old).faults ≤ (K.seen out.new).faults }
    ensures steady { UnlessEnded result ((K.seen out.new).faults ≡ (K.seen out.old).faults) }
{
    if options.make.is_some() {
        return Ok(());
    }
    write_sections(plan, history, text, out)
}

// Room for what is written at once, where no line is long and no trace is asked for. A longer text takes more as it grows.
const ROOM: usize = LONG + 256;

/// Writes the entries, where a trace is asked for, and the process sections, or the summary of a
/// generated script.
///
/// Memory: for the entries of a trace, which are written at once, or for some 64 KiB more than the
/// longest line has, and what `SectionsLeft` keeps.
pub fn write_middle<K: Sink>(
    alloc: Global,
    options: &Options,
    plan: &Plan,
    history: &Entries,
    out: &mut K,
) -> Result<(), Ending>
    requires few { length history.now < 2 ^ 32 }
    requires few_blocks { length plan.now.parents < 2 ^ 31 }
    requires well_formed { All (λ e. IsWellFormed e.call) history.now }
    // The whole text, or why not.
    ensures ok { OnOk result (Wrote (K.seen out.old) (K.seen out.new)
        (middle_text options.now plan.now history.now)) }
    ensures stop { IfErr result (MiddleStops (middle_text options.now plan.now history.now)
        (K.seen out.old) (K.seen out.new)) }
    ensures later { (K.seen out.old).faults ≤ (K.seen out.new).faults }
    ensures steady { UnlessEnded result ((K.seen out.new).faults ≡ (K.seen out.old).faults) }
{
    let Ok(mut text) = Vec::with_capacity(alloc, ROOM) else {
        return Err(Ending::Memory);
    };
    if begin_middle(options, history, &mut text).is_err() {
        return Err(Ending::Memory);
    }
    write_asked(options, plan, history, &mut text, out)?;
    send(&mut text, out)
}
