//! The last line of a run is printed.
ghost use Rattle.std.specs.Prelude.{◌≡◌, ◌≤◌, ◌++◌, [], IsOk, OnOk};
ghost use Rattle.run_endings.specs.Ending.{last_line_of, opening_fault_line, refusal_line};
ghost use Rattle.run_endings.specs.LastLine.{IsConcluded};

use crate::ending::Ending;
use std::alloc::{AllocError, Global};
use volume_files::{
    DiskFault, OpenFault, Refusal, Sink, disk_fault, rack_fault, read_fault, script_fault,
    setup_fault, usage, volume_fault, write_all,
};

fn push_refusal(refusal: Refusal, text: &mut Vec<u8>) -> Result<(), AllocError>
    ensures { OnOk result (text.new.items ≡ text.old.items ++ refusal_line refusal) }
{
    match refusal {
        Refusal::Rule(rule) => setup_fault(rule, text),
        Refusal::Volume { disk, rule } => volume_fault(disk, rule, text),
    }
}

fn push_opening_fault(fault: &OpenFault, text: &mut Vec<u8>) -> Result<(), AllocError>
    ensures { OnOk result (text.new.items ≡ text.old.items ++ opening_fault_line fault.now) }
{
    match fault.counts() {
        Some((before, after)) => disk_fault(fault.disk(), before, after, text),
        None => rack_fault(fault.disk(), text),
    }
}

// Adds the line of an ending. It takes no memory for an ending that has none.
fn push_line(ending: &Ending, text: &mut Vec<u8>) -> Result<(), AllocError>
    ensures line { OnOk result (text.new.items ≡ text.old.items ++ last_line_of ending.now) }
    ensures none { last_line_of ending.now ≡ [] → IsOk result }
{
    match ending {
        Ending::Usage => text.extend_from_slice(usage()),
        Ending::NoScript(fault) => script_fault(fault, text),
        Ending::Refused(refusal) => push_refusal(*refusal, text),
        Ending::NotRead => text.extend_from_slice(read_fault()),
        Ending::Opening(fault) => push_opening_fault(fault, text),
        Ending::Showing(fault) => disk_fault(fault.disk, fault.before, fault.after, text),
        _ => Ok(()),
    }
}

// Prints the line of an ending, as far as the sink takes it; without memory for the line the ending is want of memory.
pub fn tell_ending<K: Sink>(alloc: Global, ending: Ending, out: &mut K) -> Ending
    ensures told { IsConcluded ending (K.seen out.old) (K.seen out.new) result }
    ensures later { (K.seen out.old).faults ≤ (K.seen out.new).faults }
{
    let mut text = Vec::new(alloc);
    match push_line(&ending, &mut text) {
        Ok(()) => {
            let _ = write_all(out, text.as_slice());
            ending
        }
        Err(_) => Ending::Memory,
    }
}
