//! What is said of a script that can't be run, and of faults.
ghost use Rattle.std.specs.Prelude.{◌≡◌, ◌++◌, OnOk};
ghost use Rattle.vm_report.specs.Faults as faults;

use crate::results::push_counts;
use crate::text::{end_line, push_number, push_text};
use std::alloc::AllocError;
use vm_script::{ScriptFault, ScriptKind};

/// The line of words that the command doesn't take.
pub fn usage() -> &'static [u8]
    ensures { result.now ≡ faults.usage_text }
{
    b"usage: sunvm [--trace] [--pageout N] [--make N]\n"
}

/// The line of a script that couldn't be read.
pub fn read_fault() -> &'static [u8]
    ensures { result.now ≡ faults.read_fault_text }
{
    b"script: read fault\n"
}

fn word_of_kind(kind: ScriptKind) -> &'static [u8]
    ensures { result.now ≡ faults.kind_word kind }
{
    match kind {
        ScriptKind::Long => b"long",
        ScriptKind::Byte => b"byte",
        ScriptKind::Word => b"word",
        ScriptKind::Place => b"place",
        ScriptKind::Count => b"count",
        ScriptKind::Number => b"number",
        ScriptKind::Name => b"name",
        ScriptKind::Bytes => b"bytes",
        ScriptKind::Value => b"value",
    }
}

/// Adds the line of a script that isn't in the grammar: its first bad line and what is wrong there.
pub fn script_fault(fault: &ScriptFault, out: &mut Vec<u8>) -> Result<(), AllocError>
    ensures new { OnOk result
        (out.new.items ≡ out.old.items ++ faults.script_fault_text fault.now) }
{
    push_text(out, b"script: line ")?;
    push_number(out, fault.line)?;
    push_text(out, b": ")?;
    push_text(out, word_of_kind(fault.kind))?;
    end_line(out)
}

/// Adds the line of a set-up rule that is broken.
pub fn setup_fault(rule: u32, out: &mut Vec<u8>) -> Result<(), AllocError>
    ensures new { OnOk result (out.new.items ≡ out.old.items ++ faults.setup_fault_text rule) }
{
    push_text(out, b"setup: rule ")?;
    push_number(out, rule)?;
    end_line(out)
}

/// Adds the line of a disk whose volume breaks a rule of volumes.
pub fn volume_fault(disk: u32, rule: u32, out: &mut Vec<u8>) -> Result<(), AllocError>
    ensures new { OnOk result
        (out.new.items ≡ out.old.items ++ faults.volume_fault_text disk rule) }
{
    push_text(out, b"setup: rule 9 disk ")?;
    push_number(out, disk)?;
    push_text(out, b" volume ")?;
    push_number(out, rule)?;
    end_line(out)
}

/// Adds the line of a disk's fault, with its counts of faults before and after.
pub fn disk_fault(disk: u32, before: u64, after: u64, out: &mut Vec<u8>) -> Result<(), AllocError>
    ensures new { OnOk result
        (out.new.items ≡ out.old.items ++ faults.disk_fault_text disk before after) }
{
    push_text(out, b"fault: disk ")?;
    push_counts(out, disk, before, after)?;
    end_line(out)
}

/// Adds the line of a disk that the rack didn't attach.
pub fn rack_fault(disk: u32, out: &mut Vec<u8>) -> Result<(), AllocError>
    ensures new { OnOk result (out.new.items ≡ out.old.items ++ faults.rack_fault_text disk) }
{
    push_text(out, b"fault: rack ")?;
    push_number(out, disk)?;
    end_line(out)
}
