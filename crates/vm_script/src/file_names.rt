//! The names of a plan's lines as file numbers.
ghost use Rattle.std.specs.Prelude.{◌≡◌, ◌<◌, ◌^◌, map, length};
ghost use Rattle.vm_script.specs.FileNames as by_name;
ghost use Rattle.vm_script.specs.PlanCalls.{call_kept};

use crate::byte_text::ByteText;
use crate::plan::{PlanAct, PlanLine};
use crate::plan_call::{KeptCall, PlanCall};
use flat_model::Object;

// The first place of the name, or the old number where it isn't there.
fn file_number(names: &[ByteText], name: &ByteText, old: u32) -> u32
    requires few { length names.now < 2 ^ 32 }
    ensures { result ≡ by_name.file_number names.now name.now old }
{
    let mut place = 0;
    let mut left = names;
    while let [first, rest @ ..] = left {
        if first.bytes() == name.bytes() {
            return place;
        }
        place += 1;
        left = rest;
    }
    old
}

fn kept_with_file(names: &[ByteText], name: &ByteText, kept: KeptCall) -> KeptCall
    requires few { length names.now < 2 ^ 32 }
    ensures { call_kept result ≡ by_name.call_with_file names.now name.now (call_kept kept) }
{
    match kept {
        KeptCall::Map {
            place,
            length,
            prot,
            kind,
            object: Object::File(file),
            offset,
        } => {
            let object = Object::File(file_number(names, name, file));
            KeptCall::Map {
                place,
                length,
                prot,
                kind,
                object,
                offset,
            }
        }
        KeptCall::Read {
            file,
            offset,
            length,
        } => {
            KeptCall::Read {
                file: file_number(names, name, file),
                offset,
                length,
            }
        }
        KeptCall::Truncate { file, length } => {
            KeptCall::Truncate {
                file: file_number(names, name, file),
                length,
            }
        }
        other => other,
    }
}

fn set_call_file(names: &[ByteText], name: &ByteText, call: &mut PlanCall)
    requires few { length names.now < 2 ^ 32 }
    ensures { call.new ≡ by_name.call_with_file names.now name.now call.old }
{
    call.kept = kept_with_file(names, name, call.kept);
}

fn set_file(names: &[ByteText], act: &mut PlanAct)
    requires few { length names.now < 2 ^ 32 }
    ensures { act.new ≡ by_name.act_with_file names.now act.old }
{
    match act {
        PlanAct::Named { name, call } => set_call_file(names, name, call),
        PlanAct::Write { name, file, .. } => *file = file_number(names, name, *file),
        _ => {}
    }
}

/// IsReadAs a line's file its number.
pub fn set_line_file(names: &[ByteText], line: &mut PlanLine)
    requires few { length names.now < 2 ^ 32 }
    ensures { line.new ≡ by_name.line_with_file names.now line.old }
{
    set_file(names, &mut line.act);
}
