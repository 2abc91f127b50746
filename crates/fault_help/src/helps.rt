//! The line that explains the first fault of a script.
ghost use Rattle.std.specs.Prelude.{◌≡◌, ◌++◌, None, Some, IfOk, OnOk, Ok, Err, option_map};
ghost use Rattle.vm_script.specs.Rules.{broken_rule};
ghost use Rattle.fault_help.specs.Helps as helps;

use crate::rule_faults::{push_rule, rule_line};
use crate::script_faults::push_fault;
use crate::text::{push_number, push_text};
use std::alloc::{AllocError, Global};
use vm_script::{Plan, SetupAct, SetupLine, broken_rule, parse};

fn push_place(out: &mut Vec<u8>, name: &[u8], line: u32) -> Result<(), AllocError>
    ensures { OnOk result (out.new.items ≡ out.old.items ++ helps.place_of_help name.now line) }
{
    push_text(out, b"sunvm: ")?;
    push_text(out, name)?;
    if line == 0 {
        return push_text(out, b": ");
    }
    push_text(out, b":")?;
    push_number(out, line)?;
    push_text(out, b": ")
}

fn rule_help(alloc: Global, name: &[u8], plan: &Plan, rule: u32) -> Result<Vec<u8>, AllocError> {
    let mut help = Vec::new(alloc);
    push_place(&mut help, name, rule_line(plan.setup(), rule))?;
    push_rule(&mut help, plan, rule)?;
    push_text(&mut help, b"\n")?;
    Ok(help)
}

fn plan_help(alloc: Global, name: &[u8], plan: &Plan) -> Result<Option<Vec<u8>>, AllocError> {
    match broken_rule(plan) {
        Some(rule) => Ok(Some(rule_help(alloc, name, plan, rule)?)),
        None => Ok(None),
    }
}

/// The line that explains what is wrong with a script that is read under this name, its line feed with it: the script's first fault, else
/// the first set-up rule that it breaks by itself. None where there is neither.
///
/// Takes memory for the plan and for the line. Time: that of `parse`.
pub fn script_help(alloc: Global, name: &[u8], text: &[u8]) -> Result<Option<Vec<u8>>, AllocError> {
    match parse(alloc, text)? {
        Ok(plan) => plan_help(alloc, name, &plan),
        Err(fault) => {
            let mut help = Vec::new(alloc);
            push_place(&mut help, name, fault.line)?;
            push_fault(alloc, &mut help, text, fault)?;
            push_text(&mut help, b"\n")?;
            Ok(Some(help))
        }
    }
}

fn act_path(number: u32, act: &SetupAct) -> Option<&[u8]>
    ensures { option_map (λ p. p.now) result ≡ helps.act_path number act.now }
{
    match act {
        SetupAct::Path { disk, path } => {
            if *disk == number {
                return Some(path.bytes());
            }
            None
        }
        _ => None,
    }
}

fn setup_path(setup: &[SetupLine], number: u32) -> Option<&[u8]>
    ensures { option_map (λ p. p.now) result ≡ helps.setup_path setup.now number }
{
    let mut left = setup;
    while let [line, rest @ ..] = left {
        if let Some(path) = act_path(number, &line.act) {
            return Some(path);
        }
        left = rest;
    }
    None
}

/// The path that a script gives for the disk of this number, where it gives one.
///
/// Takes memory for the plan and for the path. Time: that of `parse`.
pub fn path_of_disk(alloc: Global, text: &[u8], number: u32) -> Result<Option<Vec<u8>>, AllocError>
    ensures { IfOk result (λ path. option_map (λ v. v.items) path
        ≡ helps.path_of_disk text.now number) }
{
    match parse(alloc, text)? {
        Ok(plan) => match setup_path(plan.setup(), number) {
            Some(path) => Ok(Some(Vec::from_slice(alloc, path)?)),
            None => Ok(None),
        },
        Err(_) => Ok(None),
    }
}
