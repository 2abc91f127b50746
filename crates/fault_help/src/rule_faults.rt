//! What is said of a set-up rule that looks at a script alone, once it is broken.
ghost use Rattle.std.specs.Prelude.{◌≡◌, ◌++◌, OnOk, not, option_map};
ghost use Rattle.std.specs.List.{list_any};
ghost use Rattle.vm_script.specs.Plans as plans;
ghost use Rattle.vm_script.specs.Rules as rules;
ghost use Rattle.fault_help.specs.RuleTexts as texts;

use crate::text::{push_decimal, push_number, push_quoted, push_text};
use std::alloc::AllocError;
use vm_script::{ByteText, Plan, SetupAct, SetupLine, amounts_of};

fn is_frames_line(act: &SetupAct) -> bool
    ensures { result ≡ plans.gives_frames act.now }
{
    matches!(act, SetupAct::Frames(_))
}

fn frames_line(setup: &[SetupLine]) -> Option<&SetupLine>
    ensures { option_map (λ l. l.now) result ≡ texts.frames_line setup.now }
{
    setup.iter().find(|l| is_frames_line(&l.act))
}

fn is_swap_line(act: &SetupAct) -> bool
    ensures { result ≡ plans.gives_swap act.now }
{
    matches!(act, SetupAct::Swap(_))
}

fn swap_line(setup: &[SetupLine]) -> Option<&SetupLine>
    ensures { option_map (λ l. l.now) result ≡ texts.swap_line setup.now }
{
    setup.iter().find(|l| is_swap_line(&l.act))
}

fn is_translations_line(act: &SetupAct) -> bool
    ensures { result ≡ plans.gives_translations act.now }
{
    matches!(act, SetupAct::Translations(_))
}

fn translations_line(setup: &[SetupLine]) -> Option<&SetupLine>
    ensures { option_map (λ l. l.now) result ≡ texts.translations_line setup.now }
{
    setup.iter().find(|l| is_translations_line(&l.act))
}

fn is_given(disk: u32, act: &SetupAct) -> bool
    ensures { result ≡ rules.gives_disk disk act.now }
{
    match act {
        SetupAct::Blank { disk: given, .. } => *given == disk,
        SetupAct::Path { disk: given, .. } => *given == disk,
        _ => false,
    }
}

fn is_given_in(setup: &[SetupLine], disk: u32) -> bool
    ensures { result ≡ list_any (λ l. rules.gives_disk disk l.act) setup.now }
{
    setup.iter().any(|l| is_given(disk, &l.act))
}

fn is_wrong_disk(act: &SetupAct) -> bool
    ensures { result ≡ not (rules.is_right_disk act.now) }
{
    match act {
        SetupAct::Blank { disk, blocks } => *disk > 7 || *blocks < 2 || 16_384 < *blocks,
        SetupAct::Path { disk, .. } => *disk > 7,
        _ => false,
    }
}

fn is_given_again(act: &SetupAct, others: &[SetupLine]) -> bool
    ensures { result ≡ rules.gives_again act.now others.now }
{
    match act {
        SetupAct::Blank { disk, .. } => is_given_in(others, *disk),
        SetupAct::Path { disk, .. } => is_given_in(others, *disk),
        _ => false,
    }
}

fn wrong_disk_line(setup: &[SetupLine]) -> Option<&SetupLine>
    ensures { option_map (λ l. l.now) result ≡ texts.wrong_disk_line setup.now }
{
    let mut left = setup;
    while let [line, rest @ ..] = left {
        if is_wrong_disk(&line.act) || is_given_again(&line.act, rest) {
            return Some(line);
        }
        left = rest;
    }
    None
}

fn is_lacking(setup: &[SetupLine], act: &SetupAct) -> bool
    ensures { result ≡ rules.lacks_disk setup.now act.now }
{
    match act {
        SetupAct::File { disk, .. } => !is_given_in(setup, *disk),
        _ => false,
    }
}

fn lacking_line(setup: &[SetupLine]) -> Option<&SetupLine>
    ensures { option_map (λ l. l.now) result ≡ texts.lacking_line setup.now }
{
    setup.iter().find(|l| is_lacking(setup, &l.act))
}

fn is_of_wrong_pages(act: &SetupAct) -> bool
    ensures { result ≡ rules.is_wrong_file act.now }
{
    match act {
        SetupAct::File { pages, bytes, .. } => {
            *pages < 1 || 16_383 < *pages || *pages as usize * 4096 < bytes.bytes().len()
        }
        _ => false,
    }
}

fn pages_line(setup: &[SetupLine]) -> Option<&SetupLine>
    ensures { option_map (λ l. l.now) result ≡ texts.pages_line setup.now }
{
    setup.iter().find(|l| is_of_wrong_pages(&l.act))
}

fn rule_breaker(setup: &[SetupLine], rule: u32) -> Option<&SetupLine>
    ensures { option_map (λ l. l.now) result ≡ texts.rule_breaker setup.now rule }
{
    match rule {
        1 => frames_line(setup),
        2 => swap_line(setup),
        3 => translations_line(setup),
        4 => wrong_disk_line(setup),
        5 => lacking_line(setup),
        6 => pages_line(setup),
        _ => None,
    }
}

/// The number of the line that breaks a rule; 0 where none does by itself.
pub fn rule_line(setup: &[SetupLine], rule: u32) -> u32
    ensures { result ≡ texts.rule_line setup.now rule }
{
    match rule_breaker(setup, rule) {
        Some(line) => line.line,
        None => 0,
    }
}

fn is_disk_line(act: &SetupAct) -> bool
    ensures { result ≡ rules.gives_a_disk act.now }
{
    matches!(act, SetupAct::Blank { .. } | SetupAct::Path { .. })
}

fn disk_line_count(setup: &[SetupLine]) -> u64
    ensures { result ≡ rules.disk_line_count setup.now }
{
    let disks = setup.iter().filter(|l| is_disk_line(&l.act)).count();
    disks as u64 + if amounts_of(setup).slots == 0 { 0 } else { 1 }
}

fn push_disks(out: &mut Vec<u8>, count: u64) -> Result<(), AllocError>
    ensures { OnOk result (out.new.items ≡ out.old.items ++ texts.disks_text count) }
{
    push_decimal(out, count)?;
    push_text(out, if count == 1 { b" disk" } else { b" disks" })
}

fn push_frames(out: &mut Vec<u8>, setup: &[SetupLine]) -> Result<(), AllocError>
    ensures { OnOk result (out.new.items ≡ out.old.items ++ texts.frames_text setup.now) }
{
    let count = disk_line_count(setup);
    push_text(out, b"frames is ")?;
    push_number(out, amounts_of(setup).frames)?;
    push_text(out, b"; with ")?;
    push_disks(out, count)?;
    push_text(out, b" it has to be from ")?;
    push_decimal(out, count + 4)?;
    push_text(out, b" to 4096")
}

fn push_swap(out: &mut Vec<u8>, setup: &[SetupLine]) -> Result<(), AllocError> {
    push_text(out, b"swap is ")?;
    push_number(out, amounts_of(setup).slots)?;
    push_text(out, b"; it has to be at most 65536")
}

fn push_translations(out: &mut Vec<u8>, setup: &[SetupLine]) -> Result<(), AllocError>
    ensures { OnOk result (out.new.items ≡ out.old.items ++ texts.translations_text setup.now) }
{
    push_text(out, b"translations is ")?;
    push_number(out, amounts_of(setup).translations)?;
    push_text(out, b"; it has to be from 8 to 65536")
}

fn push_disk_number(out: &mut Vec<u8>, disk: u32) -> Result<(), AllocError> {
    push_text(out, b"a disk's number is from 0 to 7, and not ")?;
    push_number(out, disk)
}

fn push_block_count(out: &mut Vec<u8>, blocks: u32) -> Result<(), AllocError> {
    push_text(out, b"a blank disk has from 2 to 16384 blocks, and not ")?;
    push_number(out, blocks)
}

fn push_twice(out: &mut Vec<u8>, disk: u32) -> Result<(), AllocError> {
    push_text(out, b"disk ")?;
    push_number(out, disk)?;
    push_text(out, b" is given twice")
}

fn is_wrong_count(blocks: u32) -> bool
    ensures { result ≡ texts.is_wrong_count blocks }
{
    blocks < 2 || 16_384 < blocks
}

fn push_wrong_disk(out: &mut Vec<u8>, disk: u32, blocks: u32) -> Result<(), AllocError> {
    if 7 < disk {
        return push_disk_number(out, disk);
    }
    if is_wrong_count(blocks) {
        return push_block_count(out, blocks);
    }
    push_twice(out, disk)
}

fn push_lacking(out: &mut Vec<u8>, name: &ByteText, disk: u32) -> Result<(), AllocError> {
    push_text(out, b"no line gives disk ")?;
    push_number(out, disk)?;
    push_text(out, b", on which file ")?;
    push_quoted(out, name.bytes())?;
    push_text(out, b" is to lie")
}

fn push_page_count(out: &mut Vec<u8>, pages: u32) -> Result<(), AllocError> {
    push_text(out, b"a file keeps from 1 to 16383 pages, and not ")?;
    push_number(out, pages)
}

fn push_too_long(
    out: &mut Vec<u8>,
    name: &ByteText,
    pages: u32,
    size: usize,
) -> Result<(), AllocError> {
    push_text(out, b"file ")?;
    push_quoted(out, name.bytes())?;
    push_text(out, b" begins with ")?;
    push_decimal(out, size as u64)?;
    push_text(out, b" bytes, more than ")?;
    push_number(out, pages)?;
    push_text(out, b" pages hold")
}

fn are_wrong_pages(pages: u32) -> bool
    ensures { result ≡ texts.are_wrong_pages pages }
{
    pages < 1 || 16_383 < pages
}

fn push_pages(
    out: &mut Vec<u8>,
    name: &ByteText,
    pages: u32,
    size: usize,
) -> Result<(), AllocError> {
    if are_wrong_pages(pages) {
        return push_page_count(out, pages);
    }
    push_too_long(out, name, pages, size)
}

fn push_act(out: &mut Vec<u8>, rule: u32, act: &SetupAct) -> Result<(), AllocError> {
    match act {
        SetupAct::Blank { disk, blocks } => push_wrong_disk(out, *disk, *blocks),
        SetupAct::Path { disk, .. } => push_wrong_disk(out, *disk, 2),
        SetupAct::File {
            name,
            disk,
            pages,
            bytes,
            ..
        } => {
            if rule == 5 {
                return push_lacking(out, name, *disk);
            }
            push_pages(out, name, *pages, bytes.bytes().len())
        }
        _ => Ok(()),
    }
}

fn push_breaker(out: &mut Vec<u8>, setup: &[SetupLine], rule: u32) -> Result<(), AllocError> {
    match rule_breaker(setup, rule) {
        Some(line) => push_act(out, rule, &line.act),
        None => Ok(()),
    }
}

fn push_processes(out: &mut Vec<u8>, count: usize) -> Result<(), AllocError>
    ensures { OnOk result (out.new.items ≡ out.old.items ++ texts.processes_text count) }
{
    push_text(out, b"there are ")?;
    push_decimal(out, count as u64)?;
    push_text(out, b" processes; a script has at most 64")
}

/// Adds what is said of a plan that breaks this rule.
pub fn push_rule(out: &mut Vec<u8>, plan: &Plan, rule: u32) -> Result<(), AllocError> {
    match rule {
        1 => push_frames(out, plan.setup()),
        2 => push_swap(out, plan.setup()),
        3 => push_translations(out, plan.setup()),
        4 => push_breaker(out, plan.setup(), 4),
        5 => push_breaker(out, plan.setup(), 5),
        6 => push_breaker(out, plan.setup(), 6),
        7 => push_processes(out, plan.parents().len()),
        8 => push_text(out, b"the history may need more than 1048576 entries"),
        _ => push_text(
            out,
            b"a line joins a disk with itself, or one that no line gives, that another line joins or, as the second, that a file names",
        ),
    }
}
