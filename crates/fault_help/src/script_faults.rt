//! What is said of the first fault of a script.
ghost use Rattle.std.specs.Prelude.{◌≡◌, ◌++◌, OnOk, map};
ghost use Rattle.vm_script.specs.Statements.{is_comment};
ghost use Rattle.fault_help.specs.FaultTexts as texts;
ghost use Rattle.fault_help.specs.Fields.{wrong_field};
ghost use Rattle.fault_help.specs.LineWords.{roles_of};

use crate::fields::{fields_of_line, line_at, wrong_byte, wrong_field};
use crate::line_words::{LineWord, Role, form_text, line_word, roles_of};
use crate::text::{push_decimal, push_quoted, push_text};
use std::alloc::{AllocError, Global};
use vm_script::{ScriptFault, ScriptKind, number_of_field};

fn byte_text_of(byte: Option<u8>) -> &'static [u8]
    ensures { result.now ≡ texts.byte_text_of byte }
{
    match byte {
        Some(9) => b"a tab stands here; spaces separate fields",
        Some(13) => b"a carriage return stands here; a line feed alone ends a line",
        Some(_) => b"a byte stands here that is no printable character of ASCII",
        None => b"a byte stands here that no line may have",
    }
}

fn standing_text(word: LineWord) -> &'static [u8]
    ensures { result.now ≡ texts.standing_text word }
{
    match word {
        LineWord::Frames | LineWord::Swap | LineWord::Translations => {
            b" may stand once, before the first process"
        }
        LineWord::Disk | LineWord::Join | LineWord::File => {
            b" has to stand before the first process"
        }
        LineWord::Process => b" may not stand in a block; an end is missing above it",
        _ => b" has to stand in a block, between process and end",
    }
}

fn size_text(size: Option<u32>) -> &'static [u8]
    ensures { result.now ≡ texts.size_text size }
{
    match size {
        Some(1) => b" is more than a byte holds",
        _ => b" is more than 2 bytes hold",
    }
}

fn value_text(role: Role, args: &[&[u8]]) -> &'static [u8]
    ensures { result.now ≡ texts.value_text role (map (λ f. f.now) args.now) }
{
    match role {
        Role::Size => b" is no size: 1, 2 or 4",
        Role::Value => match args.get(1) {
            Some(size) => size_text(number_of_field(size)),
            None => size_text(number_of_field(b"")),
        },
        Role::Prot => b" is none of none, r, w and rw",
        Role::Kind => b" is neither shared nor private",
        Role::Length => b" is not from 1 to 65536",
        Role::Mode => b" is neither ro nor rw",
        Role::DiskForm => b" is neither blank nor path",
        Role::DiskSource => b" has more than 255 bytes",
        Role::JoinForm => b" is neither stripe nor mirror",
        _ => b" is outside its range",
    }
}

fn field_text(kind: ScriptKind, role: Role, args: &[&[u8]]) -> &'static [u8]
    ensures { result.now ≡ texts.field_text kind role (map (λ f. f.now) args.now) }
{
    match kind {
        ScriptKind::Number => b" is no number",
        ScriptKind::Name => b" is no name",
        ScriptKind::Bytes => b" is no bytes in hexadecimal",
        _ => value_text(role, args),
    }
}

fn push_wrong(
    out: &mut Vec<u8>,
    kind: ScriptKind,
    word: LineWord,
    args: &[&[u8]],
) -> Result<(), AllocError>
    ensures { OnOk result (out.new.items ≡ out.old.items
        ++ texts.wrong_text kind (map (λ f. f.now) args.now)
        (wrong_field kind (roles_of word) (map (λ f. f.now) args.now))) }
{
    match wrong_field(kind, &roles_of(word), args) {
        Some((role, field)) => {
            push_text(out, b"; ")?;
            push_quoted(out, field)?;
            push_text(out, field_text(kind, role, args))
        }
        None => Ok(()),
    }
}

fn push_wants(out: &mut Vec<u8>, first: &[u8], word: LineWord) -> Result<(), AllocError>
    ensures { OnOk result (out.new.items ≡ out.old.items ++ texts.wants_text first.now word) }
{
    push_quoted(out, first)?;
    push_text(out, b" wants ")?;
    push_text(out, form_text(word))
}

fn push_count(out: &mut Vec<u8>, count: usize) -> Result<(), AllocError>
    ensures { OnOk result (out.new.items ≡ out.old.items ++ texts.count_text count) }
{
    push_decimal(out, count as u64)?;
    push_text(
        out,
        if count == 1 {
            b" field stands here"
        } else {
            b" fields stand here"
        },
    )
}

fn is_comment(field: &[u8]) -> bool
    ensures { result ≡ is_comment field.now }
{
    matches!(field, [b'#', ..])
}

fn have_comment(args: &[&[u8]]) -> bool {
    args.iter().any(|f| is_comment(f))
}

fn comment_text(behind: bool) -> &'static [u8]
    ensures { result.now ≡ texts.comment_text behind }
{
    if behind {
        b"; a comment wants a line of its own"
    } else {
        b""
    }
}

// Adds what is said of a line that begins with this word.
fn push_line_fault(
    out: &mut Vec<u8>,
    kind: ScriptKind,
    first: &[u8],
    word: LineWord,
    args: &[&[u8]],
) -> Result<(), AllocError> {
    match kind {
        ScriptKind::Place => {
            push_quoted(out, first)?;
            push_text(out, standing_text(word))
        }
        ScriptKind::Count => {
            push_wants(out, first, word)?;
            push_text(out, b"; ")?;
            push_count(out, args.len())?;
            push_text(out, comment_text(have_comment(args)))
        }
        _ => {
            push_wants(out, first, word)?;
            push_wrong(out, kind, word, args)
        }
    }
}

// Adds what is said of a line of these fields.
fn push_fields_fault(
    out: &mut Vec<u8>,
    kind: ScriptKind,
    fields: &[&[u8]],
) -> Result<(), AllocError> {
    match fields {
        [first, args @ ..] => match line_word(first) {
            Some(word) => push_line_fault(out, kind, first, word, args),
            None => {
                push_quoted(out, first)?;
                push_text(out, b" is no word of a script")
            }
        },
        [] => push_text(out, b"the script ends in a block; an end is missing"),
    }
}

/// Adds what is said of a fault of a script.
pub fn push_fault(
    alloc: Global,
    out: &mut Vec<u8>,
    text: &[u8],
    fault: ScriptFault,
) -> Result<(), AllocError> {
    match fault.kind {
        ScriptKind::Long => push_text(out, b"a script has at most 1048576 bytes"),
        ScriptKind::Byte => push_text(out, byte_text_of(wrong_byte(line_at(text, fault.line)))),
        kind => {
            let fields = fields_of_line(alloc, line_at(text, fault.line))?;
            push_fields_fault(out, kind, &fields)
        }
    }
}
