//! A line of a script, its fields, and which of them is wrong.
ghost use Rattle.std.specs.Prelude.{◌≡◌, map, option_map};
ghost use Rattle.vm_script.specs.Lines.{is_plain, isnt_empty};
ghost use Rattle.fault_help.specs.Fields as fields;

use crate::line_words::Role;
use std::alloc::{AllocError, Global};
use vm_script::{ScriptKind, number_of_field};

fn nth_line(text: &[u8], at: usize) -> Option<&[u8]> {
    text.split(|b| *b == b'\n').nth(at)
}

/// Line n of a text, counted from 1; nothing where the text ends before it.
pub fn line_at(text: &[u8], n: u32) -> &[u8] {
    match nth_line(text, n.saturating_sub(1) as usize) {
        Some(line) => line,
        None => b"",
    }
}

// What stands between the spaces of a line.
fn pieces_of(alloc: Global, line: &[u8]) -> Result<Vec<&[u8]>, AllocError> {
    line.split(|b| *b == b' ').collect(alloc)
}

fn is_there(piece: &[u8]) -> bool
    ensures { result ≡ isnt_empty piece.now }
{
    match piece {
        [_, ..] => true,
        [] => false,
    }
}

/// The fields of a line.
pub fn fields_of_line(alloc: Global, line: &[u8]) -> Result<Vec<&[u8]>, AllocError> {
    let pieces = pieces_of(alloc, line)?;
    let mut found = Vec::new(alloc);
    let mut left = pieces.as_slice();
    while let [piece, rest @ ..] = left {
        if is_there(piece) {
            found.push(*piece)?;
        }
        left = rest;
    }
    Ok(found)
}

fn is_plain_byte(b: u8) -> bool
    ensures { result ≡ is_plain b }
{
    b' ' <= b && b <= b'~'
}

/// The first byte that no line may have, where there is one.
pub fn wrong_byte(line: &[u8]) -> Option<u8> {
    line.iter().find(|b| !is_plain_byte(**b)).copied()
}

fn is_number_field(field: &[u8]) -> bool
    ensures { result ≡ fields.is_number_field field.now }
{
    number_of_field(field).is_some()
}

fn is_size_field(field: &[u8]) -> bool
    ensures { result ≡ fields.is_size_field field.now }
{
    match number_of_field(field) {
        Some(n) => n == 1 || n == 2 || n == 4,
        None => false,
    }
}

#[tactic(auto, unfolding(crate::specs::Fields::is_prot_field))]
fn is_prot_field(field: &[u8]) -> bool
    ensures { result ≡ fields.is_prot_field field.now }
{
    field == b"none".as_slice()
        || field == b"r".as_slice()
        || field == b"w".as_slice()
        || field == b"rw".as_slice()
}

fn lacks_number(role: Role, field: &[u8]) -> bool
    ensures { result ≡ fields.lacks_number role field.now }
{
    match role {
        Role::Number | Role::Size | Role::Value | Role::Length | Role::DiskSource => {
            !is_number_field(field)
        }
        Role::Place => field != b"any".as_slice() && !is_number_field(field),
        _ => false,
    }
}

fn lacks_value(role: Role, field: &[u8]) -> bool
    ensures { result ≡ fields.lacks_value role field.now }
{
    match role {
        Role::Size => !is_size_field(field),
        Role::Prot => !is_prot_field(field),
        Role::DiskForm => field != b"blank".as_slice() && field != b"path".as_slice(),
        Role::Value | Role::Kind | Role::Length | Role::Mode | Role::DiskSource | Role::JoinForm =>
            { true }
        _ => false,
    }
}

fn is_wrong_field(kind: ScriptKind, role: Role, field: &[u8]) -> bool
    ensures { result ≡ fields.is_wrong_field kind role field.now }
{
    match kind {
        ScriptKind::Number => lacks_number(role, field),
        ScriptKind::Name => matches!(role, Role::Name),
        ScriptKind::Bytes => matches!(role, Role::Bytes),
        ScriptKind::Value => lacks_value(role, field),
        _ => false,
    }
}

/// The first field with a fault of this kind, and what it was to be.
pub fn wrong_field<'a>(
    kind: ScriptKind,
    roles: &[Role],
    all: &[&'a [u8]],
) -> Option<(Role, &'a [u8])>
    ensures { option_map (λ p. (p.0, p.1.now)) result
        ≡ fields.wrong_field kind roles.now (map (λ f. f.now) all.now) }
{
    let mut wanted = roles;
    let mut left = all;
    while let [role, others @ ..] = wanted {
        let [field, rest @ ..] = left else {
            return None;
        };
        if is_wrong_field(kind, *role, field) {
            return Some((*role, *field));
        }
        wanted = others;
        left = rest;
    }
    None
}
