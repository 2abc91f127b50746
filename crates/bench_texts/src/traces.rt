//! The check of a trace, and the reading of its lines with and without steps of flat memory.
ghost use Rattle.std.specs.Prelude.{◌<◌, ◌^◌, length};
ghost use Rattle.trace_text.specs.EntryForm.{IsTracedEntry};

use flat_model::Entry;
use flat_state::FlatState;
use std::alloc::{AllocError, Global};
use trace_check::flat_opened;
use trace_text::{cut_line, entry_of_line, read_opening};

/// Flat memory takes an entry, where it is to.
fn take(flat: &mut FlatState, entry: &Entry, steps: bool) -> Result<bool, AllocError>
    requires { IsTracedEntry entry.now }
{
    if steps {
        flat.step(entry)?;
    }
    Ok(true)
}

/// Reads a line; whether it tells an entry.
fn take_line(
    alloc: Global,
    flat: &mut FlatState,
    line: &[u8],
    steps: bool,
) -> Result<bool, AllocError> {
    match entry_of_line(alloc, line)? {
        Some(
            Entry {
                process,
                call,
                reply,
                cleared,
            },
        ) => {
            let entry = Entry {
                process,
                call,
                reply,
                cleared,
            };
            take(flat, &entry, steps)
        }
        None => Ok(false),
    }
}

/// How many entries a text tells up to the first line that tells none.
fn entries_told(
    alloc: Global,
    flat: &mut FlatState,
    text: &[u8],
    steps: bool,
) -> Result<u64, AllocError> {
    let mut left = text;
    for count in 0..text.len() {
        let (line, rest) = cut_line(left);
        if !take_line(alloc, flat, line, steps)? {
            return Ok(count as u64);
        }
        left = rest;
    }
    Ok(text.len() as u64)
}

/// How many entries stand behind the lines of the opening part. With `steps` each is made a step of
/// flat memory too.
pub(crate) fn entries_of(alloc: Global, text: &[u8], steps: bool) -> Result<u64, AllocError>
    requires { length text.now < 2 ^ 31 }
{
    match read_opening(alloc, text)? {
        Ok(opening) => {
            let mut flat = flat_opened(alloc, &opening)?;
            entries_told(alloc, &mut flat, &text[opening.length..], steps)
        }
        Err(_) => Ok(0),
    }
}
