//! How many entries a plan may need.
ghost use Rattle.std.specs.Prelude.{◌≡◌, nat_lt};
ghost use Rattle.vm_script.specs.Counts.{line_count, call_parts, parts, entry_count};

use crate::plan::{PlanAct, PlanLine};
use flat_model::Call;

/// The most entries that a history may have.
pub const MOST_ENTRIES: u32 = 1_048_576;

// The aligned lines of 64 bytes that so many bytes from an offset on touch, up to 2^32.
#[inline(never)]
fn line_count(offset: u32, bytes: u64) -> u32
    ensures { result ≡ line_count offset bytes }
{
    let begin = u64::from(offset);
    let end = begin + bytes.min(4_294_967_296 - begin);
    ((end + 63) / 64 - begin / 64) as u32
}

// Each line of a plan comes here twice.
#[inline(always)]
fn call_parts(call: &Call) -> u32
    ensures { result ≡ call_parts call.now }
{
    match call {
        Call::Read { offset, length, .. } => line_count(*offset, u64::from(*length)),
        Call::Write {
            offset,
            bytes,
            rest,
            ..
        } => { line_count(*offset, u64::from(bytes.len()) + u64::from(*rest)) }
        _ => 1,
    }
}

/// How many entries the line may make: one for each part of a read or a write, none for a wait.
#[inline(always)]
pub fn parts(line: &PlanLine) -> u32
    ensures { result ≡ parts line.now.act }
{
    match &line.act {
        PlanAct::Call(call) => call_parts(&call.call()),
        PlanAct::Named { call, .. } => call_parts(&call.call()),
        PlanAct::Write { offset, bytes, .. } => line_count(*offset, bytes.bytes().len() as u64),
        PlanAct::Wait => 0,
    }
}

/// Whether a history of these lines may have more than 1,048,576 entries.
pub fn needs_too_many(lines: &[PlanLine]) -> bool
    ensures { result ≡ nat_lt MOST_ENTRIES (entry_count lines.now) }
{
    let mut count = 0;
    for line in lines {
        count += parts(line);
        if MOST_ENTRIES < count {
            return true;
        }
    }
    false
}
