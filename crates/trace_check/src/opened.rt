//! Flat memory as the opening part of a trace tells it.
ghost use Rattle.std.specs.Prelude.{ℕ, ◌≡◌, ◌++◌, [], All, IfOk, IsSome, OnOk, map as over};
ghost use Rattle.std.specs.FinMap as finite;
ghost use Rattle.std.specs.FinSet as set;
ghost use Rattle.flat_model.specs.Flat.{Flat};
ghost use Rattle.flat_state.specs.FlatState.{with_one_more_file};
ghost use Rattle.trace_text.specs.OpeningSeen.{traced_file_seen, opening_seen};
ghost use Rattle.trace_text.specs.TraceForm.{RiseFrom, IsTrace};
ghost use Rattle.trace_check.specs.Opened.{with_disks, with_more_files, with_roots};
ghost use Rattle.trace_check.specs.Checks.{file_of_trace, flat_of_trace};

use flat_state::FlatState;
use std::alloc::{AllocError, Global};
use trace_text::{TraceOpening, TracedFile};

// Adds disks whose numbers rise, the last one first.
fn add_disks(flat: &mut FlatState, disks: &[(u32, u32)]) -> Result<(), AllocError>
    requires rising { RiseFrom 0 (over (λ d. d.0) disks.now) }
    requires none { flat.old.disks ≡ finite.empty }
    ensures { OnOk result (flat.new ≡ with_disks flat.old disks.now) }
{
    let mut left = disks;
    while let [rest @ .., disk] = left {
        flat.disk(disk.0, disk.1)?;
        left = rest;
    }
    Ok(())
}

// Adds a file, whose bytes are copied with the zeros behind them.
fn add_file(alloc: Global, flat: &mut FlatState, file: &TracedFile) -> Result<(), AllocError>
    requires { IsSome (finite.get flat.old.disks file.now.head.disk) }
    ensures { OnOk result
        (flat.new ≡ with_one_more_file flat.old (file_of_trace (traced_file_seen file.now))) }
{
    let head = &file.head;
    let mut bytes = Vec::from_slice(alloc, file.bytes.as_slice())?;
    bytes.resize(head.len as usize, 0)?;
    let extents = head.extents.as_slice();
    flat.file(
        head.len,
        head.disk,
        extents,
        head.writable,
        bytes.as_slice(),
    )
}

// Adds files whose disks are there.
fn add_files(alloc: Global, flat: &mut FlatState, files: &[TracedFile]) -> Result<(), AllocError>
    requires { All (λ f. IsSome (finite.get flat.old.disks f.head.disk)) files.now }
    ensures { OnOk result (flat.new
        ≡ with_more_files flat.old (over file_of_trace (over traced_file_seen files.now))) }
{
    for file in files {
        add_file(alloc, flat, file)?;
    }
    Ok(())
}

// Adds top processes whose numbers rise, the last one first.
fn add_roots(flat: &mut FlatState, roots: &[u32]) -> Result<(), AllocError>
    requires rising { RiseFrom 1 roots.now }
    requires none { (flat.old.spaces ≡ finite.empty) × (flat.old.born ≡ set.empty) }
    ensures { OnOk result (flat.new ≡ with_roots flat.old roots.now) }
{
    let mut left = roots;
    while let [rest @ .., root] = left {
        flat.root(*root)?;
        left = rest;
    }
    Ok(())
}

/// Flat memory as the opening part of a trace tells it: zero tails, no zero objects, and an empty space for each top process.
///
/// Takes memory for it, and time in proportion to what is told.
pub fn flat_opened(alloc: Global, opening: &TraceOpening) -> Result<FlatState, AllocError>
    requires { IsTrace (opening_seen opening.now) }
    ensures { IfOk result (λ flat. flat ≡ flat_of_trace (opening_seen opening.now)) }
{
    let mut flat = FlatState::new(alloc, opening.slots);
    add_disks(&mut flat, opening.disks.as_slice())?;
    add_files(alloc, &mut flat, opening.files.as_slice())?;
    add_roots(&mut flat, opening.roots.as_slice())?;
    Ok(flat)
}
