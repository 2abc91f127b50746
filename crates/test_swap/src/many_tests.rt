//! Sixty-four processes, through few frames: each bears its children, shares one page with all and keeps one of its own. What is told of each act is worked out
//! by hand.
ghost use Rattle.std.specs.Prelude.{◌≡◌, ◌≤◌, IfOk, length};

use crate::swap_tests::{Acts, Family, Run, closed_after, made_and_closed};
use std::alloc::{AllocError, Global};
use std::test::Fail;
use test_acts::Act::Do;
use test_acts::Told::Done;
use test_acts::What::{Exit, Fork, Load, New, Store, Zero};
use test_acts::{NO_SWAP, STORED, Trial, make_all};
use vm_types::Reply::{Mapped, Word};

/// How many processes there are, and seats.
const ALL: u32 = 64;

/// The parent of process p is p / 2; process 1 has none.
pub(crate) fn tree(alloc: Global) -> Result<Vec<u32>, AllocError>
    ensures { IfOk result (λ parents. length parents.items ≡ 64) }
{
    let mut parents = Vec::new(alloc);
    for place in 0..ALL {
        parents.push((place + 1) / 2)?;
    }
    Ok(parents)
}

/// A process is told what its parent had in its own page, stores its number there and in its word of the shared page, and forks two children.
fn begin_one(trial: &mut Trial, process: u32) -> Result<(), Fail>
    requires first { 1 ≤ process }
    requires last { process ≤ 64 }
{
    let seat = process - 1;
    make_all(
        trial,
        &[
            (Do(seat, Load(0x2000)), Done(Word(process / 2))),
            (Do(seat, Store(0x2000, process)), STORED),
            (Do(seat, Store(0x3000 + 4 * process, process)), STORED),
        ],
    )?;
    for child in 2 * process..2 * process + 2 {
        if child <= ALL {
            make_all(trial, &[(Do(seat, Fork(child)), STORED)])?;
        }
    }
    Ok(())
}

/// Each process is told what it stored in its own page, and what another stored in the shared one.
fn look_at(trial: &mut Trial, process: u32) -> Result<(), Fail>
    requires first { 1 ≤ process }
    requires last { process ≤ 64 }
{
    let other = 65 - process;
    make_all(
        trial,
        &[
            (Do(process - 1, Load(0x2000)), Done(Word(process))),
            (Do(process - 1, Load(0x3000 + 4 * other)), Done(Word(other))),
        ],
    )
}

/// Those of odd numbers end; the others keep their pages, and the slots of those that ended are free.
fn end_half(trial: &mut Trial) -> Result<(), Fail> {
    for pair in 0..ALL / 2 {
        make_all(trial, &[(Do(2 * pair, Exit), STORED)])?;
    }
    for pair in 0..ALL / 2 {
        look_at(trial, 2 * pair + 2)?;
    }
    make_all(
        trial,
        &[
            (Do(1, Zero(0x1_0000, 0x2_1000)), NO_SWAP),
            (Do(1, Zero(0x1_0000, 0x2_0000)), Done(Mapped(0x1_0000))),
        ],
    )
}

/// There is a slot for the own page of each process, and one for the shared page.
pub(crate) fn grow_a_tree(trial: &mut Trial) -> Result<(), Fail> {
    make_all(
        trial,
        &[
            (Do(0, Zero(0x2000, 0x1000)), Done(Mapped(0x2000))),
            (Do(0, New(0x3000, 0x1000)), Done(Mapped(0x3000))),
        ],
    )?;
    for place in 0..ALL {
        begin_one(trial, place + 1)?;
    }
    for place in 0..ALL {
        look_at(trial, place + 1)?;
    }
    end_half(trial)
}

#[test]
fn sixty_four_processes_keep_their_pages(rt: HostRuntime) -> Result<(), Fail> {
    let run = Run {
        family: Family::Tree,
        frames: 8,
        slots: ALL + 1,
        acts: Acts::GrowATree,
    };
    // 2 + 64 * 3 + 63 + 64 * 2 + 32 + 32 * 2 + 2.
    assert_eq!(rt; made_and_closed(rt.alloc(), run)?, closed_after(483, 63, 0));
    Ok(())
}
