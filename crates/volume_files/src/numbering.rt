//! The numbers of the disks that are attached.
ghost use Rattle.std.specs.Prelude.{◌≡◌, ◌++◌, [], IfOk, OnOk};
ghost use Rattle.std.specs.List.{cons_option, flat_map};
ghost use Rattle.volume_files.specs.Numbers.{both_numbers, disk_numbers};
ghost use Rattle.volume_files.specs.Opened.{volume_numbered};

use crate::mounting::volume_numbered;
use std::alloc::{AllocError, Global};
use vm_report::SetupLine;
use volume_disks::VolumeSpec;

// Adds the numbers of a volume's disks.
fn push_numbers(volume: &VolumeSpec, numbers: &mut Vec<u32>) -> Result<(), AllocError>
    ensures { OnOk result (numbers.new.items ≡ numbers.old.items ++ both_numbers volume.now) }
{
    match volume {
        VolumeSpec::Plain(spec) => numbers.push(spec.number())?,
        VolumeSpec::Joined { first, second, .. } => {
            numbers.push(first.number())?;
            numbers.push(second.number())?;
        }
    }
    Ok(())
}

// Adds those of the volume of a number, where set-up lines give one.
fn push_numbered(
    alloc: Global,
    setup: &[SetupLine],
    number: u32,
    numbers: &mut Vec<u32>,
) -> Result<(), AllocError>
    ensures { OnOk result (numbers.new.items ≡ numbers.old.items
        ++ flat_map both_numbers (cons_option (volume_numbered setup.now number) [])) }
{
    match volume_numbered(alloc, setup, number)? {
        Some(volume) => push_numbers(&volume, numbers),
        None => Ok(()),
    }
}

/// The numbers of the disks that set-up lines give, in the order in which they are attached: the volumes in rising number, and of
/// two disks the second right after the first.
///
/// An error is want of memory.
pub fn disk_numbers(alloc: Global, setup: &[SetupLine]) -> Result<Vec<u32>, AllocError>
    ensures { IfOk result (λ numbers. numbers.items ≡ disk_numbers setup.now) }
{
    let mut numbers = Vec::new(alloc);
    for number in 0..8 {
        push_numbered(alloc, setup, number, &mut numbers)?;
    }
    Ok(numbers)
}
