//! Disks without their numbers.
ghost use Rattle.std.specs.Prelude.{ℕ, ◌≡◌, ◌≤◌, [], length, map, vec_capacity};

use volume_files::Disk;

/// The disks without their numbers.
pub fn without_numbers<D: Disk>(disks: Vec<(u32, D)>, mut back: Vec<D>) -> Vec<D>
    requires none { back.items ≡ [] }
    requires room { length disks.items ≤ vec_capacity back }
    ensures { result.items ≡ map (λ (d : ℕ × D). d.1) disks.items }
{
    for (_, disk) in disks {
        back.push_reserved(disk);
    }
    back
}
