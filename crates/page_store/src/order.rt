//! The numbers of the disks in the order in which they came, with the room to hand the disks back in that order.
ghost use Rattle.std.specs.Prelude.{◌≡◌, ◌≢◌, ℕ, ◌<◌, List, length, map, slice_index, IfOk};
ghost use Rattle.page_store.specs.Bays.{bay_at, home, numbers_of, pairs_seen, disk_in, disks_in, AreNumbers};

use crate::bays::Bays;
use block_device::Disk;
use std::alloc::{AllocError, Global};
use std::marker::Model;

/// Numbers of disks.
#[derive(Drop)]
pub struct Order<D> {
    numbers: Vec<u32>,
    room: Vec<(u32, D)>,
}

impl<D> Model for Order<D> {
    ghost use Rattle.std.specs.Prelude.{◌≡◌, ◌≤◌, ℕ, List, [], length, vec_capacity};

    ghost Value = { List ℕ };

    ghost view = { λ o. o.numbers.items };

    ghost invariant = { λ o. (o.room.items ≡ []) × (length o.numbers.items ≤ vec_capacity o.room) };
}

impl<D: Disk> Order<D> {
    /// The numbers of these disks.
    pub fn of(alloc: Global, disks: &[(u32, D)]) -> Result<Order<D>, AllocError>
        ensures { IfOk result (λ order. order ≡ numbers_of disks.now) }
    {
        let mut numbers = Vec::with_capacity(alloc, disks.len())?;
        let room = Vec::with_capacity(alloc, disks.len())?;
        for disk in disks {
            numbers.push_reserved(disk.0);
        }
        Ok(Order { numbers, room })
    }

    /// The disks of these numbers, which go out of their bays. Takes no memory.
    pub fn collect(self, bays: &mut Bays<D>) -> Vec<(u32, D)>
        requires numbers { AreNumbers self }
        requires within { (i : ℕ) → i < length self → slice_index self i < length bays.old }
        requires there { (i : ℕ) → i < length self
            → bay_at bays.old (slice_index self i)
            ≡ home (disk_in (bay_at bays.old (slice_index self i))) }
        ensures { pairs_seen D.seen result.items ≡ disks_in bays.old self }
    {
        let Order { numbers, mut room } = self;
        for number in &numbers {
            if let Some(disk) = bays.remove(*number) {
                room.push_reserved((*number, disk));
            }
        }
        room
    }
}
