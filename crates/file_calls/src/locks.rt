//! Whose call of a file is between two parts.
ghost use Rattle.std.specs.Prelude.{◌≡◌, ℕ, None, length, replicate, slice_index_or, slice_set};
ghost use Rattle.seg_vn.specs.vm_types.Parts.{part_file};
ghost use Rattle.seg_vn.specs.vm_types.WellFormed.{IsWellFormed};
ghost use Rattle.seg_vn.specs.vm_world.FileLocks.{locks_after};
ghost use Rattle.file_calls.specs.Locks.{calls_without, without_seat};

use seg_vn::{Call, Reply, part_file};
use std::marker::Model;
use vm_types::ends_call;

// How many files there may be.
const FILES: usize = 64;

/// Of each file the seat whose call is between two parts, or none. There may be 64 files. Contracts see it as the list of them.
#[derive(Drop)]
pub struct FileLocks {
    seats: [Option<u32>; FILES],
}

// The seat at a file; none past the last.
fn holder_at(seats: &[Option<u32>; FILES], file: u32) -> Option<u32>
    ensures { result ≡ slice_index_or seats.now file None }
{
    if (file as usize) < FILES {
        return seats[file as usize];
    }
    None
}

// Another seat at a file, or none; nothing past the last.
fn set_holder(seats: &mut [Option<u32>; FILES], file: u32, holder: Option<u32>)
    ensures { seats.new ≡ slice_set seats.old file holder }
{
    if (file as usize) < FILES {
        seats[file as usize] = holder;
    }
}

// None where it is this seat.
fn without_seat(seat: u32, holder: Option<u32>) -> Option<u32>
    ensures { result ≡ without_seat seat holder }
{
    match holder {
        Some(other) if other != seat => holder,
        _ => None,
    }
}

impl Model for FileLocks {
    ghost use Rattle.std.specs.Prelude.{◌≡◌, ℕ, List, Option, length};
    ghost use Rattle.std.specs.Coded.{coded_list, coded_option, coded_ℕ};

    ghost Value = { List (Option ℕ) };

    ghost coded = { coded_list (coded_option coded_ℕ) };

    ghost view = { λ l. l.seats };

    ghost invariant = { λ l. length l.seats ≡ 64 };
}

impl FileLocks {
    /// None for every file.
    pub fn new() -> FileLocks
        ensures { result ≡ replicate 64 None }
    {
        FileLocks {
            seats: [None; FILES],
        }
    }

    /// How many files have a place.
    pub fn count(&self) -> u32
        ensures same { result ≡ length self.now }
        ensures most { result ≡ 64 }
    {
        let seats: &[Option<u32>] = &self.seats;
        seats.len() as u32
    }

    /// The seat whose call of a file is between two parts; none past the last file.
    pub fn seat(&self, file: u32) -> Option<u32>
        ensures { result ≡ slice_index_or self.now file None }
    {
        holder_at(&self.seats, file)
    }

    /// A seat's call was done with this reply: its file is the seat's where that is a part which doesn't end its call, and no seat's
    /// where it is one that does. A call that is no part leaves all as it was.
    pub fn note(&mut self, seat: u32, call: &Call, reply: &Reply)
        requires { IsWellFormed call.now }
        ensures { self.new ≡ locks_after seat call.now reply.now self.old }
    {
        if let Some(file) = part_file(call) {
            let holder = if ends_call(call, reply) {
                None
            } else {
                Some(seat)
            };
            set_holder(&mut self.seats, file, holder);
        }
    }

    /// Where this call is a part of a file whose call is the seat's, that call of the file is over.
    pub fn release(&mut self, seat: u32, call: &Call)
        ensures { self.new ≡ calls_without seat (part_file call.now) self.old }
    {
        if let Some(file) = part_file(call) {
            let holder = holder_at(&self.seats, file);
            set_holder(&mut self.seats, file, without_seat(seat, holder));
        }
    }
}
