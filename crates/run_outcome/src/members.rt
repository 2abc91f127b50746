//! The disks that volumes stand for are handed back, in rising number.
ghost use Rattle.std.specs.Prelude.{ℕ, ◌≡◌, ◌≤◌, ◌<◌, ◌+◌, ◌*◌, ◌++◌, ◌∷◌, [], All, IfOk, IfSome, List, Ok, length, option_map, slice_index_or, vec_capacity};
ghost use Rattle.std.specs.List.{flat_map};
ghost use Rattle.volume_files.specs.joined_disk.JoinedSeen.{joined_seen};
ghost use Rattle.volume_files.specs.Numbers.{disk_numbers};
ghost use Rattle.volume_files.specs.volume_disks.Singles.{single_seen};
ghost use Rattle.run_input.specs.Asked.{Given, Asked, WasAsked};
ghost use Rattle.run_outcome.specs.Ended.{end_of};
ghost use Rattle.run_outcome.specs.MemberRooms.{HasMemberRooms, IsSeenByParts, volume_parts, numbered};
ghost use Rattle.run_outcome.specs.Members.{HandsDisks, both_disks, with_text};
ghost use Rattle.run_outcome.specs.Run.{Outside, RunEnds};

use crate::numbers::without_numbers;
use crate::outcome::Outcome;
use std::alloc::{AllocError, Global};
use volume_files::{Disk, JoinedDisk, Plan, Single, disk_numbers};

/// What is taken before a disk is attached, so that all can be handed back: the numbers of the plan's disks in the order in which
/// they are attached, and room for the disks.
#[derive(Drop)]
pub struct Rooms<D: Disk> {
    pub numbers: Vec<u32>,
    pub members: Vec<(u32, D)>,
    pub back: Vec<D>,
}

/// The numbers of a plan's disks, and room for two disks of each of ten volumes.
pub fn take_rooms<D: Disk>(alloc: Global, plan: &Plan) -> Result<Rooms<D>, AllocError>
    ensures numbers { IfOk result (λ r. r.numbers.items ≡ disk_numbers plan.now.setup) }
    ensures rooms { IfOk result HasMemberRooms }
{
    Ok(Rooms {
        numbers: disk_numbers(alloc, plan.setup())?,
        members: Vec::with_capacity(alloc, 20)?,
        back: Vec::with_capacity(alloc, 20)?,
    })
}

// Puts a disk behind others, under the number at its place.
fn put<D: Disk>(numbers: &[u32], disk: D, members: &mut Vec<(u32, D)>)
    requires room { length members.old.items < vec_capacity members.old }
    ensures items { members.new.items ≡ members.old.items
        ++ (slice_index_or numbers.now (length members.old.items) 8, disk) ∷ [] }
    ensures room { vec_capacity members.new ≡ vec_capacity members.old }
{
    let number = match numbers.get(members.len()) {
        Some(number) => *number,
        None => 8,
    };
    members.push_reserved((number, disk));
}

// Puts the disks of a volume behind others.
fn put_parts<D: Disk>(numbers: &[u32], volume: JoinedDisk<Single<D>>, members: &mut Vec<(u32, D)>)
    requires room { length members.old.items + 1 < vec_capacity members.old }
    ensures items { (disks : List D) → members.old.items ≡ numbered numbers.now disks
        → members.new.items ≡ numbered numbers.now (disks ++ both_disks (volume_parts volume)) }
    ensures seen { IsSeenByParts (single_seen D.seen) volume }
    ensures most { length members.new.items ≤ length members.old.items + 2 }
    ensures room { vec_capacity members.new ≡ vec_capacity members.old }
{
    let (first, second) = volume.parts();
    put(numbers, first.disk, members);
    match second {
        Some(second) => put(numbers, second.disk, members),
        None => {}
    }
}

// Puts the disks of volumes under their numbers.
fn put_volumes<D: Disk>(
    numbers: &[u32],
    volumes: Vec<JoinedDisk<Single<D>>>,
    members: &mut Vec<(u32, D)>,
)
    requires none { members.old.items ≡ [] }
    requires room { 2 * length volumes.items ≤ vec_capacity members.old }
    // The disks of all, and how the volumes are seen by them.
    ensures items { members.new.items
        ≡ numbered numbers.now (flat_map (λ v. both_disks (volume_parts v)) volumes.items) }
    ensures seen { All (IsSeenByParts (single_seen D.seen)) volumes.items }
    // How many they are.
    ensures most { length members.new.items ≤ 2 * length volumes.items }
    ensures room { vec_capacity members.new ≡ vec_capacity members.old }
{
    for volume in volumes {
        put_parts(numbers, volume, members);
    }
}

// The swap disk, which stands for itself alone.
fn take_swap<D: Disk>(swap: Option<JoinedDisk<Single<D>>>) -> Option<D>
    ensures swap { result ≡ option_map (λ v. (volume_parts v).0) swap }
    ensures seen { IfSome swap (IsSeenByParts (single_seen D.seen)) }
{
    match swap {
        Some(swap) => {
            let (swap, _other) = swap.parts();
            Some(swap.disk)
        }
        None => None,
    }
}

/// Hands back the disks that the volumes of a run stand for. It takes no memory.
pub fn hand_members<D: Disk>(outcome: Outcome<JoinedDisk<Single<D>>>, rooms: Rooms<D>) -> Outcome<D>
    requires few { length outcome.disks.items ≤ 10 }
    requires rooms { HasMemberRooms rooms }
    // The end over the volumes is that of a run of what was given, and the numbers are those of the plan that was asked for.
    ensures { (g : Given) (o : Outside) (text : List ℕ)
        → RunEnds (with_text g text) o (end_of (joined_seen (single_seen D.seen)) outcome)
        → ((what : Asked) → WasAsked (with_text g text) (Ok what)
        → rooms.numbers.items ≡ disk_numbers what.plan.setup)
        → HandsDisks (with_text g text) (end_of (joined_seen (single_seen D.seen)) outcome)
        (end_of D.seen result) }
{
    let Rooms {
        numbers,
        mut members,
        back,
    } = rooms;
    let Outcome {
        status,
        fault,
        history,
        disks,
        swap,
    } = outcome;
    put_volumes(&numbers, disks, &mut members);
    let swap = take_swap(swap);
    members.sort_unstable_by_key(|member| member.0);
    Outcome {
        status,
        fault,
        history,
        disks: without_numbers(members, back),
        swap,
    }
}
