//! The last page of a file, before the file gets longer.
ghost use Rattle.std.specs.Prelude.{◌<◌, length};
ghost use Rattle.seg_ops.specs.vm_world.Words.{IsFit, IsKnown, OneIsHome};
ghost use Rattle.seg_ops.specs.Rooms.{MakesRoom};
ghost use Rattle.seg_map.specs.Longer.{FetchesLast};

use seg_ops::{Disk, Hold, PAGE_SIZE, PageName, Residence, Wants, World, fetch, take_back};

/// Makes a file's old last page ready for a farther end, where it has a tail: home on no list; or blank, in no frame. Else it says what
/// must come first. It takes no frame. Time: one look.
pub fn ready_last<D: Disk>(world: &mut World<D>, file: u32, end: u32) -> Result<(), Wants>
    requires file { file < length world.old.files.files }
    requires home { OneIsHome world.old.store }
    requires fits { IsFit world.old }
    requires noted { IsKnown world.old }
    ensures fetches { FetchesLast world.old world.new file end result }
    // What stays.
    ensures makes { MakesRoom world.old world.new }
{
    let length = world.files.info(file).length;
    if end <= length {
        return Ok(());
    }
    let tail = length % PAGE_SIZE;
    if tail == 0 {
        return Ok(());
    }
    let name = PageName {
        object: file,
        page: length / PAGE_SIZE,
    };
    match world.store.resident(name) {
        Residence::Home(_) => {
            take_back(world, name);
            Ok(())
        }
        Residence::Moving(seat) => Err(Wants::Seat(Hold::Page(seat))),
        Residence::Absent => {
            if world.files.blank(file, name.page) {
                return Ok(());
            }
            Err(fetch(world, name))
        }
    }
}
