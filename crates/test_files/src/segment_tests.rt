//! Each call of the spaces once, and a segment that is cut, with ample memory.
ghost use Rattle.std.specs.Prelude.{◌≡◌, [], IfOk};

use addr_space::Ranges;
use anon_map::AnonMaps;
use anon_slots::AnonSlots;
use block_device::{Block, MemDisk};
use hat_layer::Hat;
use seg_ops::{Segment, Store, World, ZeroObjects};
use seg_vn::{Spaces, VnSeg};
use std::alloc::{AllocError, Global};
use std::test::Fail;
use vm_types::{Kind, Object, Prot};
use vnode_files::Files;

// The pages of a process's piece at this page.
fn pages_at(spaces: &Spaces, process: u32, page: u32) -> Option<u32> {
    let (_first, _pages, segment) = spaces.get(process)?.find(page)?;
    Some(segment.pages())
}

#[test]
fn each_process_has_its_space(rt: HostRuntime) -> Result<(), Fail> {
    let mut spaces = Spaces::new(rt.alloc(), 2)?;
    assert_eq!(rt; spaces.get(2).is_none(), true);
    let mut space = Ranges::new(rt.alloc());
    space.reserve(1)?;
    space.insert(
        4,
        3,
        VnSeg::new(Segment {
            pages: 3,
            prot: Prot::READ,
            max: Prot::READ,
            kind: Kind::Shared,
            object: Object::File(0),
            index: 7,
            own: None,
            shown: None,
        }),
    );
    spaces.insert(2, space);
    assert_eq!(rt; pages_at(&spaces, 2, 6), Some(3));
    assert_eq!(rt; pages_at(&spaces, 2, 7), None);
    assert_eq!(rt; pages_at(&spaces, 1, 6), None);
    assert_eq!(rt; spaces.get_mut(2).is_some(), true);
    assert_eq!(rt; spaces.remove(2).is_some(), true);
    assert_eq!(rt; pages_at(&spaces, 2, 6), None);
    Ok(())
}

// A world without files and maps, over a swap disk of one block.
fn new_world(alloc: Global) -> Result<World<MemDisk>, AllocError>
    ensures { IfOk result (λ world. world.maps ≡ []) }
{
    let blocks = [Block::new([0; 4096])];
    let swap = MemDisk::from_blocks(blocks.to_vec(alloc)?, [9u64].to_vec(alloc)?);
    let disks = Vec::new(alloc);
    let Ok(store) = Store::new(alloc, 2, disks, Some(swap)) else {
        return Err(AllocError);
    };
    Ok(World {
        store,
        anon: AnonSlots::new(alloc, 1)?,
        maps: AnonMaps::new(alloc),
        hat: Hat::new(alloc, 2, 2)?,
        files: Files::new(alloc),
        zeros: ZeroObjects::new(alloc),
        pending: 0,
    })
}

// The sizes of the parts of a segment of four pages that is cut behind its third, and whether its map is still there.
fn cut(world: &mut World<MemDisk>) -> Result<(u32, u32, bool), AllocError>
    requires { world.old.maps ≡ [] }
{
    let own = world.maps.make(4)?;
    let mut segment = VnSeg::new(Segment {
        pages: 4,
        prot: Prot::READ,
        max: Prot::READ,
        kind: Kind::Private,
        object: Object::NewZero,
        index: 0,
        own: Some(own),
        shown: None,
    });
    let upper = segment.cut(world, 3)?;
    Ok((segment.pages(), upper.pages(), world.maps.is_there(own)))
}

#[test]
fn a_segment_is_cut_in_two(rt: HostRuntime) -> Result<(), Fail> {
    let mut world = new_world(rt.alloc())?;
    let parts = cut(&mut world)?;
    assert_eq!(rt; parts, (3, 1, true));
    Ok(())
}
