//! Loads of translations: spaces of one layout, each with regions of pages at equal steps.
ghost use Rattle.std.specs.Prelude.{◌≡◌, ◌<◌};

use hat_layer::Hat;

/// The numbers of a load: how many spaces, regions a space, pages a region, and pages from one
/// region to the next.
#[derive(Drop)]
pub struct Load {
    pub spaces: u32,
    pub regions: u32,
    pub pages: u32,
    pub step: u32,
}

// The page at a place of a region.
fn page_at(load: &Load, region: u32, place: u32) -> u32 {
    region.wrapping_mul(load.step).wrapping_add(place)
}

/// Loads each page of each space, over the frames round and round.
pub fn load_each(hat: &mut Hat, load: &Load, frames: u32)
    requires some { 0 < frames }
    requires same { hat.old.frames ≡ frames }
    ensures { hat.new.frames ≡ frames }
{
    for space in 0..load.spaces {
        load_space(hat, load, space, frames);
    }
}

fn load_space(hat: &mut Hat, load: &Load, space: u32, frames: u32)
    requires some { 0 < frames }
    requires same { hat.old.frames ≡ frames }
    ensures { hat.new.frames ≡ frames }
{
    for region in 0..load.regions {
        load_region(hat, load, space, region, frames);
    }
}

fn load_region(hat: &mut Hat, load: &Load, space: u32, region: u32, frames: u32)
    requires some { 0 < frames }
    requires same { hat.old.frames ≡ frames }
    ensures { hat.new.frames ≡ frames }
{
    for place in 0..load.pages {
        let page = page_at(load, region, place);
        let _ = hat.load(space, page, page % frames, true);
    }
}

/// Finds each page of each space.
pub fn find_each(hat: &Hat, load: &Load) -> u64 {
    let mut sum: u64 = 0;
    for space in 0..load.spaces {
        for region in 0..load.regions {
            sum = sum.wrapping_add(find_region(hat, load, space, region));
        }
    }
    sum
}

fn find_region(hat: &Hat, load: &Load, space: u32, region: u32) -> u64 {
    let mut sum: u64 = 0;
    for place in 0..load.pages {
        if let Some((frame, _writable)) = hat.find(space, page_at(load, region, place)) {
            sum = sum.wrapping_add(u64::from(frame));
        }
    }
    sum
}

/// Goes over the translations of each frame.
pub fn sync_each(hat: &mut Hat, frames: u32) -> u64
    requires same { hat.old.frames ≡ frames }
    ensures { hat.new.frames ≡ frames }
{
    let mut sum: u64 = 0;
    for frame in 0..frames {
        let (referenced, _modified) = hat.page_sync(frame);
        sum = sum.wrapping_add(u64::from(referenced));
    }
    sum
}

/// Drops the translations of each frame.
pub fn unload_each(hat: &mut Hat, frames: u32) -> u64
    requires same { hat.old.frames ≡ frames }
    ensures { hat.new.frames ≡ frames }
{
    let mut sum: u64 = 0;
    for frame in 0..frames {
        let (referenced, _modified) = hat.page_unload(frame);
        sum = sum.wrapping_add(u64::from(referenced) + 1);
    }
    sum
}
