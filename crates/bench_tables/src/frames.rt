//! As many names of pages as there are frames, each found again and again.
ghost use Rattle.std.specs.Prelude.{◌≡◌, ◌≤◌, length};

use crate::numbers::number;
use page_hash::{PageHash, PageName};
use std::alloc::{AllocError, Global};
use std::env::Args;

const FILES: u32 = 8;

/// The page at a place in the line of pages that goes round the files.
fn page_at(place: u32) -> PageName {
    PageName {
        object: place % FILES,
        page: place / FILES,
    }
}

fn enter_each(hash: &mut PageHash, frames: u32)
    requires { frames ≤ length hash.old }
    ensures { length hash.new ≡ length hash.old }
{
    for frame in 0..frames {
        let name = page_at(frame);
        if hash.find(name).is_none() && hash.name_of(frame).is_none() {
            hash.enter(name, frame);
        }
    }
}

fn sum_of_frames(hash: &PageHash, frames: u32) -> u64 {
    let mut sum: u64 = 0;
    for place in 0..frames {
        if let Some(frame) = hash.find(page_at(place)) {
            sum = sum.wrapping_add(u64::from(frame));
        }
    }
    sum
}

/// Enters as many names as there are frames and finds each so many times. The sum of the numbers of
/// frames found.
pub(crate) fn find_each_name(alloc: Global, words: &mut Args) -> Result<u64, AllocError> {
    let frames = number(words, 64);
    let rounds = number(words, 1000);
    let mut hash = PageHash::new(alloc, frames)?;
    enter_each(&mut hash, frames);
    let mut sum: u64 = 0;
    for _ in 0..rounds {
        sum = sum.wrapping_add(sum_of_frames(&hash, frames));
    }
    Ok(sum)
}
