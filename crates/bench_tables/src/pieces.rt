//! A space of pieces of one page each, built and taken down.
ghost use Rattle.std.specs.Prelude.{◌≡◌, ◌<◌, ◌≤◌};

use addr_space::Ranges;
use std::alloc::AllocError;

/// The page past the last one of a space.
const END: u32 = 0x80000;

/// Puts a piece on every other page, from the lowest on.
pub fn build_rising(ranges: &mut Ranges<u32>, pieces: u32) -> Result<(), AllocError> {
    for piece in 0..pieces {
        put(ranges, piece)?;
    }
    Ok(())
}

/// Puts a piece on every other page, from the highest on.
pub fn build_falling(ranges: &mut Ranges<u32>, pieces: u32) -> Result<(), AllocError> {
    for piece in (0..pieces).rev() {
        put(ranges, piece)?;
    }
    Ok(())
}

fn put(ranges: &mut Ranges<u32>, piece: u32) -> Result<(), AllocError> {
    let page = piece.wrapping_mul(2).wrapping_add(1);
    if page == 0 || page >= END || ranges.find(page).is_some() {
        return Ok(());
    }
    ranges.reserve(1)?;
    ranges.insert(page, 1, piece);
    Ok(())
}

/// Takes out all pieces from the back, and sums them.
pub fn take_from_back(ranges: &mut Ranges<u32>, pieces: u32) -> u64 {
    let mut sum: u64 = 0;
    for _ in 0..pieces {
        if let Some(first) = ranges.last(END) {
            if let Some(piece) = ranges.remove(first) {
                sum = sum.wrapping_add(u64::from(piece));
            }
        }
    }
    sum
}

/// Takes out all pieces from the front, and sums them.
pub fn take_from_front(ranges: &mut Ranges<u32>, pieces: u32) -> u64 {
    let mut sum: u64 = 0;
    for _ in 0..pieces {
        if let Some(first) = ranges.next(0) {
            if let Some(piece) = ranges.remove(first) {
                sum = sum.wrapping_add(u64::from(piece));
            }
        }
    }
    sum
}
