//! Finds over loads of translations, sharers of a page, and a space of many pieces, each made so
//! many times.

use crate::numbers::number;
use crate::pieces::{build_falling, build_rising, take_from_back, take_from_front};
use crate::translations::{Load, find_each, load_each, sync_each, unload_each};
use addr_space::Ranges;
use hat_layer::Hat;
use std::alloc::{AllocError, Global};
use std::env::Args;

// How many places the pool has, and how many frames there are.
#[derive(Drop)]
struct Size {
    places: u32,
    frames: u32,
}

// A load of translations in a pool, and then finds of each page.
fn run_pages(alloc: Global, load: &Load, size: &Size, rounds: u32) -> Result<u64, AllocError> {
    let frames = size.frames.max(1);
    let mut hat = Hat::new(alloc, size.places.max(1), frames)?;
    load_each(&mut hat, load, frames);
    let mut sum: u64 = 0;
    for _ in 0..rounds {
        sum = sum.wrapping_add(find_each(&hat, load));
    }
    Ok(sum)
}

// A load of translations in a pool, and then walks over those of each frame.
fn run_frames(alloc: Global, load: &Load, size: &Size, rounds: u32) -> Result<u64, AllocError> {
    let frames = size.frames.max(1);
    let mut hat = Hat::new(alloc, size.places.max(1), frames)?;
    load_each(&mut hat, load, frames);
    let mut sum: u64 = 0;
    for _ in 0..rounds {
        sum = sum.wrapping_add(sync_each(&mut hat, frames));
    }
    Ok(sum)
}

// Pages that all spaces of a load share, loaded and dropped again and again.
fn run_sharers(alloc: Global, load: &Load, size: &Size, rounds: u32) -> Result<u64, AllocError> {
    let frames = size.frames.max(1);
    let mut hat = Hat::new(alloc, size.places.max(1), frames)?;
    let mut sum: u64 = 0;
    for _ in 0..rounds {
        load_each(&mut hat, load, frames);
        sum = sum.wrapping_add(unload_each(&mut hat, frames));
    }
    Ok(sum)
}

// A space of pieces, built and taken down again and again.
fn run_space(
    alloc: Global,
    pieces: u32,
    rising: bool,
    end: u32,
    rounds: u32,
) -> Result<u64, AllocError> {
    let mut sum: u64 = 0;
    for _ in 0..rounds {
        let mut ranges = Ranges::new(alloc);
        if rising {
            build_rising(&mut ranges, pieces)?;
        } else {
            build_falling(&mut ranges, pieces)?;
        }
        let taken = match end {
            0 => 0,
            1 => take_from_back(&mut ranges, pieces),
            _ => take_from_front(&mut ranges, pieces),
        };
        sum = sum.wrapping_add(taken);
    }
    Ok(sum)
}

/// Does what the first number says, so many times. A sum of what the calls answered.
pub(crate) fn run_tables(alloc: Global, words: &mut Args) -> Result<u64, AllocError> {
    let what = number(words, 0);
    let rounds = number(words, 1);
    let first = number(words, 4);
    let second = number(words, 2);
    let load = Load {
        spaces: first,
        regions: second,
        pages: number(words, 4),
        step: number(words, 256),
    };
    let size = Size {
        places: number(words, 64),
        frames: number(words, 16),
    };
    match what {
        0 => run_pages(alloc, &load, &size, rounds),
        1 => run_frames(alloc, &load, &size, rounds),
        2 => run_sharers(alloc, &load, &size, rounds),
        3 => run_space(alloc, first, true, second, rounds),
        _ => run_space(alloc, first, false, second, rounds),
    }
}
