//! Times calls of the tables and of other low crates, each without the kernel: the time or the
//! instructions of a run tell what a call costs.
//!
//! Arguments: measures, at most four, each by its name and behind it its numbers. For each the
//! program prints a line. A number that isn't given, or isn't one, has a small value.
//! - `frames`, the frames, and how many times the name of each is found: prints the sum of the
//!   numbers of frames found.
//! - `joined`, the kind of the disk (0 one disk, 1 a stripe, 2 a mirror), what is done (0 reads, 1
//!   writes), and how many times: prints a sum of the bytes, and how many transfers were counted.
//! - `lock`, the state (0 of 64 bytes, 1 of 1 KiB, 2 a box of 1 KiB), and how many visits: prints
//!   how many visits were made, by the count in the state.
//! - `tables`, what is done (0 finds by page, 1 finds by frame, 2 sharers, 3 pieces in rising
//!   order, 4 pieces in falling order), how many times, and the numbers of the load. Those of a
//!   load of translations are spaces, regions, pages, step, places, frames. Those of pieces are how
//!   many there are, and how they go: 0 all at once, 1 from the back, 2 from the front. Prints a
//!   sum of what the calls answered.
#![tactic(auto)]

mod counted;
mod frames;
mod joined;
mod numbers;
mod pieces;
mod rounds;
mod transfers;
mod translations;
mod visits;

use frames::find_each_name;
use joined::transfer_each;
use rounds::run_tables;
use std::alloc::AllocError;
use std::{env, io};
use visits::visit_state;

/// The most measures of one run.
const MOST_MEASURES: u32 = 4;

fn main(rt: HostRuntime) -> io::Result<()> {
    let mut words = env::args(&rt)?;
    words.next();
    for _ in 0..MOST_MEASURES {
        let Some(word) = words.next() else {
            return Ok(());
        };
        match word.as_str() {
            "frames" => println!(rt; "{}", find_each_name(rt.alloc(), &mut words)?)?,
            "joined" => {
                let (sum, calls) = transfer_each(rt.alloc(), &mut words).ok_or(AllocError)?;
                println!(rt; "{sum} {calls}")?;
            }
            "lock" => {
                let visits = visit_state(rt.alloc(), &mut words).ok_or(AllocError)?;
                println!(rt; "{visits}")?;
            }
            "tables" => println!(rt; "{}", run_tables(rt.alloc(), &mut words)?)?,
            _ => return println!(rt; "there is no such measure"),
        }
    }
    Ok(())
}
