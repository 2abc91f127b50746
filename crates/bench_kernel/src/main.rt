//! Times calls of the kernel and of its core. The time or the instructions of a run tell what a
//! call costs.
//!
//! Arguments: measures, at most two, each by its name and behind it its numbers.
//! - `callers`, how many callers of vm_kernel, 1 to 8, each on a thread and with a page of its own;
//!   and how many loads each makes, 2^20 at most. Each load goes in, hits, and leaves. Prints how
//!   many entries the history has.
//! - `forks`, how many pages one process of vm_core fills, of 64; how many children it bears, 63 at
//!   most; into how many pages each child stores; and how many it loads. Prints how many calls were
//!   done.
#![tactic(auto)]

ghost use Rattle.std.specs.Prelude.{◌≤◌, ◌^◌};

mod callers;
mod forks;
mod machine;
mod numbers;
mod setup;

use callers::use_pages;
use forks::bear_each;
use numbers::number;
use setup::started;
use std::alloc::{AllocError, Global};
use std::sync::Wait;
use std::thread::Threads;
use std::{env, io};

/// The most measures of one run.
const MOST_MEASURES: u32 = 2;

// Each caller maps its page and loads from it so many times. How many entries the history has then.
fn run<R: Threads + Wait + Sync>(
    rt: &R,
    alloc: Global,
    callers: u32,
    loads: u32,
) -> Result<usize, AllocError>
    requires callers { callers ≤ 8 }
    requires loads { loads ≤ 2 ^ 20 }
{
    let (kernel, mut row) = started(alloc, callers.max(1), loads + 2)?;
    use_pages(rt, &kernel, row.as_mut_slice(), loads);
    let finished = kernel.close(row).finish();
    Ok(finished.history.entries().len())
}

fn main(rt: HostRuntime) -> io::Result<()> {
    let mut words = env::args(&rt)?;
    words.next();
    for _ in 0..MOST_MEASURES {
        let Some(word) = words.next() else {
            return Ok(());
        };
        match word.as_str() {
            "callers" => {
                let callers = number(&mut words, 1, 8);
                let loads = number(&mut words, 1, 1 << 20);
                println!(rt; "{}", run(&rt, rt.alloc(), callers, loads)?)?;
            }
            "forks" => println!(rt; "{}", bear_each(rt.alloc(), &mut words)?)?,
            _ => return println!(rt; "there is no such measure"),
        }
    }
    Ok(())
}
