//! Whole runs over a slow disk whose processes wait for each other's calls of files, for pages and for the disk: each comes to its end.
ghost use Rattle.std.specs.Prelude.{◌<◌};

use crate::gated_rack::{Event, Gate};
use crate::overlap_tests::run_gated;
use crate::tree_tests::repeat;
use std::alloc::{AllocError, Global};
use std::sync::Wait;
use std::test::Fail;
use std::thread::Threads;
use test_run::NO_WORDS;

// A disk with two files of zeros, of four pages and of six, over few frames.
fn files(alloc: Global) -> Result<String, AllocError> {
    let mut script = String::from_str(alloc, "frames 12\nswap 0\ndisk 0 blank 32\nfile a rw 0 4 ")?;
    repeat(&mut script, 4 * 4096, "00")?;
    script.push_str("\nfile b rw 0 6 ")?;
    repeat(&mut script, 6 * 4096, "00")?;
    script.push_str("\n")?;
    Ok(script)
}

// One process loads from each page of a file, and so many others read the other file.
fn readers_script(alloc: Global, readers: u32) -> Result<String, AllocError> {
    let mut script = files(alloc)?;
    script.push_str("process\nmap 0x10000 24576 r shared b 0\n")?;
    for page in 0..6u32 {
        script.push_str(&format!(in alloc; "load {} 1\n", 0x10000 + 4096 * page)?)?;
    }
    script.push_str("end\n")?;
    repeat(&mut script, readers, "process\nread a 100 12000\nend\n")?;
    Ok(script)
}

// A number by chance, below this one.
fn below(last: &mut u32, bound: u32) -> u32
    requires { 0 < bound }
    ensures { result < bound }
{
    let next = last.wrapping_mul(1_664_525);
    *last = next.wrapping_add(1_013_904_223);
    (*last >> 16) % bound
}

// A read or a write of a few parts, a load, a store or a sync, by chance.
fn chance_line(alloc: Global, script: &mut String, last: &mut u32) -> Result<(), AllocError> {
    let offset = 4050 * below(last, 4) + below(last, 130);
    let page = 0x10000 + 4096 * below(last, 6);
    match below(last, 9) {
        0..=2 => script.push_str(&format!(in alloc; "read a {offset} {}\n", 1 + below(last, 400))?),
        3..=4 => {
            script.push_str(&format!(in alloc; "write a {offset} 01")?)?;
            repeat(script, below(last, 140), "02")?;
            script.push_str("\n")
        }
        5..=6 => script.push_str(&format!(in alloc; "load {page} 1\n")?),
        7 => script.push_str(&format!(in alloc; "store {page} 1 3\n")?),
        _ => script.push_str("sync 0x10000 24576\n"),
    }
}

// So many processes of eight lines each, which share two files.
fn chance_script(alloc: Global, number: u32, processes: u32) -> Result<String, AllocError> {
    let mut script = files(alloc)?;
    let mut last = number;
    for _process in 0..processes {
        script.push_str("process\nmap 0x10000 24576 rw shared b 0\n")?;
        for _line in 0..8 {
            chance_line(alloc, &mut script, &mut last)?;
        }
        script.push_str("end\n")?;
    }
    Ok(script)
}

// The status of a run of this script over a disk that looks a hundred thousand times at each read.
fn run_slow(
    rt: &(impl Threads + Wait + Sync),
    alloc: Global,
    words: &str,
    script: &[u8],
) -> Result<u8, AllocError> {
    let never = Event::new();
    let slow = Gate::Slow {
        never: &never,
        looks: 100_000,
    };
    let (status, _late, _text) = run_gated(rt, alloc, words, script, (slow, 1, Gate::Open))?;
    Ok(status)
}

// Whoever reads the file waits for the disk between two parts of its call, and the others for its call. Where one of these took the wake-up of that
// disk, the run would never end.
#[test]
fn readers_of_one_file_end_beside_a_loader(rt: HostRuntime) -> Result<(), Fail> {
    let alloc = rt.alloc();
    for readers in [2u32, 4, 6, 8, 4, 6, 8] {
        let script = readers_script(alloc, readers)?;
        assert_eq!(rt;
            run_slow(&rt, alloc, NO_WORDS, script.as_bytes())?,
            0,
            "{readers}"
        );
    }
    Ok(())
}

// Without the daemon, and beside it.
#[test]
fn processes_of_a_few_files_end(rt: HostRuntime) -> Result<(), Fail> {
    let alloc = rt.alloc();
    for number in 1..9u32 {
        for words in [NO_WORDS, "--pageout\n300"] {
            let script = chance_script(alloc, number, 6 * number + 6)?;
            assert_eq!(rt;
                run_slow(&rt, alloc, words, script.as_bytes())?,
                0,
                "{number}"
            );
        }
    }
    Ok(())
}
