//! The disks of joined disks are handed back in rising number, wherever a run stops.
use std::alloc::Global;
use std::sync::Wait;
use std::test::Fail;
use std::thread::Threads;
use test_run::{Fails, NEVER, NO_WORDS, run_trial};

// A disk that stands alone has a number between those of two that are joined.
const ROUND: &[u8] = b"\
disk 0 blank 2
disk 1 blank 3
disk 2 blank 2
join 0 stripe 2
process
end
";

// The first of two disks has the greater number; so the other one is attached first.
const TURNED: &[u8] = b"\
disk 0 blank 3
disk 1 blank 2
disk 2 blank 3
join 2 mirror 0
process
end
";

// Two joined disks, each of a low and a high number.
const CROSSED: &[u8] = b"\
disk 0 blank 2
disk 1 blank 3
disk 2 blank 2
disk 3 blank 3
join 0 mirror 2
join 3 stripe 1
process
end
";

// The sizes of the two differ.
const UNEQUAL: &[u8] = b"\
disk 0 blank 4
disk 1 blank 3
disk 2 blank 2
join 2 stripe 0
process
end
";

// A run, the call of the rack that fails, or 0; its status, and the blocks of each disk that comes back.
type Case = (&'static [u8], u64, u8, &'static [usize]);

// The rack is asked for the swap disk first.
const CASES: [Case; 10] = [
    (ROUND, 0, 0, &[2, 3, 2]),
    (ROUND, 2, 7, &[]),
    (ROUND, 3, 7, &[2]),
    (ROUND, 4, 7, &[2, 2]),
    (TURNED, 0, 0, &[3, 2, 3]),
    (TURNED, 3, 7, &[2]),
    (TURNED, 4, 7, &[2, 3]),
    (CROSSED, 0, 0, &[2, 3, 2, 3]),
    (CROSSED, 5, 7, &[2, 2, 3]),
    (UNEQUAL, 0, 4, &[4, 3, 2]),
];

// Runs each of these, and looks at which disks came back.
fn look_at(rt: &(impl Threads + Wait + Sync), alloc: Global, cases: &[Case]) -> Result<(), Fail> {
    for (place, &(script, rack, status, sizes)) in cases.iter().enumerate() {
        let fails = Fails { rack, ..NEVER };
        let left = run_trial(rt, alloc, NO_WORDS, script, &fails)?;
        let same = left
            .disks
            .iter()
            .map(|blocks| blocks.len())
            .eq(sizes.iter().copied());
        if left.status != status || !same {
            let told = left.status;
            return Err(Fail::new(format_args!("{place}: {told}")));
        }
    }
    Ok(())
}

#[test]
fn the_disks_of_volumes_come_back_in_rising_number(rt: HostRuntime) -> Result<(), Fail> {
    look_at(&rt, rt.alloc(), &CASES)
}
