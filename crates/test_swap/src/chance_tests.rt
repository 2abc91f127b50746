//! Acts by chance of two and of three seats, whose processes fork and end, over few frames and slots: transfers of several seats are out at a time, some that
//! are needed don't begin, and hands move. What the history tells is what flat memory says.
ghost use Rattle.std.specs.Prelude.{◌≡◌, ◌<◌, ◌≤◌};

use crate::swap_tests::{Acts, Family, Run, made_and_closed};
use std::alloc::Global;
use std::test::Fail;
use test_acts::Act::{Clock, Do, Land, Plan, Try};
use test_acts::What::{self, Exit, Fork, Load, New, Protect, Store, Sync, Unmap, Zero};
use test_acts::{Trial, call_of, make_any};

// Numbers by chance: a linear congruential generator.
#[derive(Drop)]
struct Chance {
    last: u32,
}

impl Chance {
    fn below(&mut self, bound: u32) -> u32
        requires { 0 < bound }
        ensures { result < bound }
    {
        let next = self.last.wrapping_mul(1_664_525);
        self.last = next.wrapping_add(1_013_904_223);
        (self.last >> 16) % bound
    }
}

/// A call: ten pages are used, of which some are never mapped.
fn by_chance(chance: &mut Chance) -> What {
    let addr = 4096 * (2 + chance.below(10));
    let length = 4096 * (1 + chance.below(3));
    match chance.below(24) {
        0 => Zero(addr, length),
        1 => New(addr, length),
        2 => Unmap(addr, length),
        3 => Protect(addr, length, chance.below(3) != 0),
        4 => Fork(2),
        5 => Fork(3),
        6 if chance.below(8) == 0 => Exit,
        7 => Sync(addr, length),
        6..=14 => Store(addr, chance.below(1000)),
        _ => Load(addr),
    }
}

/// A process makes a call, with the transfers that it needs or to the first of these, which may begin or not.
fn call_once(trial: &mut Trial, chance: &mut Chance, seat: u32) -> Result<(), Fail> {
    let what = by_chance(chance);
    if !trial.can_try(seat, &call_of(what)) {
        return Ok(());
    }
    match chance.below(4) {
        0 => make_any(trial, Do(seat, what)),
        1 => make_any(trial, Plan(seat, what)),
        _ => make_any(trial, Try(seat, what)),
    }
}

/// What a seat has outside ends, or stays out; or hands move for it; or its process makes a call.
fn act(trial: &mut Trial, chance: &mut Chance, seat: u32) -> Result<(), Fail> {
    if trial.has_out(seat) {
        if chance.below(3) == 0 {
            return make_any(trial, Land(seat));
        }
        return Ok(());
    }
    if chance.below(6) == 0 {
        return make_any(trial, Clock(seat, 3));
    }
    call_once(trial, chance, seat)
}

/// Process 1 maps some pages of each kind, so many acts of these seats follow, and what is out ends.
pub(crate) fn act_by_chance(trial: &mut Trial, seed: u32, seats: u32) -> Result<(), Fail>
    requires { 1 ≤ seats }
{
    make_any(trial, Do(0, Zero(0x2000, 0x4000)))?;
    make_any(trial, Do(0, New(0x8000, 0x2000)))?;
    let mut chance = Chance { last: seed };
    for _act in 0..400 {
        let seat = chance.below(seats);
        act(trial, &mut chance, seat)?;
    }
    for seat in 0..3 {
        if trial.has_out(seat) {
            make_any(trial, Land(seat))?;
        }
    }
    Ok(())
}

/// Six frames and fourteen slots.
fn run_of(family: Family, acts: Acts) -> Run
    ensures frames { result.frames ≡ 6 }
    ensures slots { result.slots ≡ 14 }
{
    Run {
        family,
        frames: 6,
        slots: 14,
        acts,
    }
}

/// Entries, and Forks that are done and that are refused, of all runs so far.
type Sums = (usize, u32, u32);

/// The sums with those of a run. It fails where the run's history isn't one of flat memory.
fn sums_with(alloc: Global, sums: Sums, run: Run) -> Result<Sums, Fail>
    requires frames { 5 ≤ run.frames }
    requires slots { 0 < run.slots }
{
    let closed = made_and_closed(alloc, run)?;
    let counts = closed.counts;
    if closed.fault.is_some() || counts.legal != counts.all {
        return Err(Fail::new(format_args!("{closed:?}")));
    }
    Ok((
        sums.0.wrapping_add(counts.all),
        sums.1.wrapping_add(counts.born),
        sums.2.wrapping_add(counts.refused),
    ))
}

/// Most children are born in the end, some after a refusal.
fn are_enough(sums: Sums) -> bool {
    sums.0 >= 2000 && sums.1 >= 25 && sums.2 >= 15
}

#[test]
fn acts_of_two_seats_are_those_of_flat_memory(rt: HostRuntime) -> Result<(), Fail> {
    let mut sums: Sums = (0, 0, 0);
    for seed in 1..31 {
        let run = run_of(Family::Pair, Acts::OfTwoSeats(seed));
        sums = sums_with(rt.alloc(), sums, run)?;
    }
    assert!(rt; are_enough(sums), "{sums:?}");
    Ok(())
}

#[test]
fn acts_of_three_seats_are_those_of_flat_memory(rt: HostRuntime) -> Result<(), Fail> {
    let mut sums: Sums = (0, 0, 0);
    for seed in 1..31 {
        let run = run_of(Family::Line, Acts::OfThreeSeats(seed));
        sums = sums_with(rt.alloc(), sums, run)?;
    }
    assert!(rt; are_enough(sums), "{sums:?}");
    Ok(())
}
