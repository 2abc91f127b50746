ghost use Rattle.std.specs.Prelude.{◌≡◌, None, Some};

use crate::adders::{
    add, add_both, add_seen, all_three, close_row, close_three, first_told, go_out, hold_and_wait,
    last_seat, look, put_back, start, take_out,
};
use crate::store::{Disk, share_disk};
use std::test::Fail;

/// A disk that counts its work.
#[derive(Drop)]
struct Counter {
    count: u64,
}

impl Disk for Counter {
    ghost count = { λ counter. counter.count };

    fn count(&self) -> u64 {
        self.count
    }

    fn work(&mut self) {
        self.count = self.count.saturating_add(1);
    }
}

#[test]
fn two_adders_add_two_thousand(rt: HostRuntime) -> Result<(), Fail> {
    let (lock, mut row) = start(rt.alloc(), 2).ok_or("memory")?;
    let second = last_seat(&lock, &mut row);
    let first = last_seat(&lock, &mut row);
    let (first, second) = add_both(&rt, &lock, first, second, 1000);
    let tally = close_row(
        lock,
        vec![in rt.alloc(); first, second].expect(&rt, "memory"),
    );
    assert_eq!(rt; tally.list.len(), 2000);
    assert_eq!(rt; tally.sum, 2000);
    Ok(())
}

#[test]
fn a_held_lock_refuses(rt: HostRuntime) -> Result<(), Fail> {
    let (lock, mut row) = start(rt.alloc(), 2).ok_or("memory")?;
    let mut second = last_seat(&lock, &mut row);
    let mut first = last_seat(&lock, &mut row);
    assert_eq!(rt; (first.number(), second.number()), (0, 1));
    let Some(tally) = lock.try_enter(&mut first) else {
        panic!(rt; "nobody is inside")
    };
    let Option::None = lock.try_enter(&mut second) else {
        panic!(rt; "one is inside")
    };
    assert_eq!(rt; lock.leaves(), 0);
    go_out(&lock, &mut first, tally);
    assert_eq!(rt; lock.leaves(), 1);
    lock.rest(&rt, 0);
    let Some(tally) = lock.try_enter(&mut second) else {
        panic!(rt; "nobody is inside")
    };
    go_out(&lock, &mut second, tally);
    let tally = close_row(
        lock,
        vec![in rt.alloc(); first, second].expect(&rt, "memory"),
    );
    assert_eq!(rt; (tally.list.len(), tally.sum), (0, 0));
    Ok(())
}

#[test]
fn numbers_stay_out_while_others_go_in(rt: HostRuntime) -> Result<(), Fail> {
    let (lock, mut row) = start(rt.alloc(), 2).ok_or("memory")?;
    let mut second = last_seat(&lock, &mut row);
    let mut first = last_seat(&lock, &mut row);
    add(&rt, &lock, &mut first, None, 10);
    let Some(three) = take_out(&rt, &lock, &mut first, 3) else {
        panic!(rt; "there are 10")
    };
    add(&rt, &lock, &mut second, None, 5);
    assert_eq!(rt; look(&rt, &lock, &mut second, None), (12, 2));
    let held = take_out(&rt, &lock, &mut second, 2);
    assert_eq!(rt; look(&rt, &lock, &mut first, Some(three)), (10, 2));
    assert!(rt; put_back(&rt, &lock, &mut first, three).is_none());
    assert_eq!(rt; look(&rt, &lock, &mut second, held), (13, 2));
    let tally = close_row(
        lock,
        vec![in rt.alloc(); first, second].expect(&rt, "memory"),
    );
    assert_eq!(rt; (tally.list.len(), tally.sum, held), (2, 13, Some(2)));
    Ok(())
}

#[test]
fn three_seats_hold_and_add(rt: HostRuntime) -> Result<(), Fail> {
    let (lock, mut row) = start(rt.alloc(), 3).ok_or("memory")?;
    let third = last_seat(&lock, &mut row);
    let second = last_seat(&lock, &mut row);
    let first = last_seat(&lock, &mut row);
    let (first, (second, third)) = all_three(&rt, &lock, first, second, third, 200);
    let tally = close_three(lock, first, second, third);
    assert_eq!(rt; (tally.list.len(), tally.sum), (1000, 1000));
    Ok(())
}

#[test]
fn what_one_has_seen_the_other_finds(rt: HostRuntime) -> Result<(), Fail> {
    let (lock, mut row) = start(rt.alloc(), 2).ok_or("memory")?;
    let mut second = last_seat(&lock, &mut row);
    let mut first = last_seat(&lock, &mut row);
    if !add_seen(&rt, &lock, &mut first, 7) {
        panic!(rt; "memory")
    }
    assert_eq!(rt; first_told(&rt, &lock, &mut first, &mut second), 7);
    let tally = close_row(
        lock,
        vec![in rt.alloc(); first, second].expect(&rt, "memory"),
    );
    assert_eq!(rt; (tally.list.len(), tally.sum), (1, 7));
    Ok(())
}

#[test]
fn a_disk_goes_out_and_comes_home(rt: HostRuntime) -> Result<(), Fail> {
    let store = share_disk(&rt, rt.alloc(), Counter { count: 5 }).ok_or("memory")?;
    let disk = store.disk.ok_or("the disk is home")?;
    assert!(rt; 6 <= disk.count() && disk.count() <= 7);
    Ok(())
}

#[test]
fn a_waiter_looks_a_handful_of_times(rt: HostRuntime) -> Result<(), Fail> {
    let (lock, mut row) = start(rt.alloc(), 2).ok_or("memory")?;
    let second = last_seat(&lock, &mut row);
    let mut first = last_seat(&lock, &mut row);
    add(&rt, &lock, &mut first, None, 3);
    let Some(three) = take_out(&rt, &lock, &mut first, 3) else {
        panic!(rt; "there are 3")
    };
    let before = lock.leaves();
    let (first, (second, looks)) = hold_and_wait(&rt, &lock, first, second, three, 20_000);
    assert!(rt; 20_000 < lock.leaves().wrapping_sub(before));
    assert!(rt; looks <= 20, "{looks} looks");
    let tally = close_row(
        lock,
        vec![in rt.alloc(); first, second].expect(&rt, "memory"),
    );
    assert_eq!(rt; tally.sum, 3);
    Ok(())
}
