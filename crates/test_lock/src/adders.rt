//! What the tests do with a tally behind the lock.
ghost use Rattle.std.specs.Prelude.{◌≡◌, ◌≢◌, ℕ, ◌+◌, ◌<◌, ◌≤◌, false, true, [], ◌∷◌, ◌++◌, Some, None, IfSome, vec_len};
ghost use Rattle.std.specs.Bool.{MatchBool, OnTrue};
ghost use Rattle.std.specs.Thread.{IsSync};
ghost use Rattle.kernel_lock.specs.Seats.{AreNew, IsSeatOf, newcomer, entries_by};
ghost use Rattle.test_lock.specs.Tally.{IsOutside, worth, total, seat_named};

use crate::tally::Tally;
use kernel_lock::guarded::Guarded;
use kernel_lock::lock::KernelLock;
use kernel_lock::seat::Seat;
use std::alloc::Global;
use std::sync::Wait;
use std::thread::{Threads, join};

/// An empty tally behind a lock, with its row of seats. `None` is want of memory.
pub fn start(alloc: Global, seats: u32) -> Option<(KernelLock<Tally>, Vec<Seat<Tally>>)>
    requires count { (0 < seats) × (seats ≤ 65) }
    ensures count { IfSome result (λ r. (r.0.seats ≡ seats) × (vec_len r.1 ≡ seats)) }
    ensures seats { IfSome result (λ r. AreNew r.0 r.1.items) }
{
    KernelLock::start(alloc, Tally::new(alloc), seats).ok()
}

/// Takes the last seat off a row of new ones.
pub fn last_seat<S: Guarded>(_lock: &KernelLock<S>, row: &mut Vec<Seat<S>>) -> Seat<S>
    requires some { 0 < vec_len row.old }
    requires new { AreNew _lock.now row.old.items }
    ensures count { vec_len row.new + 1 ≡ vec_len row.old }
    ensures seat { result ≡ newcomer _lock.now (vec_len row.new) }
    ensures new { AreNew _lock.now row.new.items }
{
    let Some(seat) = row.pop() else {
        unreachable!()
    };
    seat
}

/// Goes in, adds a number if there is room and memory for it, and goes out with what was out before.
pub fn add<R: Wait>(
    rt: &R,
    lock: &KernelLock<Tally>,
    seat: &mut Seat<Tally>,
    held: Option<u64>,
    number: u64,
)
    requires out { IsOutside lock.now seat.old }
    requires held { seat.old.note ≡ held }
    ensures out { IsOutside lock.now seat.new × (seat.new.number ≡ seat.old.number) }
    ensures held { seat.new.note ≡ held }
{
    let mut tally = lock.enter(rt, seat);
    tally.add(seat.number(), number);
    lock.leave(seat, tally, &held);
}

/// Goes in, adds a number, and goes out with nothing out. True where it was added: then the seat has seen an entry, and made one more.
pub fn add_seen<R: Wait>(
    rt: &R,
    lock: &KernelLock<Tally>,
    seat: &mut Seat<Tally>,
    number: u64,
) -> bool
    requires out { IsOutside lock.now seat.old }
    requires held { seat.old.note ≡ None }
    //
    ensures out { IsOutside lock.now seat.new × (seat.new.number ≡ seat.old.number) }
    ensures held { seat.new.note ≡ None }
    ensures seen { OnTrue result (seat.new.seen ≢ []) }
    ensures own { MatchBool result (seat.new.own ≡ seat.old.own ++ (seat.old.number, number) ∷ [])
        (seat.new.own ≡ seat.old.own) }
{
    let mut tally = lock.enter(rt, seat);
    let added = tally.add(seat.number(), number);
    lock.leave(seat, tally, &None);
    added
}

/// Goes in, takes a number out of the sum if there is so much, and goes out with it.
pub fn take_out<R: Wait>(
    rt: &R,
    lock: &KernelLock<Tally>,
    seat: &mut Seat<Tally>,
    number: u64,
) -> Option<u64>
    requires out { IsOutside lock.now seat.old }
    requires held { seat.old.note ≡ None }
    ensures out { IsOutside lock.now seat.new × (seat.new.number ≡ seat.old.number) }
    ensures held { seat.new.note ≡ result }
{
    let mut tally = lock.enter(rt, seat);
    let held = tally.take_out(number);
    lock.leave(seat, tally, &held);
    held
}

/// Goes in, puts the number that is out back if there is room, and goes out with what is still out.
pub fn put_back<R: Wait>(
    rt: &R,
    lock: &KernelLock<Tally>,
    seat: &mut Seat<Tally>,
    number: u64,
) -> Option<u64>
    requires out { IsOutside lock.now seat.old }
    requires held { seat.old.note ≡ Some number }
    ensures out { IsOutside lock.now seat.new × (seat.new.number ≡ seat.old.number) }
    ensures held { seat.new.note ≡ result }
{
    let mut tally = lock.enter(rt, seat);
    let held = tally.put_back(number);
    lock.leave(seat, tally, &held);
    held
}

/// Goes in once, looks at the sum and the length of the list, and goes out with what was out before.
pub fn look<R: Wait>(
    rt: &R,
    lock: &KernelLock<Tally>,
    seat: &mut Seat<Tally>,
    held: Option<u64>,
) -> (u64, usize)
    requires out { IsOutside lock.now seat.old }
    requires held { seat.old.note ≡ held }
    ensures out { IsOutside lock.now seat.new × (seat.new.number ≡ seat.old.number) }
    ensures held { seat.new.note ≡ held }
{
    let tally = lock.enter(rt, seat);
    let seen = (tally.sum, tally.list.len());
    lock.leave(seat, tally, &held);
    seen
}

/// Goes out with the state as it was, and with nothing out.
pub fn go_out(lock: &KernelLock<Tally>, seat: &mut Seat<Tally>, tally: Tally)
    requires seat { IsSeatOf lock.now seat.old }
    requires inside { (seat.old.inside ≡ true) × (seat.old.state ≡ Some tally)
        × (seat.old.note ≡ None) }
    ensures out { IsOutside lock.now seat.new × (seat.new.number ≡ seat.old.number) }
    ensures held { seat.new.note ≡ None }
{
    lock.leave(seat, tally, &None);
}

/// Adds 1 so many times.
pub fn add_times<R: Wait>(
    rt: &R,
    lock: &KernelLock<Tally>,
    mut seat: Seat<Tally>,
    times: u32,
) -> Seat<Tally>
    requires out { IsOutside lock.now seat }
    requires held { seat.note ≡ None }
    ensures out { IsOutside lock.now result × (result.number ≡ seat.number) }
    ensures held { result.note ≡ None }
{
    for _ in 0..times {
        add(rt, lock, &mut seat, None, 1);
    }
    seat
}

/// So many times: adds 1, has it out while the lock is free, adds 1 more meanwhile, and puts it back.
pub fn hold_times<R: Wait>(
    rt: &R,
    lock: &KernelLock<Tally>,
    mut seat: Seat<Tally>,
    times: u32,
) -> Seat<Tally>
    requires out { IsOutside lock.now seat }
    requires held { seat.note ≡ None }
    ensures out { IsOutside lock.now result × (result.number ≡ seat.number) }
{
    for _ in 0..times {
        add(rt, lock, &mut seat, None, 1);
        let Some(number) = take_out(rt, lock, &mut seat, 1) else {
            return seat;
        };
        add(rt, lock, &mut seat, Some(number), 1);
        if put_back(rt, lock, &mut seat, number).is_some() {
            return seat;
        }
    }
    seat
}

/// Two seats on two threads add 1 so many times each.
pub fn add_both<R: Threads + Wait + Sync>(
    rt: &R,
    lock: &KernelLock<Tally>,
    first: Seat<Tally>,
    second: Seat<Tally>,
    times: u32,
) -> (Seat<Tally>, Seat<Tally>)
    requires out { IsOutside lock.now first × IsOutside lock.now second }
    requires held { (first.note ≡ None) × (second.note ≡ None) }
    ensures out { IsOutside lock.now result.0 × IsOutside lock.now result.1 }
    ensures held { (result.0.note ≡ None) × (result.1.note ≡ None) }
    ensures numbers { (result.0.number ≡ first.number) × (result.1.number ≡ second.number) }
{
    join(
        rt,
        move || add_times(rt, lock, first, times),
        move || add_times(rt, lock, second, times),
    )
}

/// Two seats on two threads hold and add so many times each.
pub fn hold_both<R: Threads + Wait + Sync>(
    rt: &R,
    lock: &KernelLock<Tally>,
    first: Seat<Tally>,
    second: Seat<Tally>,
    times: u32,
) -> (Seat<Tally>, Seat<Tally>)
    requires out { IsOutside lock.now first × IsOutside lock.now second }
    requires held { (first.note ≡ None) × (second.note ≡ None) }
    ensures out { IsOutside lock.now result.0 × IsOutside lock.now result.1 }
    ensures numbers { (result.0.number ≡ first.number) × (result.1.number ≡ second.number) }
{
    join(
        rt,
        move || hold_times(rt, lock, first, times),
        move || hold_times(rt, lock, second, times),
    )
}

/// Three seats on three threads: one adds, and two hold and add.
pub fn all_three<R: Threads + Wait + Sync>(
    rt: &R,
    lock: &KernelLock<Tally>,
    first: Seat<Tally>,
    second: Seat<Tally>,
    third: Seat<Tally>,
    times: u32,
) -> (Seat<Tally>, (Seat<Tally>, Seat<Tally>))
    requires out { IsOutside lock.now first × IsOutside lock.now second × IsOutside lock.now third }
    requires held { (first.note ≡ None) × (second.note ≡ None) × (third.note ≡ None) }
    ensures out { IsOutside lock.now result.0 × IsOutside lock.now result.1.0
        × IsOutside lock.now result.1.1 }
    ensures numbers { (result.0.number ≡ first.number) × (result.1.0.number ≡ second.number)
        × (result.1.1.number ≡ third.number) }
{
    join(
        rt,
        move || add_times(rt, lock, first, times),
        move ||
            requires { IsSync R.row × IsOutside lock.now second × IsOutside lock.now third
                × (second.note ≡ None) × (third.note ≡ None) }
        { hold_both(rt, lock, second, third, times) },
    )
}

/// Closes a lock of two seats, in a row. What is not in the sum is out with them.
pub fn close_row(lock: KernelLock<Tally>, row: Vec<Seat<Tally>>) -> Tally
    requires count { lock.seats ≡ 2 }
    requires row { (a : _) × (b : _) × (row.items ≡ a ∷ b ∷ [])
        × IsOutside lock a × IsOutside lock b × (a.number ≡ 0) × (b.number ≡ 1) }
    ensures sum { (a : _) (b : _) → row.items ≡ a ∷ b ∷ []
        → result.sum + (worth a.note + worth b.note) ≡ total result.list }
    ensures own { (a : _) (b : _) → row.items ≡ a ∷ b ∷ []
        → (entries_by seat_named 0 result.list ≡ a.own) × (entries_by seat_named 1 result.list ≡ b.own) }
{
    lock.close(row)
}

/// Closes a lock of three seats, gathering them one by one. What is not in the sum is out with them.
pub fn close_three(
    lock: KernelLock<Tally>,
    first: Seat<Tally>,
    second: Seat<Tally>,
    third: Seat<Tally>,
) -> Tally
    requires count { lock.seats ≡ 3 }
    requires out { IsOutside lock first × IsOutside lock second × IsOutside lock third }
    requires numbers { (first.number ≡ 0) × (second.number ≡ 1) × (third.number ≡ 2) }
    ensures sum { result.sum + (worth first.note + (worth second.note + worth third.note))
        ≡ total result.list }
    ensures own { (entries_by seat_named 0 result.list ≡ first.own)
        × (entries_by seat_named 1 result.list ≡ second.own)
        × (entries_by seat_named 2 result.list ≡ third.own) }
{
    let mut from = lock.gather_none();
    lock.gather(&mut from, third);
    lock.gather(&mut from, second);
    lock.gather(&mut from, first);
    lock.close_gathered(from)
}

/// Tells one seat what another has seen, and gives the first number that the one finds then, going in and out.
/// That there is one rests on the meeting alone.
pub fn first_told<R: Wait>(
    rt: &R,
    lock: &KernelLock<Tally>,
    from: &mut Seat<Tally>,
    to: &mut Seat<Tally>,
) -> u64
    requires out { IsOutside lock.now from.old × IsOutside lock.now to.old }
    requires held { to.old.note ≡ None }
    requires seen { from.old.seen ≢ [] }
    //
    ensures out { IsOutside lock.now from.new × IsOutside lock.now to.new }
    ensures numbers { (from.new.number ≡ from.old.number) × (to.new.number ≡ to.old.number) }
    ensures first { (e : _) (es : _) → from.old.seen ≡ e ∷ es → result ≡ e.1 }
{
    lock.meet(from, to);
    let tally = lock.enter(rt, to);
    let (_, number) = tally.list[0];
    lock.leave(to, tally, &None);
    number
}

/// Has a number out while it goes in and out so many times, then puts it back, and tells.
pub fn hold_and_tell<R: Wait>(
    rt: &R,
    lock: &KernelLock<Tally>,
    mut seat: Seat<Tally>,
    number: u64,
    times: u32,
) -> Seat<Tally>
    requires out { IsOutside lock.now seat }
    requires held { seat.note ≡ Some number }
    ensures out { IsOutside lock.now result × (result.number ≡ seat.number) }
{
    for _ in 0..times {
        add(rt, lock, &mut seat, Some(number), 0);
    }
    let _held = put_back(rt, lock, &mut seat, number);
    lock.tell(&mut seat);
    seat
}

/// Waits until the sum is at least so much, and says how often it looked. It rests on changes.
pub fn wait_for_sum<R: Wait>(
    rt: &R,
    lock: &KernelLock<Tally>,
    mut seat: Seat<Tally>,
    sum: u64,
) -> (Seat<Tally>, u64)
    requires out { IsOutside lock.now seat }
    requires held { seat.note ≡ None }
    ensures out { IsOutside lock.now result.0 × (result.0.number ≡ seat.number) }
{
    let mut looks = 0u64;
    for _ in rt.forever() {
        let seen = lock.changes();
        let (there, _) = look(rt, lock, &mut seat, None);
        looks = looks.saturating_add(1);
        if sum <= there {
            return (seat, looks);
        }
        lock.rest_on_change(rt, seen);
    }
    unreachable!()
}

/// One seat has a number out for so many goings in, and another waits for it. Says how often it looked.
pub fn hold_and_wait<R: Threads + Wait + Sync>(
    rt: &R,
    lock: &KernelLock<Tally>,
    first: Seat<Tally>,
    second: Seat<Tally>,
    number: u64,
    times: u32,
) -> (Seat<Tally>, (Seat<Tally>, u64))
    requires out { IsOutside lock.now first × IsOutside lock.now second }
    requires held { (first.note ≡ Some number) × (second.note ≡ None) }
    ensures out { IsOutside lock.now result.0 × IsOutside lock.now result.1.0 }
    ensures numbers { (result.0.number ≡ first.number) × (result.1.0.number ≡ second.number) }
{
    join(
        rt,
        move || hold_and_tell(rt, lock, first, number, times),
        move || wait_for_sum(rt, lock, second, number),
    )
}
