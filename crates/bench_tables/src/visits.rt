//! A lock of one seat, and its visits.
ghost use Rattle.std.specs.Prelude.{◌≡◌, false, vec_len};
ghost use Rattle.kernel_lock.specs.Seats.{AreNew, IsSeatOf, newcomer};

use crate::counted::{Large, Small, VisitCount};
use crate::numbers::number;
use kernel_lock::lock::KernelLock;
use kernel_lock::seat::Seat;
use std::alloc::Global;
use std::boxed::Box;
use std::env::Args;

// Goes in, counts, and goes out.
fn visit<B: Drop>(lock: &KernelLock<VisitCount<B>>, seat: &mut Seat<VisitCount<B>>)
    requires seat { IsSeatOf lock.now seat.old }
    requires outside { seat.old.inside ≡ false }
    ensures seat { IsSeatOf lock.now seat.new }
    ensures outside { seat.new.inside ≡ false }
    ensures number { seat.new.number ≡ seat.old.number }
{
    if let Some(mut state) = lock.try_enter(seat) {
        state.visits = state.visits.wrapping_add(1);
        lock.leave(seat, state, &());
    }
}

fn visit_times<B: Drop>(
    lock: &KernelLock<VisitCount<B>>,
    seat: &mut Seat<VisitCount<B>>,
    times: u64,
)
    requires seat { IsSeatOf lock.now seat.old }
    requires outside { seat.old.inside ≡ false }
    ensures seat { IsSeatOf lock.now seat.new }
    ensures outside { seat.new.inside ≡ false }
    ensures number { seat.new.number ≡ seat.old.number }
{
    for _ in 0..times {
        visit(lock, seat);
    }
}

// Takes the one seat off its row.
fn only_seat<B: Drop>(
    _lock: &KernelLock<VisitCount<B>>,
    mut row: Vec<Seat<VisitCount<B>>>,
) -> Seat<VisitCount<B>>
    requires one { vec_len row ≡ 1 }
    requires new { AreNew _lock.now row.items }
    ensures { result ≡ newcomer _lock.now 0 }
{
    let Some(seat) = row.pop() else {
        unreachable!()
    };
    row.destroy_empty();
    seat
}

// Puts a state behind a lock, visits it so many times, and says how many visits it counted. `None`
// is want of memory.
fn visit_all<B: Drop>(alloc: Global, state: VisitCount<B>, times: u64) -> Option<u64> {
    let Ok((lock, row)) = KernelLock::start(alloc, state, 1) else {
        return None;
    };
    let mut seat = only_seat(&lock, row);
    visit_times(&lock, &mut seat, times);
    let mut from = lock.gather_none();
    lock.gather(&mut from, seat);
    let state = lock.close_gathered(from);
    Some(state.visits)
}

/// Visits a lock round the state that the first number names so many times. How many visits were
/// made; `None` is want of memory.
pub(crate) fn visit_state(alloc: Global, words: &mut Args) -> Option<u64> {
    let what = number(words, 0);
    let times = u64::from(number(words, 1));
    match what {
        0 => visit_all(alloc, VisitCount::of(Small::new()), times),
        1 => visit_all(alloc, VisitCount::of(Large::new()), times),
        _ => {
            let bulk = Box::new(alloc, Large::new()).ok()?;
            visit_all(alloc, VisitCount::of(bulk), times)
        }
    }
}
