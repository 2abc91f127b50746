//! How a lock is started: the state goes into the slot, and the seats are dealt.
ghost use Rattle.std.specs.Prelude.{◌≡◌, ◌+◌, ◌<◌, ◌≤◌, [], ◌∷◌, replicate, vec_len, vec_capacity, IfOk, IfErr, Some, None};
ghost use Rattle.kernel_lock.specs.Rule.{dealer_at};
ghost use Rattle.kernel_lock.specs.Seats.{AreNew, newcomer};

use crate::bell::Bell;
use crate::board::{About, LockRule, TableSeat, View};
use crate::guarded::Guarded;
use crate::lock::KernelLock;
use crate::plays::Deal;
use crate::seat::{Seat, SeatAt};
use atomic_table::{Refused, Shared, Table};
use std::alloc::{AllocFailed, Global};
use std::snapshot::Snapshot;

type Board<S> = Shared<
    Option<S>,
    View<S, <S as Guarded>::Entry, <S as Guarded>::Note>,
    About<S>,
    LockRule<S>,
>;

// The one slot, or the state again.
fn slot_of<S>(alloc: Global, state: S) -> Result<Vec<Option<S>>, S>
    ensures ok { IfOk result (λ v. v.items ≡ Some state ∷ []) }
    ensures err { IfErr result (λ s. s ≡ state) }
{
    let mut slots = Vec::new(alloc);
    match slots.push(Some(state)) {
        Ok(()) => Ok(slots),
        Err(AllocFailed { value }) => {
            let Some(state) = value else { unreachable!() };
            slots.destroy_empty();
            Err(state)
        }
    }
}

fn out_of<S>(mut slots: Vec<Option<S>>) -> S
    requires { (s : S) × (slots.items ≡ Some s ∷ []) }
    ensures { slots.items ≡ Some result ∷ [] }
{
    let Some(Some(state)) = slots.pop() else {
        unreachable!()
    };
    slots.destroy_empty();
    state
}

fn deal<S: Guarded>(
    board: &Board<S>,
    dealer: &mut TableSeat<S, S::Entry, S::Note>,
    number: u32,
) -> Seat<S>
    requires board { (dealer.old.table_id ≡ board.now.table_id) × (board.now.table_id.words ≡ 5) }
    requires dealer { dealer.old.me
        ≡ (dealer_at board.now.key.opening.value board.now.key.seats number, []) }
    requires room { number < board.now.key.seats }
    //
    ensures board { dealer.new.table_id ≡ dealer.old.table_id }
    ensures dealer { dealer.new.me
        ≡ (dealer_at board.now.key.opening.value board.now.key.seats (number + 1), []) }
    ensures seat { result ≡ newcomer (record {
      lock = board.now.table_id;
      seats = board.now.key.seats;
      opening = board.now.key.opening.value;
    }) number }
{
    let place = board.split_seat::<Deal>(dealer);
    SeatAt { place, number }
}

fn deal_all<S: Guarded>(
    board: &Board<S>,
    dealer: &mut TableSeat<S, S::Entry, S::Note>,
    seats: u32,
    row: &mut Vec<Seat<S>>,
)
    requires board { (dealer.old.table_id ≡ board.now.table_id) × (board.now.table_id.words ≡ 5) }
    requires dealer { dealer.old.me
        ≡ (dealer_at board.now.key.opening.value board.now.key.seats 0, []) }
    requires room { seats ≤ board.now.key.seats }
    requires row { (vec_len row.old ≡ 0) × (seats ≤ vec_capacity row.old) }
    //
    ensures len { vec_len row.new ≡ seats }
    ensures seats { AreNew (record {
      lock = board.now.table_id;
      seats = board.now.key.seats;
      opening = board.now.key.opening.value;
    }) row.new.items }
{
    for number in 0..seats {
        let seat = deal(board, dealer, number);
        let Ok(()) = row.push(seat) else {
            unreachable!()
        };
    }
}

impl<S: Guarded> KernelLock<S> {
    /// Puts a state behind a lock of 1 to 65 seats, which have the numbers from 0 on, in order.
    /// Its memory is that of the table and of the seats' row; all other calls take none. `Err` is want of memory, and hands the state back.
    pub fn start(alloc: Global, state: S, seats: u32) -> Result<(KernelLock<S>, Vec<Seat<S>>), S>
        requires count { (0 < seats) × (seats ≤ 65) }
        requires empty { S.history state ≡ [] }
        requires fits { S.fits state state (replicate seats None) }
        //
        ensures lock { IfOk result (λ r. (r.0.seats ≡ seats) × (r.0.opening ≡ state)) }
        ensures count { IfOk result (λ r. vec_len r.1 ≡ seats) }
        ensures seats { IfOk result (λ r. AreNew r.0 r.1.items) }
        ensures err { IfErr result (λ s. s ≡ state) }
    {
        let about = About {
            opening: Snapshot::of(&state),
            seats,
        };
        let Ok(mut row) = Vec::with_capacity(alloc, seats as usize) else {
            return Err(state);
        };
        let slots = slot_of(alloc, state)?;
        match Table::new(alloc, &[0, 0, 0, 0, 0], slots, &about) {
            Ok((table, mut dealer)) => {
                deal_all(&table.shared, &mut dealer, seats, &mut row);
                let lock = KernelLock {
                    table,
                    seats,
                    leaves: Bell::new(),
                    changes: Bell::new(),
                    files: Bell::new(),
                };
                Ok((lock, row))
            }
            Err(Refused { slots }) => Err(out_of(slots)),
        }
    }
}
