//! A small state to try the lock with: a list of numbers, each with the seat that added it, and their sum.
ghost use Rattle.std.specs.Prelude.{◌≡◌, ℕ, ◌++◌, [], ◌∷◌, None, Some};
ghost use Rattle.std.specs.Bool.{MatchBool};
ghost use Rattle.test_lock.specs.Tally.{MovesTally, entries};

use kernel_lock::guarded::Guarded;
use std::alloc::Global;
use std::marker::Model;

/// The list of pairs of a seat and a number, and the sum of the numbers without those that are out.
///
/// Contracts see it as the record `TallyView`.
#[derive(Drop)]
pub struct Tally {
    pub list: Vec<(u32, u64)>,
    pub sum: u64,
}

impl Model for Tally {
    ghost use Rattle.test_lock.specs.Tally.{TallyView};

    ghost Value = { TallyView };

    ghost view = { λ t. record { list = t.list.items; sum = t.sum } };
}

impl Guarded for Tally {
    ghost use Rattle.test_lock.specs.Tally.{seat_named, entries, FitsTally, MovesTally, keeps_of, grows_of};

    type Entry = (u32, u64);

    type Note = u64;

    type Held = Option<u64>;

    ghost seat_of = { seat_named };

    ghost history = { entries };

    ghost note_of = { λ held. held };

    ghost fits = { FitsTally };

    ghost moves = { MovesTally };

    fn length(&self) -> u64 {
        self.list.len() as u64
    }

    ghost keeps = { keeps_of };

    ghost grows = { grows_of };
}

impl Tally {
    /// An empty list.
    pub fn new(alloc: Global) -> Tally
        ensures { result ≡ record { list = []; sum = 0 } }
    {
        Tally {
            list: Vec::new(alloc),
            sum: 0,
        }
    }

    /// Adds a number where the sum and the memory allow it, and says whether it did.
    pub fn add(&mut self, seat: u32, number: u64) -> bool
        ensures moves { (n : _) → MovesTally seat self.old n self.new n }
        ensures added { MatchBool result
            (entries self.new ≡ entries self.old ++ (seat, number) ∷ [])
            (entries self.new ≡ entries self.old) }
    {
        let Some(sum) = self.sum.checked_add(number) else {
            return false;
        };
        if self.list.push((seat, number)).is_err() {
            return false;
        }
        self.sum = sum;
        true
    }

    /// Takes a number out of the sum, if there is so much, and gives what is out.
    pub fn take_out(&mut self, number: u64) -> Option<u64>
        ensures moves { (k : ℕ) → MovesTally k self.old None self.new result }
        ensures list { entries self.new ≡ entries self.old }
    {
        let sum = self.sum.checked_sub(number)?;
        self.sum = sum;
        Some(number)
    }

    /// Puts a number that was out back into the sum, if there is room, and gives what is still out.
    pub fn put_back(&mut self, number: u64) -> Option<u64>
        ensures moves { (k : ℕ) → MovesTally k self.old (Some number) self.new result }
        ensures list { entries self.new ≡ entries self.old }
    {
        let Some(sum) = self.sum.checked_add(number) else {
            return Some(number);
        };
        self.sum = sum;
        None
    }
}
