//! What a state has to be to stand behind the lock.
ghost use Rattle.std.specs.Prelude.{◌≡◌, ℕ, List, length, Option};
ghost use Rattle.kernel_lock.specs.Laws.{Keeps, Grows};

/// A state that one seat at a time changes.
///
/// The state keeps a history, and each entry names the seat that made it. What a seat has outside the lock is its note.
/// `fits` ties the state to the state that the lock was started with and to the notes of all seats, in the order of their numbers.
/// `moves` says what one seat may do between entering and leaving: from its state and note to the new state and note.
/// The two laws are proved once for each state, and the lock rests on them alone.
pub trait Guarded {
    /// An entry of the history: plain data.
    type Entry;

    /// What a seat holds outside the lock: plain data.
    type Note;

    /// The value that a seat has outside the lock. Its meaning is a note, or none where nothing is out.
    type Held;

    ghost seat_of: { Self.Entry → ℕ };

    ghost history: { Self → List Self.Entry };

    ghost note_of: { Self.Held → Option Self.Note };

    ghost fits: { Self → Self → List (Option Self.Note) → Type 0 };

    ghost moves: { ℕ → Self → Option Self.Note → Self → Option Self.Note → Type 0 };

    /// How many entries the history has.
    fn length(&self) -> u64
        ensures { result ≡ length (history self.now) };

    ghost keeps: { Keeps seat_of history fits moves };

    ghost grows: { Grows seat_of history fits moves };
}
