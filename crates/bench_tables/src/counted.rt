//! States that count their visits, with bytes of different sizes besides.
ghost use Rattle.std.specs.Prelude.{◌≡◌};

use kernel_lock::guarded::Guarded;

/// With the count 64 bytes.
#[derive(Drop)]
pub struct Small {
    words: [u64; 7],
}

impl Small {
    pub fn new() -> Small {
        Small { words: [0; 7] }
    }
}

/// With the count 1024 bytes.
#[derive(Drop)]
pub struct Large {
    words: [u64; 127],
}

impl Large {
    pub fn new() -> Large {
        Large { words: [0; 127] }
    }
}

/// A count, and what moves with it.
#[derive(Drop)]
pub struct VisitCount<B> {
    pub visits: u64,
    pub bulk: B,
}

impl<B> VisitCount<B> {
    pub fn of(bulk: B) -> VisitCount<B> {
        VisitCount { visits: 0, bulk }
    }
}

/// The state keeps no history, and any change of it is allowed.
impl<B> Guarded for VisitCount<B> {
    ghost use Rattle.bench_tables.specs.Free.{seat_itself, no_entries, no_note, AnyState, AnyChange};
    ghost use Rattle.std.specs.Prelude.{◌≡◌, []};
    ghost use Rattle.std.proofs.Common.{refl};
    ghost use Rattle.std.proofs.lemmas.List.Elements.{All-nil};

    type Entry = u32;

    type Note = u32;

    type Held = ();

    ghost seat_of = { seat_itself };

    ghost history = { no_entries };

    ghost note_of = { no_note };

    ghost fits = { AnyState };

    ghost moves = { AnyChange };

    fn length(&self) -> u64 {
        0
    }

    ghost keeps = { λ opening s t notes k n m fit at moved. tt };

    ghost grows = { λ opening s t notes k n m fit at moved. ([], refl, All-nil (λ e. e ≡ k)) };
}
