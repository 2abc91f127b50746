//! What goes wrong in calls of streams in memory.
ghost use Rattle.std.specs.Prelude.{◌≡◌, ◌≤◌, IfOk};

use std::io;

/// What goes wrong in a call of a stream in memory.
#[derive(Clone, Copy, Drop)]
pub enum StreamFlaw {
    /// At most so many bytes are moved, and one where there is one.
    Short(usize),
    /// The call fails, and no byte is moved.
    Fails,
}

// The flaws of a stream's calls: of its first call the first one, and so on; calls behind the list have none.
#[derive(Drop)]
pub(crate) struct Flaws {
    listed: Vec<Option<StreamFlaw>>,
    calls: usize,
}

impl Flaws {
    pub(crate) fn new(listed: Vec<Option<StreamFlaw>>) -> Flaws {
        Flaws { listed, calls: 0 }
    }

    // How many of so many bytes the next call moves, which is counted.
    pub(crate) fn moved(&mut self, wanted: usize) -> io::Result<usize>
        ensures { IfOk result (λ count. (count ≤ wanted) × (count ≡ 0 → wanted ≡ 0)) }
    {
        let flaw = match self.listed.get(self.calls) {
            Some(flaw) => *flaw,
            None => None,
        };
        self.calls = self.calls.saturating_add(1);
        match flaw {
            None => Ok(wanted),
            Some(StreamFlaw::Short(most)) => Ok(wanted.min(most.max(1))),
            Some(StreamFlaw::Fails) => Err(io::ErrorKind::Interrupted.into()),
        }
    }
}
