//! What a Fork does to the plain form.
ghost use Rattle.std.specs.Prelude.{◌≡◌, ◌+◌, OnOk, OnErr, IsSome, IsFalse, nat_le, unwrap_or};
ghost use Rattle.std.specs.FinMap as finite;
ghost use Rattle.std.specs.FinSet as set;
ghost use Rattle.flat_model.specs.Flat.{space_of, private_cells, reserved};
ghost use Rattle.flat_model.specs.Mapping.{cells_of};
ghost use Rattle.flat_state.specs.Mapped.{slots_left};
ghost use Rattle.flat_model.specs.Processes.{with_child};

use crate::spaces::Spaces;
use crate::state::FlatParts;
use crate::zeros::{named_slots_left, slots_left};
use std::alloc::AllocError;

impl FlatParts {
    // The slots that aren't reserved, if no more are reserved than there are. Looks at each cell.
    fn slots_left(&self) -> Option<u32>
        ensures { result ≡ slots_left self.now.slots (reserved self.now) }
    {
        let left = self.spaces.slots_left(self.slots)?;
        named_slots_left(&self.zeros, &self.spaces, left)
    }

    /// Whether there are slots for the private cells of a process that is alive once more.
    pub(crate) fn can_fork(&self, process: u32) -> bool
        requires { IsSome (space_of self.now process) }
        ensures { let needed = reserved self.now + private_cells (cells_of self.now process) in
            result ≡ nat_le needed self.now.slots }
    {
        match self.slots_left() {
            Some(left) => slots_left(left, private_cells(&self.spaces, process) as u64).is_some(),
            None => false,
        }
    }

    /// A child of a process is alive and born, with a copy of its space.
    pub(crate) fn fork(&mut self, process: u32, child: u32) -> Result<(), AllocError>
        requires { IsFalse (set.contains self.old.born child) }
        ensures ok { OnOk result (self.new ≡ with_child self.old process child) }
        ensures err { OnErr result (self.new ≡ self.old) }
    {
        let cells = self.spaces.cells_of(self.alloc, process)?;
        self.be_born(child, cells)
    }
}

// How many private cells a process that is alive has.
fn private_cells(spaces: &Spaces, process: u32) -> usize
    requires { IsSome (finite.get spaces.now process) }
    ensures { result ≡ private_cells (unwrap_or (finite.get spaces.now process) finite.empty) }
{
    match spaces.get(process) {
        Some(cells) => cells.private_cells(),
        None => 0,
    }
}
