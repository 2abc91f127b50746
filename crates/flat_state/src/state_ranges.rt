//! What Protect and Sync do to the plain form.
ghost use Rattle.std.specs.Prelude.{◌≡◌, ◌+◌, ◌<◌, ◌^◌, IfOk, IsSome, unwrap_or};
ghost use Rattle.std.specs.FinMap as finite;
ghost use Rattle.flat_model.specs.Flat.{space_of};
ghost use Rattle.flat_model.specs.Access.{with_space};
ghost use Rattle.flat_model.specs.Space.{with_prots};
ghost use Rattle.flat_model.specs.Words.{page, pages_in};
ghost use Rattle.flat_model.specs.Mapping.{cells_of, are_mapped, may_have, valid_range};
ghost use Rattle.flat_state.specs.FlatState.{protect_result};

use crate::spaces::Spaces;
use crate::state::FlatParts;
use flat_model::{Errno, Prot, is_range, page_of, pages_in};

impl FlatParts {
    /// Whether a range may be spoken of: it is valid, and each page of it has a cell.
    #[tactic(auto, unfolding(flat_model::specs::Mapping::valid_range))]
    pub(crate) fn valid_range(&self, process: u32, addr: u32, length: u32) -> Result<(), Errno>
        requires { IsSome (space_of self.now process) }
        ensures { result ≡ valid_range self.now process addr length }
    {
        if !is_range(addr, length) {
            return Err(Errno::Invalid);
        }
        if !are_mapped(&self.spaces, process, page_of(addr), pages_in(length)) {
            return Err(Errno::NotMapped);
        }
        Ok(())
    }

    /// The first refusal that is due to a Protect, if one is.
    pub(crate) fn protect_result(
        &self,
        process: u32,
        addr: u32,
        length: u32,
        prot: Prot,
    ) -> Result<(), Errno>
        requires { IsSome (space_of self.now process) }
        ensures { result ≡ protect_result self.now process addr length prot }
    {
        self.valid_range(process, addr, length)?;
        if !may_have(&self.spaces, process, page_of(addr), pages_in(length), prot) {
            return Err(Errno::Access);
        }
        Ok(())
    }

    /// Gives the cells at so many pages of a process that is alive this protection. Takes no memory.
    pub(crate) fn protect(&mut self, process: u32, first: u32, count: u32, prot: Prot)
        requires alive { IsSome (space_of self.old process) }
        requires pages { first + count < 2 ^ 32 }
        ensures { let cells = with_prots (cells_of self.old process) first count prot in
            self.new ≡ with_space self.old process cells }
    {
        self.spaces.protect(process, first, count, prot);
    }
}

// Whether each of so many pages of a process that is alive has a cell.
fn are_mapped(spaces: &Spaces, process: u32, first: u32, count: u32) -> bool
    requires alive { IsSome (finite.get spaces.now process) }
    requires pages { first + count < 2 ^ 32 }
    ensures { let cells = unwrap_or (finite.get spaces.now process) finite.empty in
        result ≡ are_mapped cells first count }
{
    match spaces.get(process) {
        Some(cells) => cells.are_mapped(first, count),
        None => false,
    }
}

// Whether each cell at so many pages of a process that is alive may have the protection.
fn may_have(spaces: &Spaces, process: u32, first: u32, count: u32, prot: Prot) -> bool
    requires alive { IsSome (finite.get spaces.now process) }
    requires pages { first + count < 2 ^ 32 }
    ensures { let cells = unwrap_or (finite.get spaces.now process) finite.empty in
        result ≡ may_have cells first count prot }
{
    match spaces.get(process) {
        Some(cells) => cells.may_have(first, count, prot),
        None => false,
    }
}
