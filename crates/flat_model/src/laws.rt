//! The laws of the definitions. Each function does nothing: its contract is the law.
ghost use Rattle.flat_model.specs.MapLaws.{MapThenUnmap};
ghost use Rattle.flat_model.specs.ReserveLaws.{Reservation};
ghost use Rattle.flat_model.specs.NamedLaws.{NamedZeros};
ghost use Rattle.flat_model.specs.PartLaws.{FileBytes};
ghost use Rattle.flat_model.specs.SpaceLaws.{LowestGap, RangesOfCells};
ghost use Rattle.flat_model.specs.FlatLaws.{StaysFlat};
ghost use Rattle.flat_model.specs.HistoryLaws.{Quiet, OneMore};
ghost use Rattle.flat_model.specs.StoreLaws.{StoreThenLoad, PrivateStore, ForkThenStore};

/// The lowest gap is free and fits, and no lower one does.
#[tactic(auto, using(crate::proofs::Gap::lowest_gap_law))]
pub fn lowest_gap_law()
    ensures { LowestGap }
{}

/// What stands at each page after cells were put in or taken out.
#[tactic(auto, using(crate::proofs::Ranges::ranges_law))]
pub fn ranges_law()
    ensures { RangesOfCells }
{}

/// What is stored is loaded again through every cell that shows the page, and through no private copy.
#[tactic(auto, using(crate::proofs::Stores::store_then_load_law))]
pub fn store_then_load_law()
    ensures { StoreThenLoad }
{}

/// A private store changes one cell, and no other process sees it.
#[tactic(auto, using(crate::proofs::Stores::private_store_law))]
pub fn private_store_law()
    ensures { PrivateStore }
{}

/// Parent and child show the same pages after a fork, and don't see each other's private stores.
#[tactic(auto, using(crate::proofs::Forks::fork_law))]
pub fn fork_law()
    ensures { ForkThenStore }
{}

/// A signal, a refusal and a failed transfer change nothing but tails.
#[tactic(auto, using(crate::proofs::Quiet::quiet_law))]
pub fn quiet_law()
    ensures { Quiet }
{}

/// When a legal history stays legal with an entry more, and what flat memory is then.
#[tactic(auto, using(crate::proofs::Histories::one_more_law))]
pub fn one_more_law()
    ensures { OneMore }
{}

/// What a Map that isn't refused leaves, and an Unmap of the same range after it.
#[tactic(auto, using(crate::proofs::Mappings::map_then_unmap_law))]
pub fn map_then_unmap_law()
    ensures { MapThenUnmap }
{}

/// Which zero objects cells name, which stay, and the number of a new one.
#[tactic(auto, using(crate::proofs::Named::named_zeros_law))]
pub fn named_zeros_law()
    ensures { NamedZeros }
{}

/// What is reserved after each call.
#[tactic(auto, using(crate::proofs::ReserveKept::reservation_law))]
pub fn reservation_law()
    ensures { Reservation }
{}

/// What bytes a written part leaves in its file, and that a tail is none of a file's bytes.
#[tactic(auto, using(crate::proofs::FileBytes::file_bytes_law))]
pub fn file_bytes_law()
    ensures { FileBytes }
{}

/// Flat memory that is well formed stays so, step by step and over a whole history.
#[tactic(auto, using(crate::proofs::WellFormed::stays_flat_law))]
pub fn stays_flat_law()
    ensures { StaysFlat }
{}
