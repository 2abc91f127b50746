//! The laws of pages and of the bytes that they share. Each function does nothing: its contract is the law.
ghost use Rattle.flat_model.specs.CacheLaws.{OneCache};
ghost use Rattle.flat_model.specs.GrownLaws.{GrownPages};
ghost use Rattle.flat_model.specs.LineLaws.{LinesInPages};
ghost use Rattle.flat_model.specs.ObjectLaws.{SharedStore};

/// Bytes that lie in one page, as each line does, are that page's alone.
#[tactic(auto, using(crate::proofs::Lines::lines_in_pages_law))]
pub fn lines_in_pages_law()
    ensures { LinesInPages }
{}

/// A store through a shared cell changes its word in one page of one object, and nothing else.
#[tactic(auto, using(crate::proofs::Objects::shared_store_law))]
pub fn shared_store_law()
    ensures { SharedStore }
{}

/// Parts and loads see the same bytes of a file.
#[tactic(auto, using(crate::proofs::Caches::one_cache_law))]
pub fn one_cache_law()
    ensures { OneCache }
{}

/// The pages of a file that a Truncate or a written part leaves.
#[tactic(auto, using(crate::proofs::Grown::grown_pages_law))]
pub fn grown_pages_law()
    ensures { GrownPages }
{}
