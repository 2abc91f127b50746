//! Laws of stores. Each function does nothing: its contract is the law.
ghost use Rattle.page_store.specs.Away.{AwayLaw};
ghost use Rattle.page_store.specs.TableLaws.{TableLaw};

/// At most one frame is away for each disk.
#[tactic(auto, using(crate::proofs::AwayLemmas::away_law))]
pub fn away_law()
    ensures { AwayLaw }
{}

/// What stays where the table of places changes: a slot made, pushed or dropped, a blank page written, a file that grew or
/// was cut.
#[tactic(auto, using(crate::proofs::TableLemmas::table_law))]
pub fn table_law()
    ensures { TableLaw }
{}
