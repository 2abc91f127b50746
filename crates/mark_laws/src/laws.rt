//! The laws.
ghost use Rattle.mark_laws.specs.AccountLaws.{AccountsLaw};
ghost use Rattle.mark_laws.specs.CutLaws.{CutsLaw};
ghost use Rattle.mark_laws.specs.EntryLaws.{EntriesLaw};
ghost use Rattle.mark_laws.specs.FailureLaws.{FailuresLaw};
ghost use Rattle.mark_laws.specs.FileLaws.{FilesStay};
ghost use Rattle.mark_laws.specs.MarkLaws.{MarksLaw};
ghost use Rattle.mark_laws.specs.RaiseLaws.{RaisesLaw};

/// Where a step leaves the blocks and the ends of the files, and which blocks new pages have.
#[tactic(auto, using(crate::proofs::FilesStay::files_stay_rule))]
pub fn files_stay_law()
    ensures { FilesStay }
{}

/// Which entries make a file shorter.
#[tactic(auto, using(crate::proofs::Shortenings::cuts_rule))]
pub fn cuts_law()
    ensures { CutsLaw }
{}

/// Marks stay true as a transfer begins and as it ends, however it went.
#[tactic(auto, using(crate::proofs::Ending::marks_rule))]
pub fn marks_law()
    ensures { MarksLaw }
{}

/// They stay true as the mark of a page rises that its block has, or that is zeros.
#[tactic(auto, using(crate::proofs::Rising::raises_rule))]
pub fn raises_law()
    ensures { RaisesLaw }
{}

/// They stay true as an entry is made, whether files get longer or shorter; and a Sync that answers reached the disk from then on.
#[tactic(auto, using(crate::proofs::Shortened::entries_rule))]
pub fn entries_law()
    ensures { EntriesLaw }
{}

/// The failures that they name stay true.
#[tactic(auto, using(crate::proofs::Failing::failures_rule))]
pub fn failures_law()
    ensures { FailuresLaw }
{}

/// Blocks are accounted for as pushes end, and along events.
#[tactic(auto, using(crate::proofs::Accounts::accounts_rule))]
pub fn accounts_law()
    ensures { AccountsLaw }
{}
