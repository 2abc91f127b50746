//! The test of what the calls on histories ask for.
ghost use Rattle.std.specs.Prelude.{IsTrue, All};
ghost use Rattle.vm_script.specs.vm_types.WellFormed.{IsWellFormed};

use entry_list::Entries;

/// Whether each call of a history is well formed.
pub fn are_well_formed(history: &Entries) -> bool
    ensures only { IsTrue result → All (λ e. IsWellFormed e.call) history.now }
    ensures each { All (λ e. IsWellFormed e.call) history.now → IsTrue result }
{
    let mut left = history.all();
    while let Some((entry, rest)) = left.split_first() {
        if !entry.entry().call.is_well_formed() {
            return false;
        }
        left = rest;
    }
    true
}
