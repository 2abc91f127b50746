//! The laws of a check. Each function does nothing: its contract is the law.
ghost use Rattle.std.specs.Prelude.{◌≡◌, ℕ, List, Result};
ghost use Rattle.flat_model.specs.vm_types.declared.call.Entry.{Entry};
ghost use Rattle.flat_model.specs.Flat.{Flat};
ghost use Rattle.trace_text.specs.BadLines.{IsFirstBadLine};
ghost use Rattle.trace_check.specs.declared.verdict.Verdict.{Verdict};
ghost use Rattle.trace_check.specs.declared.verdict.TraceFault.{TraceFault};
ghost use Rattle.trace_check.specs.Checks.{IsTextFor, IsChecked};

use trace_text::one_trace_law;

/// A text stands for one flat memory and one history alone.
pub fn one_meaning_law()
    ensures { (text : List ℕ) (F G : Flat) (H K : List Entry) →
        IsTextFor text F H → IsTextFor text G K → (F ≡ G) × (H ≡ K) }
{
    one_trace_law();
}

/// A text that stands for flat memory and a history has no bad line.
pub fn no_bad_line_law()
    ensures { (text : List ℕ) (F : Flat) (H : List Entry) (line : ℕ) →
        IsTextFor text F H → ¬ IsFirstBadLine text line }
{}

/// A text has one answer alone.
pub fn one_answer_law()
    ensures { (text : List ℕ) (a b : Result Verdict TraceFault) →
        IsChecked text a → IsChecked text b → a ≡ b }
{
    one_meaning_law();
}
