//! Laws of what is printed.
ghost use Rattle.std.specs.Prelude.{ℕ, ◌≡◌, ◌∷◌, ◌++◌, ◌+◌, ◌%◌, List, length};
ghost use Rattle.vm_script.specs.vm_types.declared.call.Entry.{Entry};
ghost use Rattle.vm_script.specs.declared.plan.PlanAct.TheVariants as act;
ghost use Rattle.vm_script.specs.declared.plan.PlanLine.{PlanLine};
ghost use Rattle.vm_script.specs.Told.{Spell};
ghost use Rattle.vm_report.specs.Laws.{PrintsOwn};
ghost use Rattle.vm_report.specs.Report.{file_lines};

/// Where the entries of a block spell its lines, a line prints the result of just the entries that
/// spell it.
pub fn own_entries_law()
    ensures line { (l : PlanLine) (lines : List PlanLine) (es : List Entry) →
        ¬ (l.act ≡ act.Wait) → Spell (l ∷ lines) es → PrintsOwn l lines es }
{}

/// The lines of a file's bytes can be printed page by page.
pub fn file_lines_law()
    ensures pieces { (offset : ℕ) (front back : List ℕ) → length front % 32 ≡ 0 →
        file_lines offset (front ++ back)
        ≡ file_lines offset front ++ file_lines (offset + length front) back }
{}
