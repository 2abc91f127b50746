//! What a history that tells a plan says to a user. Each function does nothing: its contract is the
//! law.
ghost use Rattle.std.specs.Prelude.{ℕ, ◌≡◌, ◌∷◌, ◌++◌, true, List, Some, slice_get};
ghost use mathlib.Core.List.{IsPrefix};
ghost use Rattle.flat_model.specs.vm_types.declared.call.Entry.{Entry};
ghost use Rattle.flat_model.specs.Told.{entries_of};
ghost use Rattle.vm_script.specs.declared.plan.PlanAct.TheVariants as act;
ghost use Rattle.vm_script.specs.declared.plan.PlanLine.{PlanLine};
ghost use Rattle.vm_script.specs.PlanSeen.{PlanSeen};
ghost use Rattle.vm_script.specs.Told.{HasWaitedByPlace, Spell, Tells, ToldFront, is_born, own_lines};

/// Each entry is of a block that was born.
pub fn told_entries_law()
    ensures born { (plan : PlanSeen) (H : List Entry) (lines_of : ℕ → List PlanLine) (i : ℕ) →
        (e : Entry) → Tells plan H lines_of → slice_get H i ≡ Some e →
        is_born plan H e.process ≡ true }
{}

/// Behind a wait of a process come its entries behind all those of the children that it forked
/// before the wait, and of their descendants.
pub fn told_waits_law()
    ensures behind { (plan : PlanSeen) (H : List Entry) (lines_of : ℕ → List PlanLine) (p : ℕ) →
        (before after : List PlanLine) (wait : PlanLine) → Tells plan H lines_of →
        is_born plan H p ≡ true → lines_of p ≡ before ++ wait ∷ after → wait.act ≡ act.Wait →
        HasWaitedByPlace plan H p before }
{}

/// Where blocks were stopped, the entries of each that was born spell a front of its own lines, and
/// nothing else.
pub fn told_front_law()
    ensures front { (plan : PlanSeen) (H : List Entry) (p : ℕ) → ToldFront plan H →
        is_born plan H p ≡ true → (lines : List PlanLine) × IsPrefix lines (own_lines plan p)
        × Spell lines (entries_of H p) }
{}
