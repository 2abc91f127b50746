//! Laws of plans, and of what a history tells of them.
ghost use Rattle.std.specs.Prelude.{ℕ, ◌≡◌, ◌≤◌, ◌<◌, ◌+◌, ◌↔◌, ◌∷◌, [], ◌++◌, true, List, All, length};
ghost use mathlib.Core.List.{IsPrefix};
ghost use Rattle.flat_model.specs.vm_types.declared.call.Entry.{Entry};
ghost use Rattle.flat_model.specs.Told.{entries_of, ToldAlone};
ghost use Rattle.vm_script.specs.declared.plan.PlanAct.TheVariants as act;
ghost use Rattle.vm_script.specs.declared.plan.PlanLine.{PlanLine};
ghost use Rattle.vm_script.specs.PlanSeen.{PlanSeen};
ghost use Rattle.vm_script.specs.declared.fault.ScriptFault.{ScriptFault};
ghost use Rattle.vm_script.specs.declared.fault.ScriptKind.TheVariants.{Long};
ghost use Rattle.vm_script.specs.declared.statement.Statement.{Statement};
ghost use Rattle.vm_script.specs.Blocks.{Nests, IsProcessBlock, IsWithin, IsForkOfParent, StandsTogether};
ghost use Rattle.vm_script.specs.Lines.{lines as text_lines};
ghost use Rattle.vm_script.specs.Plans.{plan_of, plan_seen, empty_plan};
ghost use Rattle.vm_script.specs.Printed.{IsScript, script_text, with_statements};
ghost use Rattle.vm_script.specs.Sound.{IsSoundPlan, IsSoundSetup};
ghost use Rattle.vm_script.specs.Told.{Tells, Told, ToldFront, Spell, Forks, HasWaited, HasWaitedByPlace};
ghost use Rattle.vm_script.specs.Told.{parent_of, is_born, own_lines, own_calls, IsOneBlock};
ghost use Rattle.vm_script.specs.Ended.{AllEnded, SoFar};

/// What each block's caller has seen composes to the whole: where all blocks have ended with all
/// their lines, the history tells the plan.
pub fn all_ended_law()
    ensures told { (plan : PlanSeen) (H : List Entry) (seen : ℕ → List Entry) →
        AllEnded plan H seen (own_lines plan) → Told plan H }
{}

/// Blocks that were stopped tell a front of their lines.
pub fn stopped_law()
    ensures front { (plan : PlanSeen) (H : List Entry) (seen : ℕ → List Entry) →
        (lines_of : ℕ → List PlanLine) → AllEnded plan H seen lines_of →
        ((p : ℕ) → is_born plan H p ≡ true → IsPrefix (lines_of p) (own_lines plan p)) →
        ToldFront plan H }
{}

/// A plan of one block without waits is told exactly where the block's process made its lines and no
/// other process made anything.
pub fn one_block_law()
    ensures one { (plan : PlanSeen) (H : List Entry) → IsOneBlock plan →
        (Told plan H ↔ ToldAlone 1 (own_calls plan 1) H) }
{}

/// A block that runs line by line, by what its caller has seen: S behind the lines so far, and T
/// behind one more line or behind a wait.
pub fn line_by_line_law()
    ensures line { (plan : PlanSeen) (H : List Entry) (seen : ℕ → List Entry) (p : ℕ) →
        (S T : List Entry) (met lines : List PlanLine) (l : PlanLine) (es : List Entry) →
        SoFar plan H seen p S met lines → IsPrefix S T → IsPrefix T (seen p) →
        entries_of T p ≡ entries_of S p ++ es → Spell (l ∷ []) es → ¬ (l.act ≡ act.Wait) →
        SoFar plan H seen p T met (lines ++ l ∷ []) }
    ensures wait { (plan : PlanSeen) (H : List Entry) (seen : ℕ → List Entry) (p : ℕ) →
        (S T : List Entry) (met lines : List PlanLine) (l : PlanLine) →
        SoFar plan H seen p S met lines → IsPrefix S T → IsPrefix T (seen p) →
        entries_of T p ≡ entries_of S p → l.act ≡ act.Wait →
        ((c : ℕ) → Forks lines c → is_born plan H c ≡ true → IsPrefix (seen c) T) →
        SoFar plan H seen p T lines (lines ++ l ∷ []) }
{}

/// That a block waited is the same by a cut of the history as by the positions of its entries.
pub fn waits_law()
    ensures places { (plan : PlanSeen) (H : List Entry) (p : ℕ) (before after : List PlanLine) →
        Spell (before ++ after) (entries_of H p) →
        (HasWaited plan H p before ↔ HasWaitedByPlace plan H p before) }
{}

/// What holds of each plan that a script spells: its blocks nest and are numbered in preorder, and
/// each of its lines may be run.
pub fn sound_law()
    ensures sound { (text : List ℕ) (plan : PlanSeen) → plan_of text ≡ Ok plan →
        IsSoundPlan plan }
{}

/// What holds of each set-up line of a plan that a script spells: it is one that a line may say.
pub fn setup_law()
    ensures setup { (text : List ℕ) (plan : PlanSeen) → plan_of text ≡ Ok plan →
        IsSoundSetup plan.setup }
{}

/// A script that is printed plainly, a line for each statement, is read as what was printed.
pub fn print_and_parse_law()
    ensures read { (ss : List Statement) → IsScript ss empty_plan →
        plan_of (script_text ss) ≡ Ok (plan_seen (with_statements empty_plan 0 ss)) }
{}

/// A fault stands in a line of the script or behind the last one; in line 0 only where the script is
/// too long.
pub fn fault_line_law()
    ensures line { (text : List ℕ) (fault : ScriptFault) → plan_of text ≡ Err fault →
        fault.line ≤ length (text_lines text) + 1 }
    ensures long { (text : List ℕ) (fault : ScriptFault) → plan_of text ≡ Err fault →
        fault.line ≡ 0 → fault.kind ≡ Long }
{}

/// Where the blocks of a plan nest, the lines of each stand together, with those of its descendants;
/// a child has a higher number than its parent, and its Fork is a line of its parent.
pub fn blocks_law()
    ensures together { (plan : PlanSeen) (p : ℕ) → Nests plan → 1 ≤ p →
        p ≤ length plan.parents → StandsTogether plan p }
    ensures within { (parents : List ℕ) (p n m : ℕ) (lines : List PlanLine) →
        IsProcessBlock parents p n lines m → All (IsWithin p n m) lines }
    ensures parents { (plan : PlanSeen) (c p : ℕ) → Nests plan →
        parent_of plan.parents c ≡ Some p → p < c }
    ensures forks { (plan : PlanSeen) → Nests plan →
        All (IsForkOfParent plan.parents) plan.lines }
{}
