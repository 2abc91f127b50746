//! The law of a printed trace. The function does nothing: its contract is the law.
ghost use Rattle.printed_traces.specs.Printed.{PrintedStands, PrintedIsLegal};

use trace_check::one_answer_law;

/// What a run prints with `--trace` before its report, over disks that tell, stands for flat memory as its processes found it and
/// for its history; and the one answer to it is that it is legal.
pub fn printed_trace_law()
    ensures stands { PrintedStands }
    ensures legal { PrintedIsLegal }
{
    one_answer_law();
}
