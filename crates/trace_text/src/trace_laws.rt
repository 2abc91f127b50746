//! The laws of a trace's text. Each function does nothing: its contract is the law.
ghost use Rattle.std.specs.Prelude.{◌≡◌};
ghost use Rattle.vm_report.specs.vm_types.declared.call.Entry.{Entry};
ghost use Rattle.vm_report.specs.Trace.{entry_text};
ghost use Rattle.trace_text.specs.EntryForm.{IsTracedEntry};
ghost use Rattle.trace_text.specs.ReadLaws.{ReadsLines};
ghost use Rattle.trace_text.specs.TraceForm.{IsTrace};
ghost use Rattle.trace_text.specs.TraceLines.{TraceLine, trace_line_text, IsTraceLine, IsOpeningLine};
ghost use Rattle.trace_text.specs.Traces.{Trace, trace_text};

/// A line is the line of one entry alone.
pub fn one_entry_law()
    ensures { (d e : Entry) → IsTracedEntry d → IsTracedEntry e →
        entry_text d ≡ entry_text e → d ≡ e }
{}

/// A line is that of one line of the opening part alone.
pub fn one_opening_line_law()
    ensures { (l m : TraceLine) → IsTraceLine l → IsTraceLine m → IsOpeningLine l →
        IsOpeningLine m → trace_line_text l ≡ trace_line_text m → l ≡ m }
{}

/// A text is that of one trace alone.
pub fn one_trace_law()
    ensures { (t u : Trace) → IsTrace t → IsTrace u → trace_text t ≡ trace_text u → t ≡ u }
{}

/// A text is read line by line, up to its end or its first bad line.
pub fn reading_law()
    ensures { ReadsLines }
{}
