//! The ways in which a run ends.
ghost use Rattle.std.specs.Prelude.{◌≡◌};
ghost use Rattle.run_endings.specs.Ending.{status_of, fault_of, trace_status};

use crate::fault::RunFault;
use crate::inquiry_end::InquiryEnd;
use trace_check::{TraceFault, Verdict};
use volume_files::{DiskFault, OpenFault, Refusal, ScriptFault};

/// What a text is, as a trace.
#[derive(Clone, Copy, Debug, PartialEq, Eq)]
pub enum TraceAnswer {
    /// It stands for a history, which has this verdict.
    Verdict(Verdict),
    /// It stands for none.
    Fault(TraceFault),
    /// It has more bytes than a trace may have.
    Long,
}

/// How the check of a trace ended.
#[derive(Clone, Copy, Debug, PartialEq, Eq)]
pub enum TraceEnd {
    /// The answer was told.
    Told(TraceAnswer),
    /// The sink failed in a verdict.
    Sink,
}

/// How a run ended, with all that its text needs.
#[derive(Debug, Drop)]
pub enum Ending {
    /// The report was written.
    Whole,
    /// The words aren't accepted.
    Usage,
    /// The script isn't in the grammar.
    NoScript(ScriptFault),
    /// A set-up rule is broken.
    Refused(Refusal),
    /// The source failed.
    NotRead,
    /// The sink failed in the opening part of the trace.
    OpeningSink,
    /// The sink failed in the report.
    Sink,
    /// A disk or the rack failed before the processes ran.
    Opening(OpenFault),
    /// A transfer failed as the files were closed.
    Closing(DiskFault),
    /// A transfer failed as a file was read back.
    Showing(DiskFault),
    /// There is no memory left.
    Memory,
    /// A trace was checked in place of a script.
    Checked(TraceEnd),
    /// The program was asked about itself.
    Informed(InquiryEnd),
}

// The status of a check.
fn trace_status(end: &TraceEnd) -> u8
    ensures { result ≡ trace_status end.now }
{
    match end {
        TraceEnd::Told(TraceAnswer::Verdict(Verdict::Legal(_))) => 0,
        TraceEnd::Told(TraceAnswer::Verdict(Verdict::First(_))) => 9,
        TraceEnd::Told(TraceAnswer::Fault(_)) | TraceEnd::Told(TraceAnswer::Long) => 3,
        TraceEnd::Sink => 6,
    }
}

impl Ending {
    /// The status.
    pub fn status(&self) -> u8
        ensures { result ≡ status_of self.now }
    {
        match self {
            Ending::Whole => 0,
            Ending::Usage => 2,
            Ending::NoScript(_) => 3,
            Ending::Refused(_) => 4,
            Ending::NotRead => 5,
            Ending::OpeningSink | Ending::Sink => 6,
            Ending::Opening(_) | Ending::Closing(_) | Ending::Showing(_) => 7,
            Ending::Memory => 8,
            Ending::Checked(end) => trace_status(end),
            Ending::Informed(end) => end.status(),
        }
    }

    /// The fault that the status 7 names.
    pub fn into_fault(self) -> Option<RunFault>
        ensures { result ≡ fault_of self }
    {
        match self {
            Ending::Opening(fault) => Some(RunFault::Opening(fault)),
            Ending::Closing(fault) => Some(RunFault::Closing(fault)),
            Ending::Showing(fault) => Some(RunFault::Showing(fault)),
            _ => None,
        }
    }
}
