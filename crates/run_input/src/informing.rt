//! The program tells of itself.
ghost use Rattle.std.specs.Prelude.{◌≤◌};
ghost use Rattle.run_input.specs.Inquired.{TellsInquiry};

use command_line::Inquiry;
use run_endings::{Ending, InquiryEnd};
use volume_files::{Sink, write_all};

/// Tells what an inquiry about the program itself asks for. Where the sink fails in it, that is how the run ends.
///
/// Takes no memory.
pub fn tell_inquiry<K: Sink>(inquiry: Inquiry, out: &mut K) -> Ending
    ensures told { TellsInquiry inquiry (K.seen out.old) (K.seen out.new) result }
    ensures later { (K.seen out.old).faults ≤ (K.seen out.new).faults }
{
    match write_all(out, inquiry.text()) {
        Ok(()) => Ending::Informed(InquiryEnd::Told(inquiry)),
        Err(_) => Ending::Informed(InquiryEnd::Sink(inquiry)),
    }
}
