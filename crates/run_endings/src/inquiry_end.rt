//! How an inquiry about the program itself ends.
ghost use Rattle.std.specs.Prelude.{◌≡◌};
ghost use Rattle.run_endings.specs.Ending.{inquiry_status};

use command_line::Inquiry;

/// How an inquiry about the program itself ended.
#[derive(Clone, Copy, Debug, PartialEq, Eq)]
pub enum InquiryEnd {
    /// Its text was told.
    Told(Inquiry),
    /// The sink failed in its text.
    Sink(Inquiry),
}

impl InquiryEnd {
    // The status.
    pub(crate) fn status(&self) -> u8
        ensures { result ≡ inquiry_status self.now }
    {
        match self {
            InquiryEnd::Told(_) => 0,
            InquiryEnd::Sink(_) => 6,
        }
    }
}
