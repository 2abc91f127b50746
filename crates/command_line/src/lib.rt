//! The words of the command `sunvm`: what they say, and which are taken.
#![tactic(auto)]

mod file_words;
mod inquiry;
mod options;
mod saying;

pub use file_words::file_word;
pub use inquiry::Inquiry;
pub use options::Options;
pub use saying::{Saying, read_words};
