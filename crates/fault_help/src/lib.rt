//! What is said of faults: a line that explains the first fault of a script, and a text for each rule of volumes, set-up rule, signal and refusal.
#![tactic(auto)]

mod fields;
mod helps;
mod line_words;
mod rule_faults;
mod script_faults;
mod tables;
mod text;

pub use helps::{path_of_disk, script_help};
pub use tables::{disk_rule_help, errno_help, signal_help, volume_help};
pub use vm_script::{Errno, Signal};
