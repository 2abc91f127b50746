//! What the trials of whole runs share: a run over memory forms and what it left, scripts, blocks of volumes, and histories told anew.
#![tactic(auto)]

mod broken_scripts;
mod first_path;
mod replaying;
mod retelling;
mod script_texts;
mod trial;
mod volume_blocks;

pub use broken_scripts::{BROKEN, Broken, MORE};
pub use first_path::{FIRST, REPORT, TRACE};
pub use replaying::{acts, replays};
pub use retelling::{Own, file_section, sections};
pub use script_texts::{file_lines, many_files, script_of_file};
pub use trial::{
    Fails, Left, NEVER, NO_WORDS, run_failing, run_kept, run_over, run_threadless, run_trial,
    run_untold, words_of,
};
pub use volume_blocks::{OLD_TABLE, TABLE, Word, blocks_of, put_words};
