//! Every text that is printed: the report of a history, its trace and its summary, and what is said
//! of a script that can't be run and of faults.
#![tactic(auto)]

mod cursors;
mod faults;
mod files;
mod groups;
mod laws;
mod line_results;
mod pieces;
mod quick;
mod results;
mod runs;
mod sections;
mod summaries;
mod text;
mod traces;
mod well_formed;

pub use entry_list::Entries;
pub use faults::{
    disk_fault, rack_fault, read_fault, script_fault, setup_fault, usage, volume_fault,
};
pub use files::{file_heading, file_line, file_lines};
pub use laws::{file_lines_law, own_entries_law};
pub use pieces::{SectionsLeft, process_sections};
pub use sections::process_section;
pub use summaries::summary;
pub use traces::{
    trace_count, trace_disk, trace_entries, trace_entry, trace_file, trace_opening, trace_root,
};
pub use vm_script::{
    ByteText, Call, Entry, Errno, Kind, Line, MOST_BYTES, Object, Place, Plan, PlanAct, PlanLine,
    Prot, Reply, ScriptFault, SetupAct, SetupLine, Signal, amounts_of, broken_rule, bytes_before,
    generate, is_file_name, pages_in, parse, parts, setup_law, sound_law,
};
pub use well_formed::are_well_formed;
