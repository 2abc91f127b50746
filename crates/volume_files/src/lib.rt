//! The files of a script on their disks: disks are attached and their tables read, files are placed and written. No kernel is known
//! here.
#![tactic(auto)]

mod attaching;
mod file_lines;
mod free_places;
mod mounting;
mod numbering;
mod pages;
mod placing;
mod stops;
mod table_files;

pub use attaching::{Attached, attach, into_disks, into_swap};
pub use block_device::{
    Disk, DiskFault, OpenFault, Rack, ReadFault, Sink, Source, Unopened, read_to_limit, write_all,
};
pub use joined_disk::JoinedDisk;
pub use numbering::disk_numbers;
pub use placing::{Placed, place};
pub use stops::{HandedBack, OpenStop, Refusal};
pub use stored_files::{
    Heading, PageDisk, ShowStop, TableStop, show_files, trace_opening, write_tables,
};
pub use vm_report::{
    Call, Entries, Entry, MOST_BYTES, Plan, PlanAct, PlanLine, Reply, ScriptFault, SectionsLeft,
    SetupAct, SetupLine, amounts_of, broken_rule, disk_fault, generate, parse, parts,
    process_sections, rack_fault, read_fault, script_fault, setup_fault, setup_law, sound_law,
    summary, trace_entries, usage, volume_fault,
};
pub use volume_disks::Single;
pub use volume_format::Files;
