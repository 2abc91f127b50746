//! Scripts: their grammar, the plan that a script spells, and what a history tells of a plan.
#![tactic(auto)]

mod byte_text;
mod call_lines;
mod counts;
mod fault;
mod fields;
mod file_names;
mod generating;
mod laws;
mod number;
mod open_plan;
mod parsing;
mod plan;
mod plan_call;
mod quick;
mod rules;
mod setup_lines;
mod splitting;
mod statement;
mod statements;
mod told_laws;

pub use byte_text::ByteText;
pub use counts::{MOST_ENTRIES, parts};
pub use fault::{ScriptFault, ScriptKind};
pub use flat_model::{
    Call, Entry, Errno, Kind, Line, Object, Place, Prot, Reply, Signal, bytes_before, ends_call,
    pages_in,
};
pub use generating::generate;
pub use laws::{
    all_ended_law, blocks_law, fault_line_law, line_by_line_law, one_block_law,
    print_and_parse_law, setup_law, sound_law, stopped_law, waits_law,
};
pub use number::{bytes_of, is_file_name, number_of_field};
pub use parsing::{MOST_BYTES, parse};
pub use plan::{Plan, PlanAct, PlanLine, SetupAct, SetupLine};
pub use plan_call::PlanCall;
pub use rules::{Amounts, amounts_of, broken_rule};
pub use told_laws::{told_entries_law, told_front_law, told_waits_law};
