//! What the records, substreams and parts of a workbook stream are: definitions that the other
//! crates cite, and the laws over them.
#![tactic(auto)]

mod laws;
mod part;
pub mod types;

pub use laws::{
    has_groups, has_holding, has_run, one_globals_part, one_groups, one_holding, one_list, one_run,
    one_sheet_part, one_table, same_globals, same_parts,
};
pub use part::Part;
