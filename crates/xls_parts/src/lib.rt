//! The records of a workbook's parts, one after another with their places in the stream.
#![tactic(auto)]

mod laws;
mod part_records;
pub mod types;

pub use laws::outer_are_those;
pub use part_records::{GlobalsRecords, PartRecord, PartRecords, WholeRecords};
