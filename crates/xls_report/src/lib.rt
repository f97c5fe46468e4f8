//! What is written of a workbook: its dump, its CSV, and its canonical stream.
#![tactic(auto)]

mod csv;
mod dump;
mod ending;
mod exact;
mod faults;
mod remake;

pub use csv::write_csv;
pub use dump::{write_report, write_sheets};
pub use ending::Ending;
pub use exact::ExactLines;
pub use faults::{write_fault, write_refusal, write_sound};
pub use remake::write_remake;
