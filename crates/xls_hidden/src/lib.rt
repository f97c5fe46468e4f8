//! What is hidden in a sheet: its rows and columns, frozen panes and zeros, by the records of its part.
#![tactic(auto)]

mod damage;
mod fields;
mod filter_areas;
mod laws;
mod lines;
mod reading;
mod said;
mod sheet;
pub mod types;
mod window;

pub use damage::{Damage, DamagedRecord, Flaw};
pub use fields::{ColumnMarks, Mark, Pane, RowMark, Window};
pub use filter_areas::read_filter_areas;
pub use laws::runs_are_longest;
pub use lines::{FilterArea, Run, Runs, Why};
pub use said::{Said, row_count, said_of};
pub use sheet::{HiddenItem, HiddenItems, HiddenSheet, read_hidden};

#[cfg(test)]
mod tests;
