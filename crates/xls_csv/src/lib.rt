//! The CSV of a sheet: of a range at once, or of a sheet's cells field by field into a sink.
#![tactic(auto)]

mod ahead;
mod boxes;
mod dates;
mod export;
mod extent;
mod fields;
mod gathered;
mod laws;
mod line;
mod numbers;
mod record;
mod rows;
mod seen;

pub use ahead::Ahead;
pub use boxes::{BoxBuffer, put_box};
pub use export::export_csv;
pub use extent::{Extent, extent_of};
pub use fields::field_text;
pub use laws::{dense_boxes, printed_fields, rows_of_sheet};
pub use rows::write_rows;
pub use seen::put_seen_box;
