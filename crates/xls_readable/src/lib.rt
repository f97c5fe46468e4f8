//! The values and lines of a workbook as people read them: fields of CSV, lines of fields, and JSON; and exact
//! lines. They are appended to a text that is used again.
#![tactic(auto)]

mod cell_lines;
mod choices;
mod delimited;
mod exact_lines;
mod forms;
mod items;
mod json_lines;
mod laws;
mod lines;
mod properties;
mod rows;
mod values;
mod words;

pub use cell_lines::{CellLines, push_cell, push_shown_cell};
pub use choices::{FieldStyle, Listing, Origin, SheetChoice, Table};
pub use delimited::{
    Delimiter, end_row, push_failure_field, push_field, push_int_field, push_moment_field,
    push_number_field, push_separator, push_text_field, push_truth_field,
};
pub use exact_lines::push_exact_line;
pub use forms::{Form, push_line};
pub use items::{Field, Member, push_text_line};
pub use json_lines::push_json_line;
pub use laws::{numbers_are_bare, rows_read_back};
pub use lines::{
    push_dates, push_error, push_formula_line, push_merge, push_name, push_ok, push_ref, push_sheet,
};
pub use properties::{Property, push_custom, push_property};
pub use rows::push_row;
pub use values::Value;
pub use words::{truth_word, type_word, visible_word, year_word};
