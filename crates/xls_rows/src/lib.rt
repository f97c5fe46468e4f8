//! Rows of cells by their headers, and single cells read as values of many types.
#![tactic(auto)]

mod builder;
mod columns;
mod error;
mod from_row;
pub mod laws;
mod loose;
mod range_rows;
mod read_cell;
mod refusals;
mod row;
mod values;
mod wholes;

pub use builder::{Headers, RangeDeserializerBuilder, deserialize};
pub use error::DeError;
pub use from_row::FromRow;
pub use loose::{deserialize_as_i64_or_none, deserialize_as_i64_or_string};
pub use range_rows::RangeDeserializer;
pub use read_cell::ReadCell;
pub use row::RowDeserializer;
