//! Strings in the records of a workbook stream: in the body of a record, and in the string table that
//! Continue records cut anywhere.
#![tactic(auto)]

mod lists;
mod marked;
mod sst;
mod strings;
mod uncounted;

pub use lists::Strings;
pub use sst::{SstReader, parse_sst, skip_sst};
pub use strings::{parse_short_string, parse_string, split_short, split_string};
pub use uncounted::size_of_uncounted;
pub use xls_record::{Biff, Part, Pieces, Record, XlsError, is_biff8, need};
