//! Numbers as a workbook has them, the classes of their formats, and dates.
#![tactic(auto)]

mod builtin;
mod classes;
mod dates;
mod formats;
mod laws;
mod numbers;
mod serial_days;

pub use builtin::{builtin_format_by_code, builtin_format_by_id};
pub use classes::detect_custom_number_format;
pub use dates::{ExcelDateTime, ExcelDateTimeType};
pub use formats::CellFormat;
pub use laws::{class_of_decimal_text, class_of_first_section};
pub use numbers::Number;
pub use serial_days::ymd_of_serial_day;
