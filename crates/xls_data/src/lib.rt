//! The values of a workbook's cells: numbers, texts, dates, errors, and what a sheet is called.
#![tactic(auto)]

mod cells;
mod conversions;
mod data_types;
mod errors;
mod formats;
mod kind;
mod laws;
mod numeric;
mod options;
mod refs;
mod regions;
mod sheets;
mod texts;
mod values;

pub use cells::Cell;
pub use data_types::DataType;
pub use errors::CellErrorType;
pub use formats::{
    format_excel_i64, format_excel_i64_ref, format_excel_number, format_excel_number_ref,
};
pub use kind::CellType;
pub use laws::{equality_by_content, order_of_regions};
pub use numeric::Numeric;
pub use refs::DataRef;
pub use regions::{Dimensions, HeaderRow};
pub use sheets::{Sheet, SheetType, SheetVisible};
pub use values::Data;
pub use xls_dates::{
    CellFormat, ExcelDateTime, ExcelDateTimeType, Number, builtin_format_by_code,
    builtin_format_by_id, class_of_decimal_text, class_of_first_section,
    detect_custom_number_format, ymd_of_serial_day,
};
