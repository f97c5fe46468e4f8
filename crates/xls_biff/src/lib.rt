//! The records of a workbook stream, BIFF5 and BIFF8: the walk over them, and their readers.
#![tactic(auto)]

mod cells;
mod fields;
mod records;
mod refs;
mod sheet_record;
mod substream;
mod walk;

pub use cells::{cell_position, error_of_code};
pub use records::bof::{Bof, parse_bof};
pub use records::bool_err::{Bes, parse_bool_err, read_bool_err};
pub use records::bound_sheet::{check_sheet_metadata, parse_sheet_metadata};
pub use records::code_page::parse_code_page;
pub use records::date_mode::parse_date_mode;
pub use records::dimensions::parse_dimensions;
pub use records::extern_sheet::{check_extern_sheet, parse_extern_sheet};
pub use records::file_pass::parse_file_pass;
pub use records::format::{is_format_id, parse_format, parse_format_code};
pub use records::formula::{
    FormulaParts, FormulaRecord, FormulaValue, formula_position, parse_formula_record,
    parse_formula_value, read_formula,
};
pub use records::label::{parse_label, read_label, split_label};
pub use records::label_sst::{find_label_sst, parse_label_sst, read_label_sst};
pub use records::merge_cells::{count_merges, merge_region, parse_merge_cells};
pub use records::number::{NumberCell, parse_number, read_number, value_of_bits};
pub use records::rk::{
    RkCell, cell_of_mul_rk, count_mul_rk, parse_mul_rk, parse_rk, read_mul_rk, read_rk,
};
pub use records::xf::parse_xf;
pub use refs::Refs;
pub use sheet_record::{SheetRecord, check_sheet_record, read_sheet_record, sheet_record_weight};
pub use substream::{PlacedRecords, SheetRecords};
pub use walk::RecordIter;
pub use xls_strings::{
    Biff, Part, Pieces, Record, SstReader, Strings, XlsError, parse_short_string, parse_sst,
    parse_string, size_of_uncounted, skip_sst,
};
