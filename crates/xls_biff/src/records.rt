//! The readers of records, a file for each type; each has its definition in specs/Records.

pub(crate) mod bof;
pub(crate) mod bool_err;
pub(crate) mod bound_sheet;
pub(crate) mod code_page;
pub(crate) mod date_mode;
pub(crate) mod dimensions;
pub(crate) mod extern_sheet;
pub(crate) mod file_pass;
pub(crate) mod format;
pub(crate) mod formula;
pub(crate) mod label;
pub(crate) mod label_sst;
pub(crate) mod merge_cells;
pub(crate) mod number;
pub(crate) mod rk;
pub(crate) mod string;
pub(crate) mod xf;
