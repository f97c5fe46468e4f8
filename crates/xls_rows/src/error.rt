//! What a cell or a row is refused for.

use thiserror::Error;
use xls_data::CellErrorType;

/// Why a row was not read.
#[derive(Debug, Drop, Error)]
pub enum DeError {
    /// A cell holds an error value. The position is that of its row.
    #[error("Cell error at position '({}, {})': {err}", .pos.0, .pos.1)]
    CellError {
        /// The error value.
        err: CellErrorType,
        /// The row, and the first column of the range.
        pos: (u32, u32),
    },
    /// A value was asked for where no cell is kept.
    #[error("Unexpected end of row at position '({}, {})'", .pos.0, .pos.1)]
    UnexpectedEndOfRow {
        /// The row, and the first column of the range.
        pos: (u32, u32),
    },
    /// No column has this header.
    #[error("Cannot find header named '{0}'")]
    HeaderNotFound(String),
    /// What was expected, and what the cell holds.
    #[error("{0}")]
    Custom(String),
    /// There is not enough memory.
    #[error("Out of memory")]
    Memory,
}
