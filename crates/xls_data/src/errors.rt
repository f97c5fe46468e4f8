//! Error values of cells.

ghost use Rattle.std.specs.Prelude.{Some};
ghost use Rattle.xls_data.specs.Errors.{error_text};

use std::fmt;

/// An error value, printed as a sheet shows it.
#[derive(Clone, Copy, Debug, PartialEq, Eq)]
pub enum CellErrorType {
    /// A division by zero, `#DIV/0!`.
    Div0,
    /// A value that is not available, `#N/A`.
    NA,
    /// An unknown name, `#NAME?`.
    Name,
    /// An empty intersection, `#NULL!`.
    Null,
    /// A number that is none, `#NUM!`.
    Num,
    /// A reference that is none, `#REF!`.
    Ref,
    /// A value of the wrong kind, `#VALUE!`.
    Value,
    /// Data that is still to come, `#DATA!`.
    GettingData,
}

impl fmt::Display for CellErrorType {
    ghost output = { λ e. Some (error_text e) };

    fn fmt<W: fmt::Write>(&self, f: &mut fmt::Formatter<W>) -> fmt::Result {
        match self {
            CellErrorType::Div0 => write!(f, "#DIV/0!"),
            CellErrorType::NA => write!(f, "#N/A"),
            CellErrorType::Name => write!(f, "#NAME?"),
            CellErrorType::Null => write!(f, "#NULL!"),
            CellErrorType::Num => write!(f, "#NUM!"),
            CellErrorType::Ref => write!(f, "#REF!"),
            CellErrorType::Value => write!(f, "#VALUE!"),
            CellErrorType::GettingData => write!(f, "#DATA!"),
        }
    }
}
