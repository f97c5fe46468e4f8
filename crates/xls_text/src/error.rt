//! A code page that isn't read, and its text.

use std::fmt;

/// Why a code page is refused. Prints `Codepage 3A4 not found`, with the page in upper hexadecimal.
#[derive(Clone, Copy, Debug, PartialEq, Eq)]
pub enum CfbError {
    /// None of the pages 1200, 1252, 28591 and 65001: the page that was asked for.
    CodePageNotFound(u16),
}

impl fmt::Display for CfbError {
    ghost use Rattle.std.specs.Prelude.{Some};
    ghost use Rattle.xls_text.specs.Errors.{error_text};

    ghost output = { λ error. Some (error_text error) };

    fn fmt<W: fmt::Write>(&self, f: &mut fmt::Formatter<W>) -> fmt::Result {
        match self {
            CfbError::CodePageNotFound(page) => write!(f, "Codepage {page:X} not found"),
        }
    }
}
