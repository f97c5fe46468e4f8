//! What the sheets are read under.

use std::marker::Model;
use xls_biff::{Biff, Refs, Strings};
use xls_data::CellFormat;
use xls_formula::{FunctionTable, Names, NumberStyle};
use xls_text::XlsEncoding;

/// What the records of a sheet are read under: what is in force at the end of the globals.
#[derive(Drop)]
pub struct Settings<'a> {
    pub page: XlsEncoding,
    pub version: Biff,
    /// The class of each XF.
    pub classes: &'a [CellFormat],
    pub strings: &'a Strings,
    pub is_1904: bool,
    /// The names of the sheets, the defined names, the first sheets of the references, and the
    /// functions: what formulas may name.
    pub sheets: &'a Strings,
    pub names: &'a Names,
    pub refs: &'a Refs,
    pub functions: &'a FunctionTable,
    /// How formulas show doubles.
    pub numbers: NumberStyle,
}

impl<'a> Model for Settings<'a> {
    ghost use Rattle.xls_meaning.specs.Settings as settings;

    ghost Value = { settings.Settings };

    ghost view = { λ s. record {
      cells = record {
        page = s.page;
        version = s.version;
        classes = s.classes.now;
        strings = s.strings.now;
        is_1904 = s.is_1904;
      };
      formulas = record {
        sheets = s.sheets.now;
        names = s.names.now;
        refs = s.refs.now;
        page = s.page;
        biff = s.version;
        functions = s.functions.now;
        numbers = s.numbers;
      };
    } };
}

impl<'a> Settings<'a> {
    ghost use Rattle.std.specs.Prelude.{◌≡◌};

    /// The same once more, for what borrows no more than this does.
    pub fn again(&self) -> Settings<'a>
        ensures { result ≡ self.now }
    {
        Settings {
            page: self.page,
            version: self.version,
            classes: self.classes,
            strings: self.strings,
            is_1904: self.is_1904,
            sheets: self.sheets,
            names: self.names,
            refs: self.refs,
            functions: self.functions,
            numbers: self.numbers,
        }
    }
}
