//! The text of a formula.

ghost use Rattle.std.specs.Prelude.{[]};
ghost use Rattle.xls_text.specs.declared.encoding.XlsEncoding.TheVariants.{Utf16};
ghost use Rattle.xls_record.specs.declared.version.Biff.TheVariants.{Biff8};
ghost use Rattle.xls_record.specs.Reading.{Gives};
ghost use Rattle.xls_strings.specs.Texts.{text_of};
ghost use Rattle.xls_formula.specs.Fold.{formula_text};
ghost use Rattle.xls_formula.specs.Functions.{shipped};

use std::alloc::Global;
use xls_biff::{Biff, Refs, Strings, XlsError};
use xls_formula::{FunctionTable, Names, NumberStyle, parse_formula};
use xls_text::XlsEncoding;

/// The text of a formula of BIFF8 that may name the shipped functions, and neither sheets nor names.
pub(crate) fn spelled(alloc: Global, rgce: &[u8]) -> Result<String, XlsError>
    ensures { Gives text_of result (formula_text (record {
      sheets = [];
      names = [];
      refs = [];
      page = Utf16;
      biff = Biff8;
      functions = shipped;
      numbers = NumberStyle.Bits;
    }) rgce.now) }
{
    parse_formula(
        alloc,
        rgce,
        &Strings::new(alloc),
        &Names::new(alloc),
        &Refs::new(alloc),
        &XlsEncoding::Utf16,
        Biff::Biff8,
        &FunctionTable::shipped(alloc)?,
    )
}
