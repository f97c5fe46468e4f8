//! Names by reference before BIFF8.

ghost use Rattle.std.specs.Prelude.{◌≡◌, ◌++◌, OnOk};
ghost use Rattle.xls_strings.specs.Texts.{text_of};
ghost use Rattle.xls_formula_books.specs.Names as specs;
ghost use Rattle.xls_formula_books.specs.Sources.{source_view};

use crate::early_prefixes::numbered_source;
use crate::here::Here;
use crate::names::{append_other_name, append_this_name, numbered_name};
use crate::sources::{Kind, Source};
use crate::texts::{push_nameless, push_text};
use std::alloc::AllocError;

/// Whether a source is this workbook, or a sheet of it.
pub(crate) fn is_this(kind: Kind) -> bool
    ensures { result ≡ specs.is_this kind }
{
    matches!(kind, Kind::This | Kind::Own | Kind::Sheet)
}

/// Appends a name of this workbook: that of an ExternName, or a defined one.
fn append_of_this(
    here: &Here<'_>,
    source: &Source,
    number: u32,
    out: &mut String,
) -> Result<(), AllocError>
    ensures { OnOk result (text_of out.new
        ≡ text_of out.old ++ specs.of_this here.now number (source_view source.now)) }
{
    match numbered_name(source, number) {
        Some(name) => push_text(&name.name, out),
        None => append_this_name(here, number, out),
    }
}

/// Appends the name of a number of what an ExternSheet refers to.
fn append_of_source(
    here: &Here<'_>,
    source: &Source,
    number: u32,
    out: &mut String,
) -> Result<(), AllocError>
    ensures { OnOk result (text_of out.new
        ≡ text_of out.old ++ specs.early_source_name here.now number (source_view source.now)) }
{
    if is_this(source.kind) {
        return append_of_this(here, source, number, out);
    }
    append_other_name(here.books.version(), source, number, out)
}

/// Appends the name of a number, by the number of an ExternSheet record, or of this workbook where that is below 0.
pub(crate) fn append_early_name(
    here: &Here<'_>,
    reference: i16,
    index: u16,
    out: &mut String,
) -> Result<(), AllocError>
    ensures { OnOk result (text_of out.new ≡ text_of out.old ++ specs.early_name here.now reference index) }
{
    let number = u32::from(index);
    if reference.is_negative() {
        return append_this_name(here, number, out);
    }
    match numbered_source(here.books, reference) {
        Some(source) => append_of_source(here, source, number, out),
        None => push_nameless(out),
    }
}
