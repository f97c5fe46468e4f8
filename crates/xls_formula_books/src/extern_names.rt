//! The names of what is referred to: ExternName records.

ghost use Rattle.std.specs.Prelude.{◌≡◌, IfOk};
ghost use Rattle.xls_formula_books.specs.ExternNames as specs;
ghost use Rattle.xls_formula_books.specs.ExternNames.{name_view};

use crate::texts::no_text;
use std::alloc::{AllocError, Global};
use xls_defined_names::shown_name;
use xls_other_books::short_text;
use xls_ptg::word_at;
use xls_record::Biff;
use xls_text::XlsEncoding;

/// A name of what is referred to.
#[derive(Debug, Drop)]
pub struct ExternName {
    /// The number of its sheet from 1; 0 where it is the workbook's.
    pub sheet: u16,
    /// The name as it is shown.
    pub name: String,
}

/// The name of an ExternName record.
pub(crate) fn extern_name(
    alloc: Global,
    version: Biff,
    encoding: &XlsEncoding,
    body: &[u8],
) -> Result<ExternName, AllocError>
    ensures { IfOk result (λ name. name_view name ≡ specs.name_of version encoding.now body.now) }
{
    if body.len() < 7 {
        return Ok(ExternName {
            sheet: 0,
            name: no_text(alloc),
        });
    }
    let (_, rest) = body.split_at(6);
    let stored = short_text(alloc, version, encoding, rest)?;
    Ok(ExternName {
        sheet: word_at(body, 2),
        name: shown_name(alloc, word_at(body, 0) % 2 == 1, stored)?,
    })
}
