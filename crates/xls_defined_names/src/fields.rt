//! The fields of a Lbl record.

ghost use Rattle.std.specs.Prelude.{◌≡◌, ◌≤◌, ◌+◌, drop, length, IfOk};
ghost use Rattle.xls_strings.specs.Texts.{text_of};
ghost use Rattle.xls_shared_formulas.specs.Contents.{bytes_view};
ghost use Rattle.xls_shown_ptg.specs.Reading.{Exactly};
ghost use Rattle.xls_defined_names.specs.Fields as fields;

use std::alloc::{AllocError, Global};
use xls_ptg::word_at;
use xls_record::{Biff, Part, XlsError, is_biff8};
use xls_shared_formulas::{FormulaBytes, split_tokens};
use xls_shown_ptg::Fault;
use xls_text::XlsEncoding;

/// How the units of a name are told: where they stand in the body, whether they have two bytes, where it is said, and how many bytes
/// they have.
#[derive(Clone, Copy)]
pub(crate) struct NameUnits {
    pub(crate) start: usize,
    pub(crate) high_byte: Option<bool>,
    pub(crate) size: usize,
}

/// The units of a name of so many characters.
fn name_units(version: Biff, body: &[u8]) -> NameUnits
    requires { 14 ≤ length body.now }
    ensures { result ≡ fields.name_units version body.now }
{
    let count = body[3] as usize;
    if !is_biff8(version) {
        return NameUnits {
            start: 14,
            high_byte: None,
            size: count,
        };
    }
    let is_wide = body.len() > 14 && body[14] % 2 == 1;
    NameUnits {
        start: 15,
        high_byte: Some(is_wide),
        size: if is_wide { 2 * count } else { count },
    }
}

/// What stands behind so many bytes; nothing where fewer are there.
fn behind(body: &[u8], start: usize) -> &[u8]
    ensures { result.now ≡ drop start body.now }
{
    let (_, rest) = body.split_at(start.min(body.len()));
    rest
}

/// The text of a name as it is stored.
pub(crate) fn stored_name(
    alloc: Global,
    encoding: &XlsEncoding,
    version: Biff,
    body: &[u8],
) -> Result<String, AllocError>
    requires { 14 ≤ length body.now }
    ensures { IfOk result (λ text. text_of text ≡ fields.stored_name encoding.now version body.now) }
{
    let units = name_units(version, body);
    let mut text = String::new(alloc);
    encoding.decode_to(
        behind(body, units.start),
        body[3] as usize,
        &mut text,
        units.high_byte,
    )?;
    Ok(text)
}

/// The tokens of a name's formula, and the extra bytes behind them, by the bytes of its record, `name_bytes`: they stand directly
/// behind the name. `Len` where the tokens are cut, which tells how many bytes stand behind the name; and where the head is, as in no
/// workbook that is read.
pub fn name_formula(version: Biff, body: &[u8]) -> Result<FormulaBytes<'_>, Fault>
    ensures { Exactly bytes_view result (fields.formula_in version body.now) }
{
    if body.len() < 14 {
        return Err(Fault::Xls(XlsError::Len {
            expected: 14,
            found: body.len(),
            typ: Part::Lbl,
        }));
    }
    let units = name_units(version, body);
    split_tokens(
        word_at(body, 4) as usize,
        behind(body, units.start + units.size),
        Part::NameFormula,
    )
}
