//! The text of a formula.

ghost use Rattle.std.specs.Prelude.{◌≡◌, IfOk, OnOk};
ghost use Rattle.std.specs.Str.{chars};
ghost use Rattle.std.specs.String.{string_bytes};
ghost use Rattle.xls_strings.specs.Texts.{text_of};
ghost use Rattle.xls_formula.specs.Fold.{formula_text};
ghost use Rattle.xls_meaning.specs.SheetTable.{refusal_bytes, displayed_formula};

use crate::settings::Settings;
use std::alloc::{AllocError, Global};
use xls_biff::XlsError;
use xls_formula::{FormulaTexts, Scope, parse_formula};

/// Writes what stands in place of a formula that is refused, in place of what the text holds.
fn write_refusal(
    text: &mut String,
    position: (u32, u32),
    error: &XlsError,
) -> Result<(), AllocError>
    ensures { OnOk result (string_bytes text.new ≡ refusal_bytes position error.now) }
{
    let (row, column) = position;
    text.clear();
    write!(
        text,
        "Unrecognised formula for cell ({row}, {column}): {error}"
    )?;
    Ok(())
}

/// Memory in which texts of formulas are made, one after the other.
#[derive(Drop)]
pub struct FormulaBuffer {
    texts: FormulaTexts,
    /// What stands in place of a formula that is refused.
    refusal: String,
}

impl FormulaBuffer {
    /// No text. Takes no memory.
    pub fn new(alloc: Global) -> FormulaBuffer {
        FormulaBuffer {
            texts: FormulaTexts::new(alloc),
            refusal: String::new(alloc),
        }
    }

    /// The text of the formula of a cell, or why it is refused, made here in place of the one before.
    pub fn text_of(
        &mut self,
        rgce: &[u8],
        position: (u32, u32),
        settings: &Settings<'_>,
    ) -> Result<&str, AllocError>
        ensures { IfOk result (λ text. chars text.now
            ≡ displayed_formula position (formula_text settings.now.formulas rgce.now)) }
    {
        let scope = Scope {
            sheets: settings.sheets,
            names: settings.names,
            refs: settings.refs,
            encoding: settings.page,
            biff: settings.version,
            functions: settings.functions,
            numbers: settings.numbers,
        };
        match self.texts.read(rgce, scope) {
            Ok(()) => Ok(self.texts.as_str()),
            Err(error) => {
                if error.is_memory() {
                    return Err(AllocError);
                }
                write_refusal(&mut self.refusal, position, &error)?;
                Ok(self.refusal.as_str())
            }
        }
    }
}
