//! Memory in which texts of formulas are made.

ghost use Rattle.std.specs.Prelude.{◌≡◌, ◌↔◌, ◌++◌, [], ℕ, List, IfOk, IsTrue, OnOk, Result};
ghost use Rattle.std.specs.Str.{chars};
ghost use Rattle.std.specs.String.{string_bytes};
ghost use Rattle.xls_record.specs.declared.error.XlsError.TheVariants.{Memory};
ghost use Rattle.xls_shared_formulas.specs.Contents.{bytes_view};
ghost use Rattle.xls_shown_ptg.specs.Reading.{gives};
ghost use Rattle.xls_shown_ptg.specs.declared.fault.Fault.{Fault as Faults};
ghost use Rattle.xls_shown_ptg.specs.declared.fault.Fault.TheVariants.{Xls};
ghost use Rattle.xls_formula_shown.specs.Scope.{scope_of};
ghost use Rattle.xls_formula_shown.specs.ShownFold.{shown_text};
ghost use Rattle.xls_formula_shown.specs.Steps.{Tells};
ghost use Rattle.xls_shown_formulas.specs.Refusals as refusals;
ghost use Rattle.xls_shown_formulas.specs.Tables.{table_text};

use crate::inputs::push_table;
use crate::texts::{empty, no_text, nothing, push_text};
use std::alloc::{AllocError, Global};
use std::marker::Model;
use std::mem;
use xls_formula_shown::{FormulaText, Scope};
use xls_shared_formulas::{CellPlace, FormulaBytes, TableInputs};
use xls_shown_ptg::Fault;

/// Memory in which texts of formulas are made, one after the other. Contracts see the text that it holds.
#[derive(Drop)]
pub struct ShownBuffer {
    alloc: Global,
    texts: FormulaText,
    text: String,
}

impl Model for ShownBuffer {
    ghost use Rattle.std.specs.Prelude.{List, ℕ};
    ghost use Rattle.xls_strings.specs.Texts.{text_of};

    ghost Value = { List ℕ };

    ghost view = { λ b. text_of b.text };
}

/// Writes what stands in place of the formula of a cell that isn't spelled, in place of what the text holds.
fn write_cell_refusal(text: &mut String, cell: CellPlace, fault: &Fault) -> Result<(), AllocError>
    ensures { OnOk result (string_bytes text.new ≡ refusals.cell_refusal cell fault.now) }
{
    let CellPlace { row, column } = cell;
    text.clear();
    write!(
        text,
        "Unrecognised formula for cell ({row}, {column}): {fault}"
    )?;
    Ok(())
}

/// Writes what stands in place of the formula of a defined name that isn't spelled, in place of what the text holds.
fn write_name_refusal(text: &mut String, fault: &Fault) -> Result<(), AllocError>
    ensures { OnOk result (string_bytes text.new ≡ refusals.name_refusal fault.now) }
{
    text.clear();
    write!(text, "Unrecognised formula: {fault}")?;
    Ok(())
}

/// Whether memory ran out.
fn is_memory(fault: &Fault) -> bool
    ensures { IsTrue result ↔ (fault.now ≡ Xls Memory) }
{
    matches!(fault, Fault::Xls(error) if error.is_memory())
}

impl ShownBuffer {
    /// No text. Takes no memory.
    pub fn new(alloc: Global) -> ShownBuffer
        ensures { result ≡ [] }
    {
        ShownBuffer {
            alloc,
            texts: FormulaText::new(alloc),
            text: no_text(alloc),
        }
    }

    /// The allocator.
    pub(crate) fn allocator(&self) -> Global {
        self.alloc
    }

    /// The text.
    pub(crate) fn as_str(&self) -> &str
        ensures { chars result.now ≡ self.now }
    {
        self.text.as_str()
    }

    /// No text. The memory stays.
    pub(crate) fn clear(&mut self)
        ensures { self.new ≡ [] }
    {
        empty(&mut self.text);
    }

    /// Appends a text.
    pub(crate) fn push(&mut self, text: &str) -> Result<(), AllocError>
        ensures { OnOk result (self.new ≡ self.old ++ chars text.now) }
    {
        push_text(text, &mut self.text)
    }

    /// Writes the text of tokens behind `opening`, in place of what is held.
    pub(crate) fn write_tokens(
        &mut self,
        scope: &Scope<'_>,
        opening: &str,
        bytes: FormulaBytes<'_>,
    ) -> Result<(), Fault>
        ensures { Tells (λ u. self.new) result
            (gives (λ t. chars opening.now ++ t) (shown_text (scope_of scope.now) (bytes_view bytes.entry).0 (bytes_view bytes.entry).1)) }
    {
        let mut text = mem::replace(&mut self.text, String::new(self.alloc)).into_bytes();
        self.texts
            .write(scope, opening, bytes.tokens, bytes.extra, &mut text)?;
        self.text = String::from_utf8(text).unwrap();
        Ok(())
    }

    /// Writes the text of tokens, in place of what is held.
    pub(crate) fn write_own(
        &mut self,
        scope: &Scope<'_>,
        bytes: FormulaBytes<'_>,
    ) -> Result<(), Fault>
        ensures { Tells (λ u. self.new) result
            (shown_text (scope_of scope.now) (bytes_view bytes.entry).0 (bytes_view bytes.entry).1) }
    {
        self.write_tokens(scope, nothing(), bytes)
    }

    /// Writes the text of a data table behind `opening`, in place of what is held.
    pub(crate) fn write_table(
        &mut self,
        opening: &str,
        inputs: TableInputs,
    ) -> Result<(), AllocError>
        ensures { OnOk result (self.new ≡ chars opening.now ++ table_text inputs) }
    {
        empty(&mut self.text);
        push_text(opening, &mut self.text)?;
        push_table(inputs, &mut self.text)
    }

    /// The text of the formula of a cell, or why it isn't spelled.
    pub(crate) fn told_of_cell(
        &mut self,
        cell: CellPlace,
        done: Result<(), Fault>,
    ) -> Result<&str, AllocError>
        ensures { (input : Result (List ℕ) Faults) → Tells (λ u. self.old) done input
            → IfOk result (λ text. chars text.now ≡ refusals.told_of_cell cell input) }
    {
        match done {
            Ok(()) => Ok(self.text.as_str()),
            Err(fault) => {
                if is_memory(&fault) {
                    return Err(AllocError);
                }
                write_cell_refusal(&mut self.text, cell, &fault)?;
                Ok(self.text.as_str())
            }
        }
    }

    /// The text of the formula of a defined name, or why it isn't spelled.
    pub(crate) fn told_of_name(&mut self, done: Result<(), Fault>) -> Result<&str, AllocError>
        ensures { (input : Result (List ℕ) Faults) → Tells (λ u. self.old) done input
            → IfOk result (λ text. chars text.now ≡ refusals.told_of_name input) }
    {
        match done {
            Ok(()) => Ok(self.text.as_str()),
            Err(fault) => {
                if is_memory(&fault) {
                    return Err(AllocError);
                }
                write_name_refusal(&mut self.text, &fault)?;
                Ok(self.text.as_str())
            }
        }
    }
}
