//! The refusals of cells, and the texts in them.

ghost use Rattle.std.specs.Prelude.{◌≡◌, IfOk};
ghost use Rattle.std.specs.String.{string_bytes};
ghost use Rattle.xls_data.specs.Data.{content_of};
ghost use Rattle.xls_rows.specs.Refusals.{Refuses, custom};
ghost use Rattle.xls_rows.specs.Texts.{expecting, quoted, kind_name, display_text};
ghost use Rattle.xls_rows.specs.Readers.{other_kind};
ghost use Rattle.xls_rows.specs.Wholes.{not_whole};

use crate::DeError;
use std::alloc::{AllocError, Global};
use xls_data::Data;

// The name of a cell's kind.
fn name_of_kind(cell: &Data) -> &'static str
    ensures { result.now ≡ kind_name (content_of cell.now) }
{
    match cell {
        Data::Int(_) => "Int",
        Data::Float(_) => "Float",
        Data::String(_) => "String",
        Data::Bool(_) => "Bool",
        Data::DateTime(_) => "DateTime",
        Data::DateTimeIso(_) => "DateTimeIso",
        Data::DurationIso(_) => "DurationIso",
        Data::Error(_) => "Error",
        Data::Empty => "Empty",
    }
}

// The refusal that says what was expected, and what there is.
fn unexpected(alloc: Global, what: &str, got: &str) -> DeError
    ensures { Refuses (custom (expecting what.now got.now)) result }
{
    match format!(in alloc; "Expecting {what}, got {got}") {
        Ok(text) => DeError::Custom(text),
        Err(_) => DeError::Memory,
    }
}

// A text in quotes.
fn in_quotes(alloc: Global, text: &str) -> Result<String, AllocError>
    ensures { IfOk result (λ t. string_bytes t ≡ quoted text.now) }
{
    format!(in alloc; "'{text}'")
}

// The refusal of a text that is none of those expected.
pub(crate) fn unexpected_text(alloc: Global, what: &str, text: &str) -> DeError
    ensures { Refuses (custom (expecting what.now (quoted text.now))) result }
{
    match in_quotes(alloc, text) {
        Ok(got) => unexpected(alloc, what, got.as_str()),
        Err(_) => DeError::Memory,
    }
}

// The refusal of a cell of another kind.
pub(crate) fn unexpected_kind(alloc: Global, what: &str, cell: &Data, pos: (u32, u32)) -> DeError
    ensures { Refuses (other_kind what.now pos (content_of cell.now)) result }
{
    match cell {
        Data::Error(e) => DeError::CellError { err: *e, pos },
        _ => unexpected(alloc, what, name_of_kind(cell)),
    }
}

// What a cell that is no whole number of a type is shown as.
#[tactic(auto, using(crate::proofs::TextLemmas::text_bytes))]
fn displayed_text(alloc: Global, cell: &Data) -> Result<String, AllocError>
    ensures { IfOk result (λ t. string_bytes t ≡ display_text (content_of cell.now)) }
{
    match cell {
        Data::Int(n) => n.to_string(alloc),
        Data::Float(x) => x.to_string(alloc),
        Data::String(s) => in_quotes(alloc, s.as_str()),
        _ => String::from_str(alloc, name_of_kind(cell)),
    }
}

// The refusal of a cell that is no whole number of a type.
pub(crate) fn unexpected_number(alloc: Global, name: &str, cell: &Data, pos: (u32, u32)) -> DeError
    ensures { Refuses (not_whole name.now pos (content_of cell.now)) result }
{
    if let Data::Error(e) = cell {
        return DeError::CellError { err: *e, pos };
    }
    match displayed_text(alloc, cell) {
        Ok(got) => unexpected(alloc, name, got.as_str()),
        Err(_) => DeError::Memory,
    }
}
