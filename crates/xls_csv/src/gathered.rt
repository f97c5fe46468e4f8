//! The rows that are gathered before they are written.

ghost use Rattle.std.specs.Prelude.{◌≡◌, ◌++◌, [], encode_utf8_all, OnOk};
ghost use Rattle.csv.specs.Writing.{default_writer, field_text};
ghost use Rattle.xls_view.specs.Values.{value_text, lent_content};
ghost use Rattle.xls_csv.specs.Fields.{field};
ghost use Rattle.xls_csv.specs.Steps.{csv_fields};

use crate::boxes::BoxBuffer;
use crate::line::{push_error, push_text, push_truth};
use crate::numbers::push_number;
use std::alloc::{AllocError, Global};
use std::marker::Model;
use xls_cell_formats::CellFormats;
use xls_output::Gathers;
use xls_view::{CellValue, SheetCell, TextBuffer};

/// The bytes that are gathered, and memory for the text of one cell. Contracts see what is gathered.
#[derive(Drop)]
pub(crate) struct Gathered {
    bytes: Vec<u8>,
    /// Memory for a text that stands in a record.
    text: TextBuffer,
    /// An error value that is printed.
    printed: String,
}

impl Model for Gathered {
    ghost use Rattle.std.specs.Prelude.{ℕ, List};

    ghost Value = { List ℕ };

    ghost view = { λ g. g.bytes.items };
}

impl Gathered {
    pub(crate) fn new(alloc: Global) -> Gathered
        ensures { result ≡ [] }
    {
        Gathered {
            bytes: Vec::new(alloc),
            text: TextBuffer::new(alloc),
            printed: String::new(alloc),
        }
    }

    /// Appends the field of a text that stands in a record.
    #[inline(never)]
    fn push_encoded(&mut self, value: CellValue<'_>) -> Result<(), AllocError>
        ensures { OnOk result (self.new
            ≡ self.old ++ field_text default_writer (encode_utf8_all (value_text (lent_content value.entry)))) }
    {
        match self.text.text_of(&value) {
            Ok(text) => push_text(&mut self.bytes, text),
            Err(error) => Err(error),
        }
    }

    /// Appends the field of a cell's value.
    #[inline(always)]
    fn push_value(&mut self, value: CellValue<'_>) -> Result<(), AllocError>
        ensures { OnOk result (self.new ≡ self.old ++ field_text default_writer (field (lent_content value.entry))) }
    {
        match value {
            CellValue::Number(number) => push_number(&mut self.bytes, number),
            CellValue::Shared(text) => push_text(&mut self.bytes, text),
            CellValue::Encoded(_) => self.push_encoded(value),
            CellValue::Bool(truth) => push_truth(&mut self.bytes, truth),
            CellValue::Error(error) => push_error(&mut self.bytes, &mut self.printed, error),
            CellValue::Empty => Ok(()),
        }
    }
}

impl Gathers for Gathered {
    ghost kept = { λ bytes. bytes };

    #[inline(always)]
    fn bytes(&self) -> &[u8] {
        &self.bytes
    }

    fn clear(&mut self) {
        self.bytes.clear();
    }
}

impl BoxBuffer for Gathered {
    type Form = ();

    ghost fields = { λ _ _. csv_fields };

    #[inline(always)]
    fn push_delimiter(&mut self, _: (), _: Option<&CellFormats<'_>>) -> Result<(), AllocError> {
        self.bytes.push(b',')?;
        Ok(())
    }

    #[inline(always)]
    fn push_field(
        &mut self,
        _: (),
        _: Option<&CellFormats<'_>>,
        cell: Option<SheetCell<'_>>,
    ) -> Result<(), AllocError> {
        match cell {
            Some(cell) => self.push_value(cell.value),
            None => Ok(()),
        }
    }

    #[inline(always)]
    fn push_str(&mut self, text: &str) -> Result<(), AllocError> {
        self.bytes.extend_from_slice(text.as_bytes())
    }
}
