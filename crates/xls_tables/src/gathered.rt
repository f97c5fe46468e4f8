//! The rows that are gathered before they are written.

ghost use Rattle.std.specs.Prelude.{◌≡◌, ◌++◌, [], OnOk};
ghost use Rattle.std.specs.Str.{chars};
ghost use Rattle.std.specs.String.{string_bytes};
ghost use Rattle.xls_data.specs.Content.{text};
ghost use Rattle.xls_data.specs.Numeric.{numeric_content};
ghost use Rattle.xls_output.specs.Added.{AddsText};
ghost use Rattle.xls_readable.specs.declared.choices.FieldStyle.TheVariants.{Shown, Values};
ghost use Rattle.xls_view.specs.Values.{formatted_entry, lent_content, value_text};
ghost use Rattle.xls_shown.specs.Shown.{Gains};
ghost use Rattle.xls_tables.specs.Rows.{IsCellField, IsCellShown, IsContentField, table_fields};
ghost use Rattle.xls_tables.specs.Tables.{byte_order_mark};

use std::alloc::{AllocError, Global};
use std::marker::Model;
use xls_cell_formats::CellFormats;
use xls_csv::BoxBuffer;
use xls_data::{ExcelDateTime, ExcelDateTimeType, Numeric};
use xls_output::Gathers;
use xls_readable::{
    Delimiter, FieldStyle, push_failure_field, push_int_field, push_moment_field,
    push_number_field, push_separator, push_text_field, push_truth_field,
};
use xls_view::{CellValue, SheetCell, TextBuffer};

/// What the fields of a table look like: their style, and the byte between two.
#[derive(Clone, Copy)]
pub(crate) struct TableForm {
    pub(crate) style: FieldStyle,
    pub(crate) delimiter: Delimiter,
}

/// The text that is gathered, and memory for what has to be printed or decoded first. Contracts see what is
/// gathered.
#[derive(Drop)]
pub(crate) struct Gathered {
    text: String,
    room: String,
    decoded: TextBuffer,
}

impl Model for Gathered {
    ghost use Rattle.std.specs.Prelude.{ℕ, List};
    ghost use Rattle.std.specs.String.{string_bytes};

    ghost Value = { List ℕ };

    ghost view = { λ g. string_bytes g.text };
}

/// Puts what Excel shows of a cell into a text that is used again.
fn put_shown(
    room: &mut String,
    decoded: &mut TextBuffer,
    formats: &CellFormats<'_>,
    cell: SheetCell<'_>,
) -> Result<(), AllocError>
    ensures { OnOk result (Gains (IsCellShown formats.now (formatted_entry cell.entry).1) [] (chars (string_bytes room.new))) }
{
    room.clear();
    let value = decoded.value_of(cell.value)?;
    formats.push_shown(cell.xf, &value, room)
}

impl Gathered {
    pub(crate) fn new(alloc: Global) -> Gathered
        ensures { result ≡ [] }
    {
        Gathered {
            text: String::new(alloc),
            room: String::new(alloc),
            decoded: TextBuffer::new(alloc),
        }
    }

    /// Appends the byte order mark, where it is asked for.
    pub(crate) fn push_mark(&mut self, is_marked: bool) -> Result<(), AllocError>
        ensures { OnOk result (self.new ≡ self.old ++ byte_order_mark is_marked) }
    {
        if is_marked {
            return self.text.push_str("\u{FEFF}");
        }
        Ok(())
    }

    /// Appends the field of a number, a date or a duration.
    #[inline(always)]
    fn push_number(&mut self, delimiter: Delimiter, number: Numeric) -> Result<(), AllocError>
        ensures { OnOk result (AddsText (IsContentField delimiter (numeric_content number)) self.old self.new) }
    {
        let room = &mut self.room;
        let buf = &mut self.text;
        match number {
            Numeric::Int(n) => push_int_field(n, delimiter, room, buf),
            Numeric::Float(n) => push_number_field(n, delimiter, room, buf),
            Numeric::DateTime(n, is_1904) => {
                let date = ExcelDateTime::new(n, ExcelDateTimeType::DateTime, is_1904);
                push_moment_field(date, delimiter, room, buf)
            }
            Numeric::TimeDelta(n, is_1904) => {
                let duration = ExcelDateTime::new(n, ExcelDateTimeType::TimeDelta, is_1904);
                push_moment_field(duration, delimiter, room, buf)
            }
        }
    }

    /// Appends the field of a text.
    #[inline(always)]
    fn push_text(&mut self, delimiter: Delimiter, displayed: &str) -> Result<(), AllocError>
        ensures { OnOk result (AddsText (IsContentField delimiter (text (chars displayed.now))) self.old self.new) }
    {
        push_text_field(displayed, delimiter, &mut self.text)
    }

    /// Appends the field of a text that stands in a record.
    #[inline(never)]
    fn push_encoded(&mut self, delimiter: Delimiter, value: CellValue<'_>) -> Result<(), AllocError>
        ensures { OnOk result (AddsText (IsContentField delimiter (text (value_text (lent_content value.entry)))) self.old self.new) }
    {
        match self.decoded.text_of(&value) {
            Ok(displayed) => push_text_field(displayed, delimiter, &mut self.text),
            Err(error) => Err(error),
        }
    }

    /// Appends the field of a cell's value.
    #[inline(always)]
    fn push_value(&mut self, delimiter: Delimiter, value: CellValue<'_>) -> Result<(), AllocError>
        ensures { OnOk result (AddsText (IsContentField delimiter (lent_content value.entry)) self.old self.new) }
    {
        match value {
            CellValue::Number(number) => self.push_number(delimiter, number),
            CellValue::Shared(displayed) => self.push_text(delimiter, displayed),
            CellValue::Encoded(_) => self.push_encoded(delimiter, value),
            CellValue::Bool(truth) => push_truth_field(truth, delimiter, &mut self.text),
            CellValue::Error(failure) => push_failure_field(failure, delimiter, &mut self.text),
            CellValue::Empty => Ok(()),
        }
    }

    /// Appends the field of a cell's value under its format.
    #[inline(always)]
    fn push_classed(
        &mut self,
        delimiter: Delimiter,
        formats: &CellFormats<'_>,
        cell: SheetCell<'_>,
    ) -> Result<(), AllocError>
        ensures { OnOk result (AddsText (IsCellField Values delimiter formats.now (formatted_entry cell.entry).1) self.old self.new) }
    {
        self.push_value(delimiter, formats.classed(cell).value)
    }

    /// Appends the field of what Excel shows of a cell.
    #[inline(never)]
    fn push_shown(
        &mut self,
        delimiter: Delimiter,
        formats: &CellFormats<'_>,
        cell: SheetCell<'_>,
    ) -> Result<(), AllocError>
        ensures { OnOk result (AddsText (IsCellField Shown delimiter formats.now (formatted_entry cell.entry).1) self.old self.new) }
    {
        put_shown(&mut self.room, &mut self.decoded, formats, cell)?;
        push_text_field(self.room.as_str(), delimiter, &mut self.text)
    }

    /// Appends the field of a cell in a style.
    #[inline(always)]
    fn push_cell(
        &mut self,
        form: TableForm,
        formats: &CellFormats<'_>,
        cell: SheetCell<'_>,
    ) -> Result<(), AllocError>
        ensures { OnOk result (AddsText (IsCellField form.style form.delimiter formats.now (formatted_entry cell.entry).1)
            self.old self.new) }
    {
        match form.style {
            FieldStyle::Values => self.push_classed(form.delimiter, formats, cell),
            FieldStyle::Shown => self.push_shown(form.delimiter, formats, cell),
        }
    }
}

impl Gathers for Gathered {
    ghost kept = { λ bytes. bytes };

    #[inline(always)]
    fn bytes(&self) -> &[u8] {
        self.text.as_bytes()
    }

    fn clear(&mut self) {
        self.text.clear();
    }
}

impl BoxBuffer for Gathered {
    type Form = TableForm;

    ghost fields = { table_fields };

    #[inline(always)]
    fn push_delimiter(
        &mut self,
        form: TableForm,
        _: Option<&CellFormats<'_>>,
    ) -> Result<(), AllocError> {
        push_separator(form.delimiter, &mut self.text)
    }

    #[inline(always)]
    fn push_field(
        &mut self,
        form: TableForm,
        formats: Option<&CellFormats<'_>>,
        cell: Option<SheetCell<'_>>,
    ) -> Result<(), AllocError> {
        match (cell, formats) {
            (Some(cell), Some(formats)) => self.push_cell(form, formats, cell),
            (Some(cell), None) => self.push_value(form.delimiter, cell.value),
            (None, _) => Ok(()),
        }
    }

    #[inline(always)]
    fn push_str(&mut self, text: &str) -> Result<(), AllocError> {
        self.text.push_str(text)
    }
}
