//! The lines of cells, of which a workbook has most.

ghost use Rattle.std.specs.Prelude.{◌≡◌, ◌++◌, ◌∷◌, ◌+◌, ◌<◌, Some, None, [], IfOk, OnOk, OnErr, codes};
ghost use Rattle.std.specs.Fmt.{decimal};
ghost use Rattle.std.specs.String.{string_bytes};
ghost use Rattle.xls_output.specs.Added.{AddsText};
ghost use Rattle.xls_readable.specs.Growth.{GrowsText, cell_head, row_head};
ghost use Rattle.xls_readable.specs.Items.{IsTextLine, exact_line, item_of};
ghost use Rattle.xls_readable.specs.Lines.{IsLine, cell_members, shown_cell_members};

use crate::exact_lines::push_exact_item;
use crate::forms::{Form, push_line};
use crate::items::{Field, Member, push_count, push_item};
use std::alloc::{AllocError, Global};
use std::marker::Model;

/// What lines of cells are made with: the text with which those of a row begin, which is made once for them, and
/// room for what has to be printed first. Contracts see the row.
#[derive(Drop)]
pub struct CellLines {
    /// The row of the text; `None` before the first, and where memory ran out.
    row: Option<u32>,
    head: String,
    room: String,
}

impl Model for CellLines {
    ghost use Rattle.std.specs.Prelude.{◌≡◌, ℕ, Option, IfSome};
    ghost use Rattle.std.specs.String.{string_bytes};
    ghost use Rattle.xls_readable.specs.Growth.{row_head};

    ghost Value = { Option ℕ };

    ghost view = { λ c. c.row };

    ghost invariant = { λ c. IfSome c.row (λ r. string_bytes c.head ≡ row_head r) };
}

// Appends a decimal digit.
#[inline(always)]
fn push_digit(n: u64, buf: &mut String) -> Result<(), AllocError>
    requires { n < 10 }
    ensures ok { OnOk result (string_bytes buf.new ≡ string_bytes buf.old ++ (48 + n) ∷ []) }
    ensures err { OnErr result (string_bytes buf.new ≡ string_bytes buf.old) }
{
    buf.push(char::from(b'0' + n as u8))
}

// Appends a count that mostly has one digit or two. An error may leave a part of it.
#[inline(always)]
fn push_short_count(n: u64, buf: &mut String) -> Result<(), AllocError>
    ensures ok { OnOk result (string_bytes buf.new ≡ string_bytes buf.old ++ decimal n) }
    ensures grown { GrowsText (string_bytes buf.old) (string_bytes buf.new) }
{
    if n < 10 {
        return push_digit(n, buf);
    }
    if n < 100 {
        push_digit(n / 10, buf)?;
        return push_digit(n % 10, buf);
    }
    push_count(n, buf)
}

impl CellLines {
    /// Those of no row. Takes no memory.
    pub fn new(alloc: Global) -> CellLines
        ensures { result ≡ None }
    {
        CellLines {
            row: None,
            head: String::new(alloc),
            room: String::new(alloc),
        }
    }

    // Those of a row in the place of another.
    #[inline(never)]
    fn turn_to(&mut self, row: u32) -> Result<(), AllocError>
        ensures { OnOk result (self.new ≡ Some row) }
    {
        self.row = None;
        self.head.clear();
        self.head.push_str("cell\t")?;
        push_count(u64::from(row), &mut self.head)?;
        self.head.push('\t')?;
        self.row = Some(row);
        Ok(())
    }

    // The text with which the lines of a row begin.
    #[inline(always)]
    fn head_of(&mut self, row: u32) -> Result<&str, AllocError>
        ensures { IfOk result (λ t. t.now ≡ row_head row) }
    {
        if self.row != Some(row) {
            self.turn_to(row)?;
        }
        Ok(self.head.as_str())
    }

    // Appends the line of a cell up to its value. An error may leave a part of it.
    #[inline(always)]
    fn append_head(
        &mut self,
        position: (u32, u32),
        kind: &str,
        buf: &mut String,
    ) -> Result<(), AllocError>
        ensures ok { OnOk result (string_bytes buf.new ≡ string_bytes buf.old ++ cell_head position kind.now) }
        ensures grown { GrowsText (string_bytes buf.old) (string_bytes buf.new) }
    {
        let (row, column) = position;
        buf.push_str(self.head_of(row)?)?;
        push_short_count(u64::from(column), buf)?;
        buf.push('\t')?;
        buf.push_str(kind)?;
        buf.push('\t')?;
        Ok(())
    }

    // Appends the line of a cell as text. An error may leave a part of it.
    #[inline(always)]
    fn append(
        &mut self,
        position: (u32, u32),
        kind: &str,
        field: &Field<'_>,
        buf: &mut String,
    ) -> Result<(), AllocError>
        ensures ok { OnOk result (AddsText (IsTextLine (codes "cell") (cell_members position.0 position.1 kind.now (item_of field.now)))
            (string_bytes buf.old) (string_bytes buf.new)) }
        ensures grown { GrowsText (string_bytes buf.old) (string_bytes buf.new) }
    {
        self.append_head(position, kind, buf)?;
        push_item(field, &mut self.room, buf)?;
        buf.push('\n')?;
        Ok(())
    }

    // Appends the exact line of a cell. An error may leave a part of it.
    #[inline(always)]
    fn append_exact(
        &mut self,
        position: (u32, u32),
        kind: &str,
        field: &Field<'_>,
        buf: &mut String,
    ) -> Result<(), AllocError>
        ensures ok { OnOk result (string_bytes buf.new
            ≡ string_bytes buf.old ++ exact_line (codes "cell") (cell_members position.0 position.1 kind.now (item_of field.now))) }
        ensures grown { GrowsText (string_bytes buf.old) (string_bytes buf.new) }
    {
        self.append_head(position, kind, buf)?;
        push_exact_item(field, buf)?;
        buf.push('\n')?;
        Ok(())
    }

    // Appends the exact line of a cell.
    fn push_exact(
        &mut self,
        position: (u32, u32),
        kind: &str,
        field: &Field<'_>,
        buf: &mut String,
    ) -> Result<(), AllocError>
        ensures ok { OnOk result (string_bytes buf.new
            ≡ string_bytes buf.old ++ exact_line (codes "cell") (cell_members position.0 position.1 kind.now (item_of field.now))) }
        ensures err { OnErr result (string_bytes buf.new ≡ string_bytes buf.old) }
    {
        let before = buf.len();
        let done = self.append_exact(position, kind, field, buf);
        if done.is_err() {
            buf.truncate(before);
        }
        done
    }

    // Appends the line of a cell as text.
    fn push_text(
        &mut self,
        position: (u32, u32),
        kind: &str,
        field: &Field<'_>,
        buf: &mut String,
    ) -> Result<(), AllocError>
        ensures ok { OnOk result (AddsText (IsTextLine (codes "cell") (cell_members position.0 position.1 kind.now (item_of field.now)))
            (string_bytes buf.old) (string_bytes buf.new)) }
        ensures err { OnErr result (string_bytes buf.new ≡ string_bytes buf.old) }
    {
        let before = buf.len();
        let done = self.append(position, kind, field, buf);
        if done.is_err() {
            buf.truncate(before);
        }
        done
    }
}

// Appends the line of a cell as JSON.
fn push_json(
    position: (u32, u32),
    kind: &'static str,
    field: &Field<'_>,
    room: &mut String,
    buf: &mut String,
) -> Result<(), AllocError>
    ensures ok { OnOk result (AddsText (IsLine Form.Json (codes "cell") (cell_members position.0 position.1 kind.now (item_of field.now)))
        (string_bytes buf.old) (string_bytes buf.new)) }
    ensures err { OnErr result (string_bytes buf.new ≡ string_bytes buf.old) }
{
    let (row, column) = position;
    let row = Member {
        name: "row",
        field: Field::Count(u64::from(row)),
    };
    let column = Member {
        name: "column",
        field: Field::Count(u64::from(column)),
    };
    let kind = Member {
        name: "kind",
        field: Field::Word(kind),
    };
    let value = Member {
        name: "value",
        field: field.again(),
    };
    push_line(Form::Json, "cell", &[row, column, kind, value], room, buf)
}

/// Appends the line of a cell's row, column, kind and value, `cell`. Only running out of memory refuses, and then `buf`
/// is as it was.
pub fn push_cell(
    form: Form,
    lines: &mut CellLines,
    position: (u32, u32),
    kind: &'static str,
    field: &Field<'_>,
    buf: &mut String,
) -> Result<(), AllocError>
    ensures ok { OnOk result (AddsText (IsLine form (codes "cell") (cell_members position.0 position.1 kind.now (item_of field.now)))
        (string_bytes buf.old) (string_bytes buf.new)) }
    ensures err { OnErr result (string_bytes buf.new ≡ string_bytes buf.old) }
{
    match form {
        Form::Text => lines.push_text(position, kind, field, buf),
        Form::Json => push_json(position, kind, field, &mut lines.room, buf),
        Form::Exact => lines.push_exact(position, kind, field, buf),
    }
}

/// Appends the line of a cell's row, column, kind and value, `cell`, with a last field `shown`. What has to be printed
/// first is printed into `room`, whose text is lost. Only running out of memory refuses, and then `buf` is as it was.
pub fn push_shown_cell<'x>(
    form: Form,
    position: (u32, u32),
    kind: &'static str,
    field: &Field<'x>,
    shown: &'x str,
    room: &mut String,
    buf: &mut String,
) -> Result<(), AllocError>
    ensures ok { OnOk result (AddsText
        (IsLine form (codes "cell") (shown_cell_members position.0 position.1 kind.now (item_of field.now) shown.now))
        (string_bytes buf.old) (string_bytes buf.new)) }
    ensures err { OnErr result (string_bytes buf.new ≡ string_bytes buf.old) }
{
    let (row, column) = position;
    let row = Member {
        name: "row",
        field: Field::Count(u64::from(row)),
    };
    let column = Member {
        name: "column",
        field: Field::Count(u64::from(column)),
    };
    let kind = Member {
        name: "kind",
        field: Field::Word(kind),
    };
    let value = Member {
        name: "value",
        field: field.again(),
    };
    let shown = Member {
        name: "shown",
        field: Field::Text(shown),
    };
    let members = [row, column, kind, value, shown];
    push_line(form, "cell", &members, room, buf)
}
