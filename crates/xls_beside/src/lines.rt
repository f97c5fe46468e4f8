//! Lines of words and members.

ghost use Rattle.std.specs.Prelude.{◌≡◌, ◌∷◌, [], map};
ghost use Rattle.std.specs.Str.{chars};
ghost use Rattle.xls_data.specs.Sheets.{sheet_content};
ghost use Rattle.xls_output.specs.Each.{text_output};
ghost use Rattle.xls_readable.specs.Items as fields;
ghost use Rattle.xls_readable.specs.Items.{item_of, named_of};
ghost use Rattle.xls_strings.specs.Texts.{text_of};
ghost use Rattle.xls_beside.specs.Lines.{PutsLines, characters, known, line};
ghost use Rattle.xls_beside.specs.Lines as lines;

use xls_data::Sheet;
use xls_output::{OutputText, Sink, Stop, Writer};
use xls_readable::{Field, Form, Member, push_line, push_sheet};

/// A count under a name.
pub(crate) fn count_member<'a>(name: &'a str, n: u64) -> Member<'a>
    ensures { named_of result ≡ (name.now, fields.count n) }
{
    Member {
        name,
        field: Field::Count(n),
    }
}

/// A word under a name.
pub(crate) fn word_member<'a>(name: &'a str, word: &'a str) -> Member<'a>
    ensures { named_of result ≡ (name.now, fields.word word.now) }
{
    Member {
        name,
        field: Field::Word(word),
    }
}

/// A text under a name.
pub(crate) fn text_member<'a>(name: &'a str, text: &'a String) -> Member<'a>
    ensures { named_of result ≡ (name.now, characters (text_of text.now)) }
{
    Member {
        name,
        field: Field::Text(text.as_str()),
    }
}

/// A text that is lent, under a name.
pub(crate) fn lent_member<'a>(name: &'a str, text: &'a str) -> Member<'a>
    ensures { named_of result ≡ (name.now, characters (chars text.now)) }
{
    Member {
        name,
        field: Field::Text(text),
    }
}

/// A row or a column that may not be known.
fn known_field(number: Option<u16>) -> Field<'static>
    ensures { item_of result ≡ known number }
{
    match number {
        Some(n) => Field::Count(u64::from(n)),
        None => Field::Unknown,
    }
}

/// The same under a name.
fn known_member<'a>(name: &'a str, number: Option<u16>) -> Member<'a>
    ensures { named_of result ≡ (name.now, known number) }
{
    Member {
        name,
        field: known_field(number),
    }
}

/// Puts a line.
pub(crate) fn put_line<K: Sink>(
    form: Form,
    out: &mut Writer<'_, K, OutputText>,
    word: &str,
    members: &[Member<'_>],
) -> Result<(), Stop>
    ensures { PutsLines form (line word.now (map named_of members.now) ∷ [])
        (text_output K.state out.old) (text_output K.state out.new) result }
{
    let buffer = &mut *out.buffer;
    push_line(form, word, members, &mut buffer.scratch, &mut buffer.text)?;
    out.pass()
}

/// Puts the line of a sheet.
pub(crate) fn put_sheet_line<K: Sink>(
    form: Form,
    out: &mut Writer<'_, K, OutputText>,
    sheet: &Sheet,
) -> Result<(), Stop>
    ensures { PutsLines form (lines.sheet (sheet_content sheet.now) ∷ [])
        (text_output K.state out.old) (text_output K.state out.new) result }
{
    let buffer = &mut *out.buffer;
    push_sheet(
        form,
        sheet.name.as_str(),
        sheet.typ,
        sheet.visible,
        &mut buffer.scratch,
        &mut buffer.text,
    )?;
    out.pass()
}

/// Where a damaged record stands.
#[derive(Clone, Copy)]
pub(crate) struct DamagePlace {
    /// The place of its header in the stream.
    pub(crate) offset: u64,
    pub(crate) row: Option<u16>,
    pub(crate) column: Option<u16>,
}

/// Puts the line of a damaged record: its name, its place, and what is wrong.
pub(crate) fn put_damaged<K: Sink>(
    form: Form,
    out: &mut Writer<'_, K, OutputText>,
    name: &str,
    place: DamagePlace,
    why: &str,
) -> Result<(), Stop>
    ensures { PutsLines form (lines.damaged name.now place.offset place.row place.column why.now ∷ [])
        (text_output K.state out.old) (text_output K.state out.new) result }
{
    let members = [
        word_member("record", name),
        count_member("offset", place.offset),
        known_member("row", place.row),
        known_member("column", place.column),
        word_member("why", why),
    ];
    put_line(form, out, "damaged", &members)
}
