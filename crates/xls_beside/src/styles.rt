//! The lines of how cells look.

ghost use Rattle.std.specs.Prelude.{◌≡◌, ◌∷◌, [], IfOk, codes, map};
ghost use Rattle.std.specs.List.{flat_map};
ghost use Rattle.xls_open.specs.Globals.{listed_of};
ghost use Rattle.xls_output.specs.Each.{DeliversEach, text_output};
ghost use Rattle.xls_readable.specs.Items.{item_of, named_of};
ghost use Rattle.xls_style_cells.specs.Places.{cell_given};
ghost use Rattle.xls_style_cells.specs.Tables.{string_table};
ghost use Rattle.xls_styles.specs.Styles.{font_style_view, style_view};
ghost use Rattle.xls_beside.specs.Damaged.{at_most_counted, damaged_among};
ghost use Rattle.xls_beside.specs.Lines.{IsLineText, PutsLines, line};
ghost use Rattle.xls_beside.specs.Styles as specs;
ghost use Rattle.xls_beside.specs.Styles.{styles_lines};
ghost use Rattle.xls_beside.specs.Words.{AreFontWords, AreStyleWords};

use crate::lines::{DamagePlace, count_member, lent_member, put_damaged, put_line, word_member};
use crate::parts::{SheetPart, part_at};
use crate::sheets::{Tells, put_listed};
use std::alloc::{AllocError, Global};
use xls_data::Number;
use xls_open::{Globals, Listed};
use xls_output::{OutputText, Sink, Stop, Writer};
use xls_readable::{Field, Form, Member};
use xls_record::Biff;
use xls_style_cells::{Run, Runs, SheetStyles, StringRuns, StyleCell, StyleCells};
use xls_styles::{
    CellStyle, Damage, FontStyle, Size, Styles, alignment_text, borders_text, cell_marks_text,
    fill_text, font_marks_text,
};
use xls_text::XlsEncoding;

/// A size that may not be known.
fn size_field(size: Option<Size>) -> Field<'static>
    ensures { item_of result ≡ specs.size_item size }
{
    match size {
        Some(size) => Field::Number(Number::Hundredths(5 * i64::from(size.twentieths))),
        None => Field::Unknown,
    }
}

/// The same under its name.
fn size_member(size: Option<Size>) -> Member<'static>
    ensures { named_of result ≡ (codes "size", specs.size_item size) }
{
    Member {
        name: "size",
        field: size_field(size),
    }
}

/// The words for how a cell looks.
#[derive(Drop)]
struct StyleWords {
    marks: String,
    color: String,
    fill: String,
    alignment: String,
    borders: String,
}

/// Those of a style.
fn style_words(alloc: Global, style: &CellStyle<'_>) -> Result<StyleWords, AllocError>
    ensures { IfOk result (AreStyleWords (style_view style.now)) }
{
    let marks = cell_marks_text(alloc, &style.font.marks, style.protection)?;
    let color = format!(in alloc; "{}", style.font.color)?;
    let fill = fill_text(alloc, &style.fill)?;
    let alignment = alignment_text(alloc, &style.alignment)?;
    let borders = borders_text(alloc, &style.borders)?;
    Ok(StyleWords {
        marks,
        color,
        fill,
        alignment,
        borders,
    })
}

/// Puts the line of a cell of a style with these words.
fn put_style<K: Sink>(
    form: Form,
    out: &mut Writer<'_, K, OutputText>,
    cell: &StyleCell<'_>,
    style: &CellStyle<'_>,
    words: &StyleWords,
) -> Result<(), Stop>
    requires { AreStyleWords (style_view style.now) words.now }
    ensures { PutsLines form
        (line (codes "style") (specs.style_members (cell_given cell.now).0 (style_view style.now)) ∷ [])
        (text_output K.state out.old) (text_output K.state out.new) result }
{
    let members = [
        count_member("row", u64::from(cell.row)),
        count_member("column", u64::from(cell.column)),
        word_member("marks", words.marks.as_str()),
        lent_member("format", style.code),
        lent_member("font", style.font.name),
        size_member(style.font.size),
        word_member("colour", words.color.as_str()),
        word_member("fill", words.fill.as_str()),
        word_member("alignment", words.alignment.as_str()),
        word_member("borders", words.borders.as_str()),
    ];
    put_line(form, out, "style", &members)
}

/// The words for how a part of a text looks.
#[derive(Drop)]
struct FontWords {
    marks: String,
    color: String,
}

/// Those of a font.
fn font_words(alloc: Global, font: &FontStyle<'_>) -> Result<FontWords, AllocError>
    ensures { IfOk result (AreFontWords (font_style_view font.now)) }
{
    let marks = font_marks_text(alloc, &font.marks)?;
    let color = format!(in alloc; "{}", font.color)?;
    Ok(FontWords { marks, color })
}

/// Puts the line of a run of a font with these words.
fn put_font<K: Sink>(
    form: Form,
    out: &mut Writer<'_, K, OutputText>,
    cell: &StyleCell<'_>,
    run: Run,
    font: &FontStyle<'_>,
    words: &FontWords,
) -> Result<(), Stop>
    requires { AreFontWords (font_style_view font.now) words.now }
    ensures { PutsLines form
        (line (codes "run") (specs.run_members (cell_given cell.now).0 run (font_style_view font.now)) ∷ [])
        (text_output K.state out.old) (text_output K.state out.new) result }
{
    let members = [
        count_member("row", u64::from(cell.row)),
        count_member("column", u64::from(cell.column)),
        count_member("from", u64::from(run.unit)),
        word_member("marks", words.marks.as_str()),
        lent_member("font", font.name),
        size_member(font.size),
        word_member("colour", words.color.as_str()),
    ];
    put_line(form, out, "run", &members)
}

/// Puts the line of a run.
fn put_run<K: Sink>(
    form: Form,
    alloc: Global,
    out: &mut Writer<'_, K, OutputText>,
    styles: &Styles,
    cell: &StyleCell<'_>,
    run: Run,
) -> Result<(), Stop>
    ensures { PutsLines form (specs.run_line styles.now (cell_given cell.now).0 run ∷ [])
        (text_output K.state out.old) (text_output K.state out.new) result }
{
    let font = styles.font(run.font);
    let words = font_words(alloc, &font)?;
    put_font(form, out, cell, run, &font, &words)
}

/// Puts the lines of all runs of a text, in order.
fn put_runs<K: Sink>(
    form: Form,
    alloc: Global,
    out: &mut Writer<'_, K, OutputText>,
    styles: &Styles,
    cell: &StyleCell<'_>,
    runs: Runs<'_>,
) -> Result<(), Stop>
    ensures { PutsLines form (map (specs.run_line styles.now (cell_given cell.now).0) runs.entry)
        (text_output K.state out.old) (text_output K.state out.new) result }
{
    for run in runs {
        put_run(form, alloc, out, styles, cell, run)?;
    }
    Ok(())
}

/// Puts the line of a cell.
fn put_look<K: Sink>(
    form: Form,
    alloc: Global,
    out: &mut Writer<'_, K, OutputText>,
    styles: &Styles,
    cell: &StyleCell<'_>,
) -> Result<(), Stop>
    ensures { PutsLines form (specs.style_line styles.now (cell_given cell.now).0 (cell_given cell.now).1.0 ∷ [])
        (text_output K.state out.old) (text_output K.state out.new) result }
{
    let style = styles.cell(cell.xf);
    let words = style_words(alloc, &style)?;
    put_style(form, out, cell, &style, &words)
}

/// How the cells of the sheets of a stream look: by what the globals say, and the runs of the string table.
#[derive(Clone, Copy, Drop)]
struct SheetLooks<'s, 't, 'a> {
    stream: &'a [u8],
    version: Biff,
    styles: &'s Styles,
    strings: &'t StringRuns<'a>,
}

/// Puts the line of a cell, and those of the runs of its text.
fn put_cell<'a, K: Sink>(
    form: Form,
    alloc: Global,
    out: &mut Writer<'_, K, OutputText>,
    looks: &SheetLooks<'_, '_, 'a>,
    cell: &StyleCell<'a>,
) -> Result<(), Stop>
    ensures { PutsLines form
        (specs.cell_lines looks.now.version looks.now.styles.now looks.now.strings.now (cell_given cell.now))
        (text_output K.state out.old) (text_output K.state out.new) result }
{
    put_look(form, alloc, out, looks.styles, cell)?;
    let runs = looks.strings.of(looks.version, cell.runs);
    put_runs(form, alloc, out, looks.styles, cell, runs)
}

/// Puts the lines of all cells, in order.
fn put_cells<'a, K: Sink>(
    form: Form,
    alloc: Global,
    out: &mut Writer<'_, K, OutputText>,
    looks: &SheetLooks<'_, '_, 'a>,
    cells: StyleCells<'_, 'a>,
) -> Result<(), Stop>
    ensures { PutsLines form
        (flat_map (specs.cell_lines looks.now.version looks.now.styles.now looks.now.strings.now) cells.entry)
        (text_output K.state out.old) (text_output K.state out.new) result }
{
    for cell in cells {
        put_cell(form, alloc, out, looks, &cell)?;
    }
    Ok(())
}

/// Puts the line of a damaged record of the globals.
fn put_damage<K: Sink>(
    form: Form,
    alloc: Global,
    out: &mut Writer<'_, K, OutputText>,
    damage: &Damage,
) -> Result<(), Stop>
    ensures { PutsLines form (specs.damaged_style damage.now ∷ [])
        (text_output K.state out.old) (text_output K.state out.new) result }
{
    let name = format!(in alloc; "{}", damage.record_name)?;
    let why = format!(in alloc; "{}", damage.flaw)?;
    let place = DamagePlace {
        offset: damage.offset,
        row: None,
        column: None,
    };
    put_damaged(form, out, name.as_str(), place, why.as_str())
}

/// Puts the lines of all damaged records of the globals, in order.
fn put_damages<K: Sink>(
    form: Form,
    alloc: Global,
    out: &mut Writer<'_, K, OutputText>,
    damages: &[Damage],
) -> Result<(), Stop>
    ensures { PutsLines form (map specs.damaged_style damages.now)
        (text_output K.state out.old) (text_output K.state out.new) result }
{
    for damage in damages {
        put_damage(form, alloc, out, damage)?;
    }
    Ok(())
}

impl<'s, 't, 'a> Tells for SheetLooks<'s, 't, 'a> {
    ghost use Rattle.xls_beside.specs.Styles.{styles_in};

    ghost lines = { λ s. styles_in s.version s.styles.now s.strings.now s.stream.now };

    fn put<K: Sink>(
        &self,
        form: Form,
        alloc: Global,
        out: &mut Writer<'_, K, OutputText>,
        part: SheetPart,
    ) -> Result<(), Stop> {
        let bytes = part_at(self.stream, part.offset);
        let found = SheetStyles::read(alloc, bytes, self.version)?;
        put_cells(form, alloc, out, self, found.cells())
    }
}

/// Puts what is damaged in the globals, and the lines of sheets, by the list of the sheets.
fn put_damages_and_sheets<K: Sink>(
    form: Form,
    alloc: Global,
    out: &mut Writer<'_, K, OutputText>,
    looks: &SheetLooks<'_, '_, '_>,
    listed: &[Listed],
) -> Result<(), Stop>
    requires { looks.now.strings.now ≡ string_table looks.now.stream.now }
    ensures { PutsLines form
        (specs.told_lines looks.now.version looks.now.styles.now (map listed_of listed.now) looks.now.stream.now)
        (text_output K.state out.old) (text_output K.state out.new) result }
{
    put_damages(form, alloc, out, looks.styles.damages())?;
    put_listed(form, alloc, out, looks, looks.stream, looks.version, listed)
}

/// Puts the same, where the runs of the string table are read, by the version and the page in force.
fn put_told<'a, K: Sink>(
    form: Form,
    alloc: Global,
    out: &mut Writer<'_, K, OutputText>,
    stream: &'a [u8],
    version: Biff,
    page: XlsEncoding,
    strings: &StringRuns<'a>,
    listed: &[Listed],
) -> Result<(), Stop>
    requires { strings.now ≡ string_table stream.now }
    ensures { PutsLines form (styles_lines version page (map listed_of listed.now) stream.now)
        (text_output K.state out.old) (text_output K.state out.new) result }
{
    let styles = Styles::read(alloc, stream, version, &page)?;
    let looks = SheetLooks {
        stream,
        version,
        styles: &styles,
        strings,
    };
    put_damages_and_sheets(form, alloc, out, &looks, listed)
}

/// Puts the same, by the version and the page in force.
fn put_all<K: Sink>(
    form: Form,
    alloc: Global,
    out: &mut Writer<'_, K, OutputText>,
    stream: &[u8],
    version: Biff,
    page: XlsEncoding,
    listed: &[Listed],
) -> Result<(), Stop>
    ensures { PutsLines form (styles_lines version page (map listed_of listed.now) stream.now)
        (text_output K.state out.old) (text_output K.state out.new) result }
{
    let strings = StringRuns::read(alloc, stream)?;
    put_told(form, alloc, out, stream, version, page, &strings, listed)
}

/// Writes how the cells of a workbook look, by its stream and its globals. First what is damaged in the globals
/// (`damaged`). Then for each sheet in workbook order its line `sheet`, and behind it, of each cell record in the last
/// sheet of its name, blank cells among them, by row and column: row, column, marks, format, font, size, colour, fill,
/// alignment and borders (`style`), and behind it of each formatting run of its text: row, column, the unit that it begins
/// with, marks, font, size and colour (`run`). At a refusal of the sink, or where memory runs out, a prefix of these lines
/// was written. Beside the globals the fonts, formats and codes are held, the place of each string with runs, and of one
/// sheet whose cells don't ascend 24 bytes for each cell.
pub fn write_styles<K: Sink>(
    alloc: Global,
    sink: &mut K,
    form: Form,
    stream: &[u8],
    globals: &Globals,
) -> Result<(), Stop>
    ensures { DeliversEach (IsLineText form)
        (styles_lines globals.now.version globals.now.page globals.now.sheets stream.now)
        (K.state sink.old) (K.state sink.new) result }
{
    let mut buffer = OutputText::new(alloc);
    let mut out = Writer::new(&mut buffer, sink);
    put_all(
        form,
        alloc,
        &mut out,
        stream,
        globals.version,
        globals.page,
        &globals.listed,
    )?;
    out.finish()
}

/// How many records of the globals that tell how cells look are damaged; 2^64 - 1 where they are more. The cells aren't
/// read: no line `damaged` tells of one.
pub(crate) fn damaged_styles(
    alloc: Global,
    stream: &[u8],
    globals: &Globals,
) -> Result<u64, AllocError>
    ensures { IfOk result (λ n. n
        ≡ at_most_counted (damaged_among (styles_lines globals.now.version globals.now.page globals.now.sheets stream.now))) }
{
    let styles = Styles::read(alloc, stream, globals.version, &globals.page)?;
    Ok(styles.damages().len() as u64)
}
