use std::alloc::{AllocError, Global};
use xls_biff::XlsError;
use xls_book::*;
use xls_data::HeaderRow;

mod formats;
mod formulas;
mod globals;
mod lookups;
mod parts;
mod sources;
mod views;

// BOF of the globals and of a sheet in BIFF8, and EOF.
const G: [u8; 8] = [0x09, 0x08, 4, 0, 0x00, 0x06, 0x05, 0x00];

const S: [u8; 8] = [0x09, 0x08, 4, 0, 0x00, 0x06, 0x10, 0x00];

const E: [u8; 4] = [0x0A, 0, 0, 0];

// BoundSheet8 of a visible worksheet `A` whose part begins at byte 25, 38, 51 or 64.
const A: [u8; 13] = [0x85, 0, 9, 0, 25, 0, 0, 0, 0, 0, 1, 0, 0x41];

const A_38: [u8; 13] = [0x85, 0, 9, 0, 38, 0, 0, 0, 0, 0, 1, 0, 0x41];

const A_51: [u8; 13] = [0x85, 0, 9, 0, 51, 0, 0, 0, 0, 0, 1, 0, 0x41];

const A_64: [u8; 13] = [0x85, 0, 9, 0, 64, 0, 0, 0, 0, 0, 1, 0, 0x41];

// RK of 1 and of 2 at (0, 0).
const ONE: [u8; 14] = [0x7E, 2, 10, 0, 0, 0, 0, 0, 0, 0, 6, 0, 0, 0];

const TWO: [u8; 14] = [0x7E, 2, 10, 0, 0, 0, 0, 0, 0, 0, 10, 0, 0, 0];

// RK of 1 at (1, 1) and at (3, 1), of 2 at (1, 1) and at (2, 2), and of 3 at (3, 1).
const ONE_1_1: [u8; 14] = [0x7E, 2, 10, 0, 1, 0, 1, 0, 0, 0, 6, 0, 0, 0];

const ONE_3_1: [u8; 14] = [0x7E, 2, 10, 0, 3, 0, 1, 0, 0, 0, 6, 0, 0, 0];

const TWO_1_1: [u8; 14] = [0x7E, 2, 10, 0, 1, 0, 1, 0, 0, 0, 10, 0, 0, 0];

const TWO_2_2: [u8; 14] = [0x7E, 2, 10, 0, 2, 0, 2, 0, 0, 0, 10, 0, 0, 0];

const THREE_3_1: [u8; 14] = [0x7E, 2, 10, 0, 3, 0, 1, 0, 0, 0, 14, 0, 0, 0];

// RK of 12,345 hundredths at (0, 0).
const HUNDREDTHS: [u8; 14] = [0x7E, 0x02, 10, 0, 0, 0, 0, 0, 0, 0, 0xE7, 0xC0, 0, 0];

// A stream of 51 bytes: one sheet with the one number.
const PLAIN: [&[u8]; 6] = [&G, &A, &E, &S, &HUNDREDTHS, &E];

// The same for functions: a constant is made anew at each use of it.
static PLAIN_PARTS: [&[u8]; 6] = PLAIN;

// Two sheets of one name, the cells of the second one at 38 + 26.
const TWINS: [&[u8]; 10] = [&G, &A_38, &A_64, &E, &S, &ONE, &E, &S, &TWO, &E];

/// How a stream is opened.
#[derive(Clone, Copy)]
enum Opening {
    /// With the options by default.
    Plain,
    /// With at most so many bytes.
    UpTo(u64),
    /// Under a forced code page.
    Forced(u16),
    /// With one function more, named `X`, of one operand.
    WithX,
    /// By the trait's own call.
    ByTrait,
    /// By the call for workbooks of any kind.
    ByCall,
}

/// What is asked of a workbook.
#[derive(Clone, Copy)]
enum Asked {
    /// The values of each sheet and a bar, then its formulas and a bar.
    Sheets,
    /// Whether dates count from 1904, the formats, the defined names and the sheets.
    Reported,
    /// The sheets and the names by `metadata`, and the names of the sheets.
    Names,
    /// The bound of bytes.
    MaxBytes,
    /// The first value of the sheet of a name.
    FirstValue(&'static str),
    /// The merged regions of the sheet of a name, by each call.
    RegionsNamed(&'static str),
    /// The merged regions of the sheet at an index, by each call.
    RegionsAt(usize),
    /// The corners of the range of a name, and its value at a position.
    Value(&'static str, (u32, u32)),
    /// The corners of the range of the formulas of a name.
    FormulaBox(&'static str),
    /// The size of the range of the sheet at an index.
    SizeAt(usize),
    /// The height of the range of `A` from a header row on.
    HeightFrom(u32),
    /// The name and the last corner of each range, under a header row that is ignored.
    Ranges,
}

/// What a case shows, how which parts are opened, what is asked, and the answer or the refusal.
type Case = (
    &'static str,
    Opening,
    &'static [&'static [u8]],
    Asked,
    &'static str,
);

fn joined(alloc: Global, parts: &[&[u8]]) -> Result<Vec<u8>, AllocError> {
    let mut bytes = Vec::new(alloc);
    for part in parts {
        bytes.extend_from_slice(part)?;
    }
    Ok(bytes)
}

fn options_of(alloc: Global, opening: Opening) -> Result<XlsOptions, AllocError> {
    let mut options = XlsOptions::defaults(alloc)?;
    match opening {
        Opening::UpTo(max_bytes) => options.max_bytes = max_bytes,
        Opening::Forced(page) => options.force_codepage = Some(page),
        Opening::WithX => options.functions.push("X", 1)?,
        Opening::Plain | Opening::ByTrait | Opening::ByCall => {}
    }
    Ok(options)
}

fn opened(alloc: Global, opening: Opening, parts: &[&[u8]]) -> Result<Xls, XlsError> {
    let mut source = SteadySource::new(joined(alloc, parts)?);
    match opening {
        Opening::ByTrait => <Xls as Reader>::new(alloc, &mut source),
        Opening::ByCall => open_workbook_from_rs(alloc, &mut source),
        _ => Xls::new_with_options(alloc, &mut source, options_of(alloc, opening)?),
    }
}

// The values and the formulas of a sheet, as `row,column=` with a space after each.
fn push_sheet(text: &mut String, book: &Xls, n: usize) -> Result<(), AllocError> {
    if let Some(values) = book.values_at(n) {
        for (row, column, value) in values {
            write!(text, "{row},{column}={value:?} ")?;
        }
        text.push_str("|")?;
    }
    if let Some(formulas) = book.formulas_at(n) {
        for (row, column, formula) in formulas {
            write!(text, "{row},{column}={formula} ")?;
        }
        text.push_str("|")?;
    }
    Ok(())
}

// There are fewer than four sheets.
fn sheets(alloc: Global, book: &Xls) -> Result<String, AllocError> {
    let mut text = String::new(alloc);
    for n in 0..4 {
        push_sheet(&mut text, book, n)?;
    }
    Ok(text)
}

fn size_at(alloc: Global, book: &Xls, n: usize) -> Result<Option<(usize, usize)>, XlsError> {
    match book.worksheet_range_at(alloc, n) {
        Some(range) => Ok(Some(range?.get_size())),
        None => Ok(None),
    }
}

// The header row that was set last counts.
fn height_from(alloc: Global, book: &mut Xls, row: u32) -> Result<usize, XlsError> {
    book.with_header_row(HeaderRow::Row(9));
    let cut = book.with_header_row(HeaderRow::Row(row));
    Ok(cut.worksheet_range(alloc, "A")?.height())
}

fn ranges(alloc: Global, book: &mut Xls) -> Result<String, XlsError> {
    book.with_header_row(HeaderRow::Row(9));
    let mut text = String::new(alloc);
    for (name, range) in &book.worksheets(alloc)? {
        write!(text, "{name} {:?} ", range.end())?;
    }
    Ok(text)
}

fn answer(alloc: Global, book: &mut Xls, asked: Asked) -> Result<String, XlsError> {
    let text = match asked {
        Asked::Sheets => sheets(alloc, book),
        Asked::Reported => format!(in alloc;
            "{} {:?} {:?} {:?}",
            book.has_1904_epoch(),
            book.formats(),
            book.defined_names(),
            book.sheets_metadata()
        ),
        Asked::Names => format!(in alloc;
            "{:?} {:?} {:?}",
            book.metadata().sheets,
            book.metadata().names,
            book.sheet_names(alloc)?
        ),
        Asked::MaxBytes => format!(in alloc; "{}", book.options().max_bytes),
        Asked::FirstValue(name) => format!(in alloc;
            "{:?}",
            book.values_named(name).map(|values| values.again().next())
        ),
        Asked::RegionsNamed(name) => format!(in alloc;
            "{:?} {:?}",
            book.merge_cells_by_sheet_name(alloc, name),
            book.worksheet_merge_cells(alloc, name)
        ),
        Asked::RegionsAt(n) => format!(in alloc;
            "{:?} {:?} {:?}",
            book.merge_cells_by_sheet_id(alloc, n),
            book.worksheet_merge_cells_at(alloc, n),
            book.merges_at(n)
        ),
        Asked::Value(name, position) => {
            let range = book.worksheet_range(alloc, name)?;
            format!(in alloc;
                "{:?} {:?} {:?}",
                range.start(),
                range.end(),
                range.get_value(position)
            )
        }
        Asked::FormulaBox(name) => {
            let range = book.worksheet_formula(alloc, name)?;
            format!(in alloc; "{:?} {:?}", range.start(), range.end())
        }
        Asked::SizeAt(n) => format!(in alloc; "{:?}", size_at(alloc, book, n)?),
        Asked::HeightFrom(row) => format!(in alloc; "{}", height_from(alloc, book, row)?),
        Asked::Ranges => return ranges(alloc, book),
    };
    Ok(text?)
}

fn answer_of(
    alloc: Global,
    opening: Opening,
    parts: &[&[u8]],
    asked: Asked,
) -> Result<String, XlsError> {
    let mut book = opened(alloc, opening, parts)?;
    answer(alloc, &mut book, asked)
}

// Whether the answer, or the refusal, is this text.
fn is_reported(
    alloc: Global,
    opening: Opening,
    parts: &[&[u8]],
    asked: Asked,
    wanted: &str,
) -> Result<bool, AllocError> {
    let text = match answer_of(alloc, opening, parts, asked) {
        Ok(text) => text,
        Err(error) => format!(in alloc; "{error:?}")?,
    };
    Ok(text.as_str() == wanted)
}

fn is_case(alloc: Global, case: &Case) -> Result<bool, AllocError> {
    let (_, opening, parts, asked, wanted) = case;
    is_reported(alloc, *opening, parts, *asked, wanted)
}
