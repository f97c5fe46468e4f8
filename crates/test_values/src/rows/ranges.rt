//! Ranges as rows.

ghost use Rattle.std.specs.Prelude.{◌≡◌};
ghost use Rattle.xls_rows.specs.Choices.{unnamed};
ghost use Rattle.xls_rows.specs.Chosen.{chosen};

use super::{Input, cell_of, displayed};
use std::alloc::{AllocError, Global};
use std::test::Fail;
use xls_data::{CellErrorType, Data};
use xls_range::Range;
use xls_rows::{
    DeError, FromRow, RangeDeserializer, RangeDeserializerBuilder, ReadCell, deserialize,
};

// Puts cells at their positions.
fn fill(alloc: Global, range: &mut Range<Data>, cells: &[((u32, u32), Input)]) -> Result<(), Fail> {
    for (position, input) in cells {
        range.set_value(*position, cell_of(alloc, input)?)?;
    }
    Ok(())
}

// A row of the headers `a` and `b`, and a row of 300 and #N/A.
static LEDGER: [((u32, u32), Input); 4] = [
    ((0, 0), Input::Text("a")),
    ((0, 1), Input::Text("b")),
    ((1, 0), Input::Int(300)),
    ((1, 1), Input::Wrong(CellErrorType::NA)),
];

// Below the headers `a` and ` b `, at row 3 and column 2, a row with #N/A and one with 7 and `x`.
static TABLE: [((u32, u32), Input); 5] = [
    ((3, 2), Input::Text("a")),
    ((3, 3), Input::Text(" b ")),
    ((4, 3), Input::Wrong(CellErrorType::NA)),
    ((5, 2), Input::Int(7)),
    ((5, 3), Input::Text("x")),
];

fn ledger(alloc: Global) -> Result<Range<Data>, Fail> {
    let mut range = Range::empty(alloc);
    fill(alloc, &mut range, &LEDGER)?;
    Ok(range)
}

fn table(alloc: Global) -> Result<Range<Data>, Fail> {
    let mut range = Range::new(alloc, (3, 2), (5, 3))?;
    fill(alloc, &mut range, &TABLE)?;
    Ok(range)
}

// The table with #NUM! for its second header.
fn table_with_a_wrong_header(alloc: Global) -> Result<Range<Data>, Fail> {
    let mut range = table(alloc)?;
    range.set_value((3, 3), Data::Error(CellErrorType::Num))?;
    Ok(range)
}

fn strings(alloc: Global, texts: &[&str]) -> Result<Vec<String>, Fail> {
    let mut strings = Vec::new(alloc);
    for s in texts {
        strings.push(String::from_str(alloc, s)?)?;
    }
    Ok(strings)
}

// The rows of a range by wanted headers, or by the first row, through the bounds.
fn by_headers<'c, T: ReadCell, D: FromRow>(
    alloc: Global,
    range: &'c Range<T>,
    headers: &[String],
) -> Result<RangeDeserializer<'c, T, D>, DeError> {
    RangeDeserializerBuilder::with_headers(headers).from_range(alloc, range)
}

fn rows_of<'c, T: ReadCell, D: FromRow>(
    alloc: Global,
    range: &'c Range<T>,
) -> Result<RangeDeserializer<'c, T, D>, DeError> {
    deserialize(alloc, range)
}

// The texts of a row, each with a bar after it, or the text of its refusal.
fn row_text(alloc: Global, row: Result<Vec<String>, DeError>) -> Result<String, AllocError> {
    let texts = match row {
        Ok(texts) => texts,
        Err(refusal) => return displayed::<u8>(alloc, Err(refusal)),
    };
    let mut text = String::new(alloc);
    for cell in &texts {
        write!(text, "{cell}|")?;
    }
    Ok(text)
}

// Adds how many rows are left, and the text of the next row; whether there was one.
fn push_row<T: ReadCell>(
    alloc: Global,
    rows: &mut RangeDeserializer<'_, T, Vec<String>>,
    text: &mut String,
) -> Result<bool, AllocError> {
    let (least, most) = rows.size_hint();
    if most != Some(least) {
        text.push_str("?")?;
    }
    write!(text, "{least}:")?;
    let Some(row) = rows.next() else {
        return Ok(false);
    };
    let row = row_text(alloc, row)?;
    write!(text, "{row} ")?;
    Ok(true)
}

// How many rows are left before each row, and the row's text.
fn text_of<T: ReadCell>(
    alloc: Global,
    rows: &mut RangeDeserializer<'_, T, Vec<String>>,
) -> Result<String, AllocError> {
    let mut text = String::new(alloc);
    for _ in 0..4 {
        if !push_row(alloc, rows, &mut text)? {
            break;
        }
    }
    Ok(text)
}

fn listing<T: ReadCell>(
    alloc: Global,
    rows: Result<RangeDeserializer<'_, T, Vec<String>>, DeError>,
) -> Result<String, AllocError> {
    match rows {
        Ok(mut rows) => text_of(alloc, &mut rows),
        Err(refusal) => displayed::<u8>(alloc, Err(refusal)),
    }
}

// A range of a case.
enum Source {
    Empty,
    Blank,
    Ledger,
    Table,
    WrongHeaders,
}

fn range_of(alloc: Global, source: &Source) -> Result<Range<Data>, Fail> {
    match source {
        Source::Empty => Ok(Range::empty(alloc)),
        Source::Blank => Ok(Range::new(alloc, (0, 0), (2, 1))?),
        Source::Ledger => ledger(alloc),
        Source::Table => table(alloc),
        Source::WrongHeaders => table_with_a_wrong_header(alloc),
    }
}

// How the rows of a case are asked for.
enum Choice {
    Deserialize,
    Headers,
    NoHeaders,
    Wanted(&'static [&'static str]),
}

// What `has_headers` chose is known of the builder when the borrow is over.
fn builder_without_headers() -> RangeDeserializerBuilder<'static>
    ensures { chosen result ≡ unnamed }
{
    let mut builder = RangeDeserializerBuilder::default();
    builder.has_headers(false);
    builder
}

fn with_headers(alloc: Global, range: &Range<Data>) -> Result<String, AllocError> {
    let mut builder = builder_without_headers();
    listing(alloc, builder.has_headers(true).from_range(alloc, range))
}

fn with_wanted(alloc: Global, range: &Range<Data>, texts: &[&str]) -> Result<String, Fail> {
    let headers = strings(alloc, texts)?;
    Ok(listing(alloc, by_headers(alloc, range, headers.as_slice()))?)
}

fn answer(alloc: Global, range: &Range<Data>, choice: &Choice) -> Result<String, Fail> {
    match choice {
        Choice::Deserialize => Ok(listing(alloc, rows_of(alloc, range))?),
        Choice::Headers => Ok(with_headers(alloc, range)?),
        Choice::NoHeaders => {
            Ok(listing(alloc, builder_without_headers().from_range(alloc, range))?)
        }
        Choice::Wanted(texts) => with_wanted(alloc, range, texts),
    }
}

// Whether a range is read as rows with this listing.
fn is_listed(alloc: Global, source: &Source, choice: &Choice, wanted: &str) -> Result<bool, Fail> {
    let range = range_of(alloc, source)?;
    Ok(answer(alloc, &range, choice)?.as_str() == wanted)
}

static CASES: [(Source, Choice, &str); 11] = [
    (Source::Empty, Choice::Deserialize, "0:"),
    (Source::Empty, Choice::Wanted(&["c"]), "0:"),
    (Source::Blank, Choice::Deserialize, "2:|| 1:|| 0:"),
    (Source::Blank, Choice::NoHeaders, "3:|| 2:|| 1:|| 0:"),
    (Source::Blank, Choice::Headers, "2:|| 1:|| 0:"),
    (
        Source::Ledger,
        Choice::Wanted(&["b", " c ", "d"]),
        "Cannot find header named 'c'",
    ),
    (
        Source::WrongHeaders,
        Choice::Wanted(&["c"]),
        "Cell error at position '(3, 2)': #NUM!",
    ),
    (
        Source::Ledger,
        Choice::Deserialize,
        "1:Cell error at position '(1, 0)': #N/A 0:",
    ),
    (
        Source::Table,
        Choice::Deserialize,
        "2:Cell error at position '(4, 2)': #N/A 1:7|x| 0:",
    ),
    (
        Source::Table,
        Choice::Wanted(&["b", "a "]),
        "2:Cell error at position '(4, 2)': #N/A 1:x|7| 0:",
    ),
    (
        Source::Table,
        Choice::NoHeaders,
        "3:a| b | 2:Cell error at position '(4, 2)': #N/A 1:7|x| 0:",
    ),
];

#[test]
fn reads_ranges_as_rows(rt: HostRuntime) -> Result<(), Fail> {
    for (source, choice, wanted) in CASES.iter() {
        assert!(rt; is_listed(rt.alloc(), source, choice, wanted)?);
    }
    Ok(())
}
