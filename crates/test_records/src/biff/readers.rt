//! A call for each reader, and the text of its answer.

use super::*;
use std::fmt;
use xls_data::{CellFormat, Dimensions};
use xls_stream::types::{
    BOF, BOUND_SHEET_8, CODE_PAGE, DATE_MODE, EXTERN_SHEET, FILE_PASS, FORMAT, XF,
};

/// A reader, or the check, the weight or the listing of a record of a sheet.
#[derive(Clone, Copy)]
pub enum Reader {
    Bof,
    FilePass,
    DateMode,
    CodePage,
    ExternSheet(Biff),
    Xf,
    Format(XlsEncoding, Biff),
    FormatCode(XlsEncoding, Biff),
    Sheet(Biff),
    SheetCheck(Biff),
    Number,
    /// Under these classes.
    Rk(&'static [CellFormat]),
    MulRk,
    BoolErr,
    Label(Biff),
    /// In the texts `a`, nothing and `b`.
    LabelSst,
    /// Of these eight bytes.
    FormulaValue([u8; 8]),
    Formula,
    /// After the region from (7, 7) to (8, 8).
    MergeCells,
    Dimensions,
    Check(u16, Biff),
    Weight(u16),
    Listing(u16),
}

/// What a row shows, the reader, the body, and the text of the answer.
pub type Row = (&'static str, Reader, &'static [u8], &'static str);

/// A record without Continue records.
fn record(typ: u16, body: &[u8]) -> Record<'_> {
    Record {
        typ,
        body,
        pieces: Pieces::new(&[]),
    }
}

fn three_texts(alloc: Global) -> Result<Strings, AllocError> {
    let mut strings = Strings::new(alloc);
    strings.push("a")?;
    strings.push("")?;
    strings.push("b")?;
    Ok(strings)
}

/// An answer, and where a list doesn't have as many items as before, the list.
fn with_list<T: fmt::Debug + Drop>(
    alloc: Global,
    answer: Result<(), XlsError>,
    list: Vec<T>,
    before: usize,
) -> Result<String, AllocError> {
    if list.len() == before {
        return displayed(alloc, answer);
    }
    format!(in alloc; "{answer:?} {list:?}")
}

/// The text of a reader's answer: what is read, or `Err` and the fault. Of references it has their
/// number and the first two, of a formula the position, the value and the tokens.
pub fn answer_of(alloc: Global, reader: Reader, body: &[u8]) -> Result<String, AllocError> {
    match reader {
        Reader::Bof => displayed(alloc, parse_bof(&record(BOF, body))),
        Reader::FilePass => displayed(alloc, parse_file_pass(&record(FILE_PASS, body))),
        Reader::DateMode => displayed(alloc, parse_date_mode(&record(DATE_MODE, body))),
        Reader::CodePage => displayed(alloc, parse_code_page(&record(CODE_PAGE, body))),
        Reader::ExternSheet(biff) => {
            match parse_extern_sheet(alloc, &record(EXTERN_SHEET, body), biff) {
                Ok(refs) => displayed(alloc, (refs.len(), refs.first(0), refs.first(1))),
                Err(e) => refusal(alloc, e),
            }
        }
        Reader::Xf => displayed(alloc, parse_xf(&record(XF, body))),
        Reader::Format(page, biff) => {
            displayed(
                alloc,
                parse_format(alloc, &record(FORMAT, body), &page, biff),
            )
        }
        Reader::FormatCode(page, biff) => {
            displayed(
                alloc,
                parse_format_code(alloc, &record(FORMAT, body), &page, biff),
            )
        }
        Reader::Sheet(biff) => {
            let r = record(BOUND_SHEET_8, body);
            displayed(alloc, parse_sheet_metadata(alloc, &r, &UTF16, biff))
        }
        Reader::SheetCheck(biff) => {
            displayed(
                alloc,
                check_sheet_metadata(&record(BOUND_SHEET_8, body), biff),
            )
        }
        Reader::Number => displayed(alloc, parse_number(body, &[], false)),
        Reader::Rk(classes) => displayed(alloc, parse_rk(body, classes, false)),
        Reader::MulRk => {
            let mut cells = Vec::new(alloc);
            let answer = parse_mul_rk(body, &mut cells, &[], false);
            with_list(alloc, answer, cells, 0)
        }
        Reader::BoolErr => displayed(alloc, parse_bool_err(body)),
        Reader::Label(biff) => displayed(alloc, parse_label(alloc, body, &UTF16, biff)),
        Reader::LabelSst => displayed(alloc, parse_label_sst(alloc, body, &three_texts(alloc)?)),
        Reader::FormulaValue(value) => displayed(
            alloc,
            parse_formula_value(alloc, &value, None, false),
        ),
        Reader::Formula => match parse_formula_record(alloc, body, &[], false) {
            Ok(formula) => displayed(alloc, (formula.position, formula.value, formula.rgce)),
            Err(e) => refusal(alloc, e),
        },
        Reader::MergeCells => {
            let mut regions = Vec::new(alloc);
            regions.push(Dimensions::new((7, 7), (8, 8)))?;
            let answer = parse_merge_cells(body, &mut regions);
            with_list(alloc, answer, regions, 1)
        }
        Reader::Dimensions => displayed(alloc, parse_dimensions(body)),
        Reader::Check(typ, biff) => displayed(alloc, check_sheet_record(&record(typ, body), biff)),
        Reader::Weight(typ) => displayed(alloc, sheet_record_weight(&record(typ, body))),
        Reader::Listing(typ) => displayed(alloc, record(typ, body)),
    }
}

/// Whether each reader answers so.
pub fn rows_hold(rt: &impl Abort, alloc: Global, rows: &[Row]) -> Result<(), Fail> {
    for (word, reader, body, wanted) in rows {
        let answer = answer_of(alloc, *reader, body)?;
        assert!(rt; answer.as_str() == *wanted, "{word}: {answer}");
    }
    Ok(())
}
