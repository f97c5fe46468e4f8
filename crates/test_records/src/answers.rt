//! What the tests of both crates compare: the texts of answers.

use std::alloc::{AllocError, Global};
use std::fmt;
use xls_strings::{Record, SstReader, Strings, XlsError, parse_sst, skip_sst};
use xls_text::XlsEncoding;

pub const UTF16: XlsEncoding = XlsEncoding::Utf16;

/// An answer as `{:?}` writes it.
pub fn displayed<T: fmt::Debug + Drop>(alloc: Global, answer: T) -> Result<String, AllocError> {
    format!(in alloc; "{answer:?}")
}

/// A refusal, of whatever was to be read.
pub fn refusal(alloc: Global, fault: XlsError) -> Result<String, AllocError> {
    displayed(alloc, Err::<(), XlsError>(fault))
}

/// The number of the texts, then each of them behind a bar, and a dot for the index past the end.
fn texts_of(alloc: Global, strings: &Strings) -> Result<String, AllocError> {
    let mut texts = displayed(alloc, strings.len())?;
    for i in 0..strings.len().saturating_add(1) {
        texts.push_str("|")?;
        texts.push_str(strings.get(i).unwrap_or("."))?;
    }
    Ok(texts)
}

/// The units of each string of a table, up to the answer without units, and the answer after that.
fn steps_of(alloc: Global, r: &Record<'_>) -> Result<String, AllocError> {
    let mut steps = String::new(alloc);
    let mut reader = match SstReader::new(r) {
        Ok(reader) => reader,
        Err(e) => {
            let refused = refusal(alloc, e)?;
            steps.push_str(&refused)?;
            steps.push_str(&refused)?;
            return Ok(steps);
        }
    };
    for _ in 0..4 {
        let step = displayed(alloc, reader.next_units(alloc))?;
        steps.push_str(&step)?;
        if !step.starts_with("Ok(Some(") {
            break;
        }
    }
    steps.push_str(&displayed(alloc, reader.next_units(alloc))?)?;
    Ok(steps)
}

/// What the three ways through a string table answer: its texts, the number of its strings, and their
/// units one string after the other.
fn table_text(alloc: Global, r: &Record<'_>) -> Result<String, AllocError> {
    let texts = match parse_sst(alloc, r) {
        Ok(strings) => texts_of(alloc, &strings)?,
        Err(e) => refusal(alloc, e)?,
    };
    let count = skip_sst(r);
    let steps = steps_of(alloc, r)?;
    format!(in alloc; "{texts} {count:?} {steps}")
}

/// What a string table is to answer.
#[derive(Clone, Copy)]
pub enum Table {
    /// The texts, their number and the steps.
    Gives(&'static str),
    /// This fault, after these steps.
    Refuses(&'static str, &'static str),
}

/// Whether a string table answers so, in each of the three ways. The refused step is refused again.
pub fn answers(alloc: Global, r: &Record<'_>, wanted: Table) -> Result<bool, AllocError> {
    let text = table_text(alloc, r)?;
    match wanted {
        Table::Gives(answer) => Ok(text.as_str() == answer),
        Table::Refuses(fault, steps) => {
            let refused = format!(in alloc;
                "Err({fault}) Err({fault}) {steps}Err({fault})Err({fault})"
            )?;
            Ok(text == refused)
        }
    }
}
