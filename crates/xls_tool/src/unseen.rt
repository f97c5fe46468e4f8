//! How many cells can't be seen, and how many things are damaged, which is told on standard error.

ghost use Rattle.std.specs.Prelude.{◌≡◌, ◌<◌, length};
ghost use Rattle.xls_answers.specs.Answers.{HasNumber};
ghost use Rattle.xls_readable.specs.Choices.{IsNumbered};

use crate::file::Workbook;
use crate::job::Job;
use crate::say::say_of;
use crate::sheets::is_table;
use std::alloc::{AllocError, Global};
use xls_answers::{Answer, Failure, HiddenParts, chosen, damaged_things, hidden_cells_at, view_of};
use xls_beside::Topic;
use xls_data::Sheet;
use xls_files::Host;
use xls_hidden::HiddenSheet;
use xls_hidden::types::{COLUMNS, ROWS};
use xls_readable::{Form, Listing, SheetChoice};
use xls_view::View;

/// Which sheets are told of.
#[derive(Clone, Copy)]
enum Told {
    All,
    /// Each worksheet and each macro sheet.
    Tables,
    /// That of an index.
    One(usize),
}

/// Whether a row or a column can't be seen. (The first of its items would say so too, but looks for damaged records where
/// there is none.)
fn hides(hidden: &HiddenSheet<'_>) -> bool {
    for row in 0..ROWS {
        if hidden.row(row).is_some() {
            return true;
        }
    }
    for column in 0..COLUMNS {
        if hidden.column(column).is_some() {
            return true;
        }
    }
    false
}

/// Whether a sheet has a row or a column that can't be seen.
fn any_hides(alloc: Global, parts: &HiddenParts<'_>) -> Result<bool, AllocError> {
    for index in 0..parts.count() {
        if let Some(hidden) = parts.listed(alloc, index)? {
            if hides(&hidden) {
                return Ok(true);
            }
        }
    }
    Ok(false)
}

/// Whether a sheet of an index is told of.
fn is_told(told: Told, sheet: &Sheet, index: usize) -> bool {
    match told {
        Told::All => true,
        Told::Tables => is_table(sheet),
        Told::One(n) => index == n,
    }
}

/// Tells how many cells of a sheet can't be seen, if there are any.
fn tell_count<H: Host>(
    alloc: Global,
    host: &mut H,
    file: &str,
    sheet: &Sheet,
    count: u64,
) -> Result<(), AllocError>
    ensures { H.files host.new ≡ H.files host.old }
{
    if count == 0 {
        return Ok(());
    }
    let text = format!(in alloc;
        "sheet '{}' has cells in hidden rows or columns: {count}",
        sheet.name
    )?;
    say_of(alloc, host, file, text.as_str())
}

/// Tells it of the sheet of an index.
fn tell_sheet<H: Host>(
    alloc: Global,
    host: &mut H,
    file: &str,
    parts: &HiddenParts<'_>,
    view: &View<'_>,
    index: usize,
) -> Result<(), AllocError>
    requires { index < length view.now.book.sheets }
    ensures { H.files host.new ≡ H.files host.old }
{
    let count = hidden_cells_at(alloc, parts, view, index)?;
    tell_count(alloc, host, file, &view.sheets()[index], count)
}

/// Tells it of some sheets.
fn tell_sheets<H: Host>(
    alloc: Global,
    host: &mut H,
    file: &str,
    parts: &HiddenParts<'_>,
    view: &View<'_>,
    told: Told,
) -> Result<(), AllocError>
    ensures { H.files host.new ≡ H.files host.old }
{
    let sheets = view.sheets();
    for index in 0..sheets.len() {
        if is_told(told, &sheets[index], index) {
            tell_sheet(alloc, host, file, parts, view, index)?;
        }
    }
    Ok(())
}

/// Which sheets are told of where a sheet is asked for, or all of them.
fn told_of(
    alloc: Global,
    view: &View<'_>,
    choice: &SheetChoice<'_>,
    takes_all: bool,
) -> Result<Told, Failure>
    requires { IsNumbered choice.now }
{
    if takes_all {
        return Ok(Told::Tables);
    }
    Ok(Told::One(chosen(alloc, view, choice)?))
}

/// Tells it of the sheets of an answer that was written. None is told of where the answer is exact, or is no text of cells.
fn tell_answer<H: Host>(
    alloc: Global,
    host: &mut H,
    job: &Job<'_>,
    answer: &Answer<'_>,
    book: &Workbook<'_>,
) -> Result<(), Failure>
    requires { HasNumber answer.now }
    ensures { H.files host.new ≡ H.files host.old }
{
    let parts = HiddenParts::new(alloc, &job.reading.options, book.stream)?;
    if !any_hides(alloc, &parts)? {
        return Ok(());
    }
    let view = view_of(alloc, &job.reading.options, book.stream)?;
    let told = match answer {
        Answer::Sheet(choice, _, _) => told_of(alloc, &view, choice, job.takes_all_sheets())?,
        _ => Told::All,
    };
    tell_sheets(alloc, host, book.path, &parts, &view, told)?;
    Ok(())
}

/// Tells how many things of a topic are damaged, if there are any.
fn tell_damaged<H: Host>(
    alloc: Global,
    host: &mut H,
    job: &Job<'_>,
    topic: Topic,
    book: &Workbook<'_>,
) -> Result<(), Failure>
    ensures { H.files host.new ≡ H.files host.old }
{
    let count = damaged_things(alloc, topic, &job.reading.options, book.stream)?;
    if count == 0 {
        return Ok(());
    }
    let text = format!(in alloc; "damaged things that can't be told: {count}")?;
    say_of(alloc, host, book.path, text.as_str())?;
    Ok(())
}

/// Tells what an answer that was written leaves out: of cells as people read them how many can't be seen, of what stands
/// beside them how many things are damaged.
fn tell_left_out<H: Host>(
    alloc: Global,
    host: &mut H,
    job: &Job<'_>,
    answer: &Answer<'_>,
    book: &Workbook<'_>,
) -> Result<(), Failure>
    requires { HasNumber answer.now }
    ensures { H.files host.new ≡ H.files host.old }
{
    match answer {
        Answer::Lines(Listing::Dump, Form::Text | Form::Json) | Answer::Shown(_) => {
            tell_answer(alloc, host, job, answer, book)
        }
        Answer::Sheet(_, table, _) if !table.is_exact => {
            tell_answer(alloc, host, job, answer, book)
        }
        Answer::Beside(topic, _) => tell_damaged(alloc, host, job, *topic, book),
        Answer::Lines(..)
        | Answer::Exact
        | Answer::Sheet(..)
        | Answer::Check
        | Answer::Remade
        | Answer::Bytes => Ok(()),
    }
}

/// Tells what a text leaves out, unless nothing was written, or nothing is to be told. Where memory runs out, it isn't
/// told.
pub(crate) fn tell_unseen<H: Host>(
    alloc: Global,
    host: &mut H,
    job: &Job<'_>,
    answer: &Answer<'_>,
    book: &Workbook<'_>,
    is_written: bool,
)
    requires { HasNumber answer.now }
    ensures { H.files host.new ≡ H.files host.old }
{
    if is_written && !job.request.is_quiet {
        let _ = tell_left_out(alloc, host, job, answer, book);
    }
}
