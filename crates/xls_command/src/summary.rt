//! What is written of a made stream.

ghost use Rattle.std.specs.Prelude.{◌≡◌, ◌≤◌, IfOk};
ghost use Rattle.xls_data.specs.Data.{content_of, is_nothing};
ghost use Rattle.xls_command.specs.Sample.{IsSampleRange, int_of};
ghost use Rattle.xls_output.specs.Gathering.{Delivers};
ghost use Rattle.xls_command.specs.Summary.{counts_text};
ghost use Rattle.xls_command.specs.Words.{max_rows};
ghost use Rattle.xls_command.specs.Counting.{IsCountSummary, Measures};

use crate::sample::sample_bytes;
use std::alloc::{AllocError, Global};
use xls_book::{Reader, SteadySource, Xls};
use xls_data::{CellType, Data};
use xls_lines::{Buffer, Field, put_line};
use xls_output::{Sink, Stop, Writer};
use xls_range::Range;

/// The height of a range, how many of its cells are used, and the sum of its whole numbers.
#[derive(Clone, Copy, Debug, PartialEq, Eq)]
pub struct Summary {
    rows: u64,
    cells: u64,
    sum: u64,
}

/// The whole number that a cell holds, and 0 for any other.
fn int_in(cell: &Data) -> i64
    ensures { result ≡ int_of (content_of cell.now) }
{
    match cell {
        Data::Int(n) => *n,
        _ => 0,
    }
}

/// How many cells of a range are used, and the sum of their whole numbers.
fn measured(range: &Range<Data>) -> (u64, i128)
    ensures { Measures range.now result }
{
    let mut cells = 0;
    let mut sum = 0;
    for (_, _, cell) in range.cells() {
        if !cell.is_blank() {
            cells += 1;
            sum += i128::from(int_in(cell));
        }
    }
    (cells, sum)
}

/// What the range of a made stream holds.
fn summary_in(range: &Range<Data>, rows: u32) -> Summary
    requires sample { IsSampleRange is_nothing rows range.now }
    requires most { rows ≤ max_rows }
    ensures { IsCountSummary rows result }
{
    let (cells, sum) = measured(range);
    Summary {
        rows: range.height() as u64,
        cells,
        sum: sum as u64,
    }
}

/// Makes a stream of so many rows, opens it, and takes the range of its sheet.
pub fn summary_of(alloc: Global, rows: u32) -> Result<Summary, AllocError>
    requires least { 1 ≤ rows }
    requires most { rows ≤ max_rows }
    ensures { IfOk result (IsCountSummary rows) }
{
    let mut source = SteadySource::new(sample_bytes(alloc, rows)?);
    // A made stream has no fault, and a steady source doesn't fail: only memory may run out.
    let Ok(book) = Xls::new(alloc, &mut source) else {
        return Err(AllocError);
    };
    let Ok(range) = book.worksheet_range(alloc, "G") else {
        return Err(AllocError);
    };
    Ok(summary_in(&range, rows))
}

/// Writes the three lines of a summary.
pub fn write_summary<K: Sink>(alloc: Global, sink: &mut K, summary: Summary) -> Result<(), Stop>
    ensures { Delivers (K.state sink.old) (K.state sink.new)
        (counts_text summary.rows summary.cells summary.sum) result }
{
    let mut buffer = Buffer::new(alloc);
    let mut out = Writer::new(&mut buffer, sink);
    put_line(&mut out, "rows", &[Field::Number(summary.rows)])?;
    put_line(&mut out, "cells", &[Field::Number(summary.cells)])?;
    put_line(&mut out, "sum", &[Field::Number(summary.sum)])?;
    out.finish()?;
    Ok(())
}
