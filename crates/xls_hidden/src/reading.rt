//! What the records of a sheet's own say together, read once.

ghost use Rattle.std.specs.Prelude.{◌≡◌, [], IfOk, List, map};
ghost use Rattle.xls_hidden.specs.States as states;
ghost use Rattle.xls_hidden.specs.Said.{row_count, said_of};
ghost use Rattle.xls_hidden.specs.Reading.{Goes, IsRead, MarksLines};

use crate::fields::Mark;
use crate::said::{Said, row_count, said_of};
use crate::types::COLUMNS;
use crate::window::WindowSoFar;
use std::alloc::{AllocError, Global};
use xls_parts::PartRecords;
use xls_record::Biff;

/// What is known of a sheet while its records are read.
#[derive(Drop)]
pub(crate) struct Reading {
    pub(crate) rows: Vec<Mark>,
    pub(crate) columns: Vec<Mark>,
    pub(crate) hides_others: bool,
    pub(crate) is_filtered: bool,
    pub(crate) window: WindowSoFar,
}

fn mark_rows(marks: &mut Vec<Mark>, said: Said)
    ensures { MarksLines states.row_after marks.old.items said marks.new.items }
{
    if let Said::Row(row) = said {
        let line = row.row as usize;
        if line < marks.len() {
            marks[line] = row.mark;
        }
    }
}

fn mark_columns(marks: &mut Vec<Mark>, said: Said)
    ensures { MarksLines states.column_after marks.old.items said marks.new.items }
{
    if let Said::Columns(columns) = said {
        let end = (columns.last as usize + 1).min(marks.len());
        let first = (columns.first as usize).min(end);
        'lines: for line in first..end {
            marks[line] = columns.mark;
        }
    }
}

fn hides_after(before: bool, said: Said) -> bool
    ensures { result ≡ states.hides_after before said }
{
    match said {
        Said::OtherRows(hides) => hides,
        _ => before,
    }
}

fn filters_after(before: bool, said: Said) -> bool
    ensures { result ≡ states.filters_after before said }
{
    match said {
        Said::Filter => true,
        _ => before,
    }
}

impl Reading {
    /// Before the first record.
    fn new(alloc: Global, version: Biff) -> Result<Reading, AllocError>
        ensures { IfOk result (λ reading. (all : List Said) → IsRead version all all reading) }
    {
        Ok(Reading {
            rows: vec![in alloc; Mark::Unsaid; row_count(version) as usize]?,
            columns: vec![in alloc; Mark::Unsaid; COLUMNS as usize]?,
            hides_others: false,
            is_filtered: false,
            window: WindowSoFar::Before,
        })
    }

    /// After one more record.
    fn take(&mut self, said: Said)
        ensures { Goes self.old said self.new }
    {
        mark_rows(&mut self.rows, said);
        mark_columns(&mut self.columns, said);
        self.hides_others = hides_after(self.hides_others, said);
        self.is_filtered = filters_after(self.is_filtered, said);
        self.window = self.window.after(said);
    }
}

/// What all records say together.
pub(crate) fn read_records(
    alloc: Global,
    records: PartRecords<'_>,
    version: Biff,
) -> Result<Reading, AllocError>
    ensures { IfOk result (IsRead version (map (said_of version) records.entry) []) }
{
    let mut reading = Reading::new(alloc, version)?;
    'records: for r in records {
        reading.take(said_of(version, &r));
    }
    Ok(reading)
}
