//! The first fault of the sheets, one after the other.

ghost use Rattle.std.specs.Prelude.{◌≡◌};
ghost use Rattle.xls_record.specs.Reading.{Exactly};
ghost use Rattle.xls_stream.specs.Listing.{IsPart, IsSheetPart};
ghost use Rattle.xls_open.specs.Steps.{weight_left};
ghost use Rattle.xls_meaning.specs.Settings.{Settings};
ghost use Rattle.xls_open.specs.CheckSteps.{under, AreChecked, ChecksPart, ChecksPlaces};

use crate::check::CheckRules;
use xls_biff::{Biff, Part, RecordIter, SheetRecords, XlsError, read_sheet_record};
use xls_bytes::read_usize;
use xls_stream::types::{BOUND_SHEET_8, EOF};

/// How many more cells a sheet may have after a record of this weight, where it may have so many before
/// it and that many in all.
fn room_after(room: u64, weight: u64, max_cells: u64) -> Result<u64, XlsError>
    ensures { Exactly (λ left. left) result (weight_left max_cells room weight) }
{
    match room.checked_sub(weight) {
        Some(left) => Ok(left),
        None => Err(XlsError::TooManyCells { limit: max_cells }),
    }
}

/// The first fault of a part, whatever else than the version is in force.
fn check_part(part: &[u8], biff: Biff, rules: CheckRules) -> Result<(), XlsError>
    ensures { (s : Settings) → s.cells.version ≡ biff
        → ChecksPart (IsPart part.now) (under rules) s result }
{
    let mut room = rules.max_cells;
    for record in SheetRecords::new(part) {
        let record = record?;
        let read = read_sheet_record(&record, biff)?;
        room = room_after(room, read.weight(), rules.max_cells)?;
    }
    Ok(())
}

/// The first fault of the sheet part at an offset of the stream; an offset past its end is one.
fn check_sheet(stream: &[u8], offset: usize, biff: Biff, rules: CheckRules) -> Result<(), XlsError>
    ensures { (s : Settings) → s.cells.version ≡ biff
        → ChecksPart (IsSheetPart stream.now offset) (under rules) s result }
{
    if stream.len() < offset {
        return Err(XlsError::EoStream(Part::SheetOffset));
    }
    let (_, part) = stream.split_at(offset);
    check_part(part, biff, rules)
}

/// The first fault of the sheets of a stream whose globals have none, in the order of the BoundSheet8
/// records, under the version in force at the end of the globals.
pub(crate) fn check_sheets(stream: &[u8], biff: Biff, rules: CheckRules) -> Result<(), XlsError>
    requires { AreChecked (under rules) stream.now biff }
    ensures { ChecksPlaces (under rules) stream.now result }
{
    for record in RecordIter::new(stream) {
        let record = record?;
        if record.typ == EOF {
            return Ok(());
        }
        if record.typ == BOUND_SHEET_8 {
            check_sheet(stream, read_usize(record.body), biff, rules)?;
        }
    }
    Ok(())
}
