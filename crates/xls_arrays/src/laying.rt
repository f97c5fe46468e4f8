//! What a stream holds, laid into arrays.

ghost use Rattle.std.specs.Prelude.{◌≡◌, IfOk, IfErr, OnOk, Some, None, map};
ghost use Rattle.std.specs.Str.{chars};
ghost use Rattle.xls_open.specs.Workbook.{name_texts};
ghost use Rattle.xls_arrays.specs.Arrays.{Arrays, empty, laid, with_name};
ghost use Rattle.xls_arrays.specs.Classed.{classed_book};
ghost use Rattle.xls_arrays.specs.Filled.{RoomsHold, KeepsRooms, Lays};
ghost use Rattle.xls_arrays.specs.Held.{IsHeld, IsPlainStream, RefusesBytes, RefusesStream};
ghost use Rattle.xls_arrays.specs.Laying.{LaysAskedFor, LaysOne, LaysView, MissesIndex, MissesSheet};

use crate::Refusal;
use crate::items::NameItem;
use crate::options::{ALL_SHEETS, ONE_SHEET, Options, limit_or, options_of};
use crate::rooms::{Rooms, lay_name_item, lay_text};
use crate::sheets::{lay_bare_sheets, lay_whole_sheet, lay_whole_sheets};
use std::alloc::{AllocError, Global};
use xls_cell_formats::CellFormats;
use xls_container::is_obfuscated;
use xls_formula::NumberStyle;
use xls_open::MAX_BYTES;
use xls_strings::XlsError;
use xls_view::View;

/// Lays a defined name and the text of its formula.
fn lay_name(rooms: &mut Rooms<'_>, name: &str, formula: &str) -> Result<(), AllocError>
    ensures same { KeepsRooms rooms.old rooms.new }
    ensures ok { OnOk result (Lays rooms.old rooms.new (λ a. with_name a (chars name.now, chars formula.now))) }
{
    let name = lay_text(rooms, name)?;
    let formula = lay_text(rooms, formula)?;
    lay_name_item(rooms, NameItem { name, formula })
}

/// Likewise of both in one.
fn lay_reported(rooms: &mut Rooms<'_>, name: &(String, String)) -> Result<(), AllocError>
    ensures same { KeepsRooms rooms.old rooms.new }
    ensures ok { OnOk result (Lays rooms.old rooms.new (λ a. with_name a (name_texts name.now))) }
{
    lay_name(rooms, name.0.as_str(), name.1.as_str())
}

/// Lays the defined names.
fn lay_names(rooms: &mut Rooms<'_>, names: &[(String, String)]) -> Result<(), AllocError>
    ensures same { KeepsRooms rooms.old rooms.new }
    ensures ok { OnOk result (Lays rooms.old rooms.new (λ a. laid with_name a (map name_texts names.now))) }
{
    for name in names {
        lay_reported(rooms, name)?;
    }
    Ok(())
}

/// Lays the sheet of an index, with its content.
fn lay_one(alloc: Global, rooms: &mut Rooms<'_>, view: &View<'_>, index: u64) -> Result<(), Refusal>
    ensures same { KeepsRooms rooms.old rooms.new }
    ensures ok { OnOk result (LaysOne (classed_book view.now) index rooms.old rooms.new) }
    ensures err { IfErr result (MissesIndex view.now.book index) }
{
    let sheets = view.sheets();
    if index >= sheets.len() as u64 {
        return Err(Refusal::NoSheet(index));
    }
    let n = index as usize;
    let formats = CellFormats::new(alloc, view)?;
    lay_whole_sheet(alloc, rooms, &formats, &sheets[n], n)?;
    Ok(())
}

/// Lays the sheets that are asked for.
fn lay_asked_for(
    alloc: Global,
    rooms: &mut Rooms<'_>,
    view: &View<'_>,
    options: &Options,
) -> Result<(), Refusal>
    ensures same { KeepsRooms rooms.old rooms.new }
    ensures ok { OnOk result (LaysAskedFor options.now (classed_book view.now) rooms.old rooms.new) }
    ensures err { IfErr result (MissesSheet options.now view.now.book) }
{
    if options.which == ALL_SHEETS {
        lay_whole_sheets(alloc, rooms, view)?;
        return Ok(());
    }
    if options.which == ONE_SHEET {
        return lay_one(alloc, rooms, view, options.sheet);
    }
    lay_bare_sheets(rooms, view)?;
    Ok(())
}

/// Lays what a view shows.
fn lay_view(
    alloc: Global,
    rooms: &mut Rooms<'_>,
    view: &View<'_>,
    options: &Options,
) -> Result<(), Refusal>
    ensures same { KeepsRooms rooms.old rooms.new }
    ensures ok { OnOk result (LaysView options.now (classed_book view.now) rooms.old rooms.new) }
    ensures err { IfErr result (MissesSheet options.now view.now.book) }
{
    lay_names(rooms, view.defined_names())?;
    lay_asked_for(alloc, rooms, view, options)
}

/// The first refusal of a stream that its bytes alone tell: records that are obfuscated, and then more bytes
/// than the limit.
pub fn refuse_bytes(stream: &[u8], options: &Options) -> Result<(), Refusal>
    ensures ok { OnOk result (IsPlainStream options.now stream.now) }
    ensures err { IfErr result (RefusesBytes options.now stream.now) }
{
    if is_obfuscated(stream) {
        return Err(Refusal::Obfuscated);
    }
    let limit = limit_or(options.max_bytes, MAX_BYTES);
    if stream.len() as u64 > limit {
        return Err(Refusal::Stream(XlsError::TooLarge { limit }));
    }
    Ok(())
}

/// Lays what a stream holds, and says whether days count from 1904.
pub(crate) fn lay_stream(
    alloc: Global,
    rooms: &mut Rooms<'_>,
    stream: &[u8],
    options: &Options,
) -> Result<bool, Refusal>
    ensures same { KeepsRooms rooms.old rooms.new }
    ensures ok { IfOk result (λ is_1904. RoomsHold rooms.old empty
        → (a : Arrays) × IsHeld options.now stream.now is_1904 a × RoomsHold rooms.new a) }
    ensures err { IfErr result (RefusesStream options.now stream.now) }
{
    refuse_bytes(stream, options)?;
    let reader = options_of(alloc, options)?;
    let view = View::new(alloc, stream, &reader, NumberStyle::Bits)?;
    lay_view(alloc, rooms, &view, options)?;
    Ok(view.has_1904_epoch())
}
