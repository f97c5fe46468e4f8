//! What a stream holds, counted and put into the arrays of a caller.

ghost use Rattle.std.specs.Prelude.{◌≡◌, IfErr, IfOk, MatchResult, OnOk};
ghost use Rattle.xls_arrays.specs.Answers.{AreFilled, AreLaid, AreSizes, IsAnswer, Measures, Reads, ReadsShown, RefusesToFill};
ghost use Rattle.xls_arrays.specs.Arrays.{empty};
ghost use Rattle.xls_arrays.specs.Filled.{RoomsHold, KeepsRooms, in_rooms};
ghost use Rattle.xls_arrays.specs.Held.{IsHeld, RefusesStream};
ghost use Rattle.xls_arrays.specs.Shown.{IsShownHeld};
ghost use Rattle.xls_arrays.specs.Values.{truth_bit};

use crate::items::{CellItem, FormulaItem, NameItem, RegionItem, SheetItem, Sizes};
use crate::laying::lay_stream;
use crate::options::{ONE_SHEET, Options};
use crate::rooms::{NOTHING, Rooms, fits};
use crate::shown::lay_shown;
use crate::{Fault, Refusal, fault_of, plain};
use std::alloc::Global;

/// Puts the numbers of a refusal into `fault`, and gives its code; all 0 where what was asked for was done.
pub fn answer(done: Result<(), Refusal>, fault: &mut Fault) -> u32
    ensures { IsAnswer done fault.new result }
{
    *fault = match done {
        Ok(()) => plain(0),
        Err(refusal) => fault_of(&refusal),
    };
    fault.code
}

/// A truth value as 0 or 1.
fn truth_bit(truth: bool) -> u32
    ensures { result ≡ truth_bit truth }
{
    truth as u32
}

/// Lays what a stream holds, and says how long the arrays are for it.
fn lay_all(
    alloc: Global,
    rooms: &mut Rooms<'_>,
    stream: &[u8],
    options: &Options,
) -> Result<Sizes, Refusal>
    requires none { RoomsHold rooms.old empty }
    requires reserved { rooms.old.laid.reserved ≡ 0 }
    ensures same { KeepsRooms rooms.old rooms.new }
    ensures ok { IfOk result (AreLaid IsHeld options.now stream.now rooms.new) }
    ensures err { IfErr result (RefusesStream options.now stream.now) }
{
    let is_1904 = lay_stream(alloc, rooms, stream, options)?;
    let mut sizes = rooms.laid;
    sizes.is_1904 = truth_bit(is_1904);
    Ok(sizes)
}

/// How long the arrays are for what a stream holds.
fn sizes_of(alloc: Global, stream: &[u8], options: &Options) -> Result<Sizes, Refusal>
    ensures ok { IfOk result (AreSizes options.now stream.now) }
    ensures err { IfErr result (RefusesStream options.now stream.now) }
{
    let mut rooms = Rooms {
        sheets: &mut [],
        names: &mut [],
        cells: &mut [],
        formulas: &mut [],
        regions: &mut [],
        texts: &mut [],
        laid: NOTHING,
    };
    lay_all(alloc, &mut rooms, stream, options)
}

/// Counts what a stream holds, or the sheets of it that the options ask for: how long the arrays of `read` must
/// be. Where a call isn't done, it answers the code of its fault, and `sizes` is all 0.
pub fn measure(
    alloc: Global,
    stream: &[u8],
    options: &Options,
    sizes: &mut Sizes,
    fault: &mut Fault,
) -> u32
    ensures { Measures options.now stream.now sizes.new fault.new result }
{
    match sizes_of(alloc, stream, options) {
        Ok(found) => {
            *sizes = found;
            answer(Ok(()), fault)
        }
        Err(refusal) => {
            *sizes = NOTHING;
            answer(Err(refusal), fault)
        }
    }
}

/// Fills the arrays with what a stream holds, and says how long they are for it.
fn fill(
    alloc: Global,
    stream: &[u8],
    options: &Options,
    rooms: &mut Rooms<'_>,
    sizes: &mut Sizes,
) -> Result<(), Refusal>
    requires none { RoomsHold rooms.old empty }
    requires reserved { rooms.old.laid.reserved ≡ 0 }
    ensures same { KeepsRooms rooms.old rooms.new }
    ensures ok { OnOk result (AreFilled IsHeld options.now stream.now (in_rooms rooms.new) sizes.new) }
    ensures err { IfErr result (RefusesToFill IsHeld options.now stream.now (in_rooms rooms.new) sizes.new) }
{
    *sizes = NOTHING;
    *sizes = lay_all(alloc, rooms, stream, options)?;
    if !fits(rooms) {
        return Err(Refusal::TooShort);
    }
    Ok(())
}

/// Fills the arrays with what a stream holds, or with the sheets of it that the options ask for, and puts into
/// `sizes` what `measure` says. The arrays must be as long as that; what is longer begins with it. Where one is
/// too short, `sizes` says how long they must be; where a call isn't done for another cause, `sizes` is all 0. It
/// answers the code of its fault then, and nothing is known of the arrays.
pub fn read(
    alloc: Global,
    stream: &[u8],
    options: &Options,
    sheets: &mut [SheetItem],
    names: &mut [NameItem],
    cells: &mut [CellItem],
    formulas: &mut [FormulaItem],
    regions: &mut [RegionItem],
    texts: &mut [u8],
    sizes: &mut Sizes,
    fault: &mut Fault,
) -> u32
    ensures { Reads options.now stream.now
        (record {
          sheets = sheets.new;
          names = names.new;
          cells = cells.new;
          formulas = formulas.new;
          regions = regions.new;
          texts = texts.new;
        }) sizes.new fault.new result }
{
    let mut rooms = Rooms {
        sheets,
        names,
        cells,
        formulas,
        regions,
        texts,
        laid: NOTHING,
    };
    let done = fill(alloc, stream, options, &mut rooms, sizes);
    answer(done, fault)
}

/// Lays what is shown of the cells of the sheet that is asked for, and says how long the arrays are for it.
fn lay_all_shown(
    alloc: Global,
    rooms: &mut Rooms<'_>,
    stream: &[u8],
    options: &Options,
) -> Result<Sizes, Refusal>
    requires none { RoomsHold rooms.old empty }
    requires reserved { rooms.old.laid.reserved ≡ 0 }
    requires one { options.now.which ≡ 1 }
    ensures same { KeepsRooms rooms.old rooms.new }
    ensures ok { IfOk result (AreLaid IsShownHeld options.now stream.now rooms.new) }
    ensures err { IfErr result (RefusesStream options.now stream.now) }
{
    let is_1904 = lay_shown(alloc, rooms, stream, options)?;
    let mut sizes = rooms.laid;
    sizes.is_1904 = truth_bit(is_1904);
    Ok(sizes)
}

/// Fills the arrays with it, and says how long they are for it.
fn fill_shown(
    alloc: Global,
    stream: &[u8],
    options: &Options,
    rooms: &mut Rooms<'_>,
    sizes: &mut Sizes,
) -> Result<(), Refusal>
    requires none { RoomsHold rooms.old empty }
    requires reserved { rooms.old.laid.reserved ≡ 0 }
    requires one { options.now.which ≡ 1 }
    ensures same { KeepsRooms rooms.old rooms.new }
    ensures ok { OnOk result (AreFilled IsShownHeld options.now stream.now (in_rooms rooms.new) sizes.new) }
    ensures err { IfErr result (RefusesToFill IsShownHeld options.now stream.now (in_rooms rooms.new) sizes.new) }
{
    *sizes = NOTHING;
    *sizes = lay_all_shown(alloc, rooms, stream, options)?;
    if fits(rooms) {
        return Ok(());
    }
    Err(Refusal::TooShort)
}

/// Fills arrays with what Excel shows of the cells of one sheet, that at `sheet` of the options, whatever their `which`
/// is: each cell of `read` for that sheet, in the same order, as a text of `texts`. `sizes` says how long the two arrays
/// must be, and the others are 0; a call with two empty arrays counts. Where one is too short, and where a call isn't
/// done for another cause, it answers as `read` does.
pub fn read_shown(
    alloc: Global,
    stream: &[u8],
    options: &Options,
    cells: &mut [CellItem],
    texts: &mut [u8],
    sizes: &mut Sizes,
    fault: &mut Fault,
) -> u32
    ensures { ReadsShown options.now stream.now cells.new texts.new sizes.new fault.new result }
{
    let one = Options {
        which: ONE_SHEET,
        ..*options
    };
    let mut rooms = Rooms {
        sheets: &mut [],
        names: &mut [],
        cells,
        formulas: &mut [],
        regions: &mut [],
        texts,
        laid: NOTHING,
    };
    let done = fill_shown(alloc, stream, &one, &mut rooms, sizes);
    answer(done, fault)
}
