//! The reader of workbooks for C: one export for each call of `xls_arrays` and of `xls_beside_arrays`, with its clauses
//! again. The file `include/gaflwened.h` tells each to a caller in C.
#![tactic(auto)]

ghost use Rattle.std.specs.Prelude.{◌≡◌};
ghost use Rattle.xls_arrays.specs.Answers.{IsSerialText, Measures, PutsStream, PutsText, Reads, ReadsShown};
ghost use Rattle.xls_arrays.specs.Telling.{sentence};
ghost use Rattle.xls_arrays.specs.Values.{is_set};
ghost use Rattle.xls_beside_arrays.specs.Books.{FillsBooks};
ghost use Rattle.xls_beside_arrays.specs.CellStyles.{FillsCellStyles};
ghost use Rattle.xls_beside_arrays.specs.Comments.{FillsComments};
ghost use Rattle.xls_beside_arrays.specs.Hidden.{FillsRuns};
ghost use Rattle.xls_beside_arrays.specs.Links.{FillsLinks};
ghost use Rattle.xls_beside_arrays.specs.Outside.{FillsOutside};
ghost use Rattle.xls_beside_arrays.specs.Styles.{FillsStyles};

use std::alloc::Global;
use xls_arrays::{
    CellItem, Fault, FormulaItem, NameItem, Options, RegionItem, SheetItem, Sizes, fault_text,
    measure, read, read_shown, serial, stream,
};
use xls_beside_arrays::{
    BookItem, CellStyleItem, CommentItem, Counts, DamageItem, HiddenRunItem, LinkItem, OutsideItem,
    StyleItem, read_books, read_cell_styles, read_comments, read_hidden_runs, read_links,
    read_outside, read_styles,
};

/// The version of the interface.
const VERSION: u32 = 1;

/// The version of the interface, 1. Takes no memory.
#[unsafe(no_mangle)]
pub extern "C" fn gaflwened_version() -> u32
    ensures { result ≡ 1 }
{
    VERSION
}

/// Puts the workbook's stream of a file into `out`, and its length into `size`: the stream `Workbook`, or else
/// `Book`, of a compound file, or the whole of a file that is such a stream. Where `out` is too short, it is as it
/// was. Of a file without a workbook `size` is 0, and the fault is its first.
#[unsafe(no_mangle)]
pub extern "C" fn gaflwened_stream(
    alloc: Global,
    file: &[u8],
    out: &mut [u8],
    size: &mut u64,
    fault: &mut Fault,
) -> u32
    ensures { PutsStream file.now out.old out.new size.new fault.new result }
{
    stream(alloc, file, out, size, fault)
}

/// Counts what a stream holds, or the sheets of it that the options ask for: how long the arrays of
/// `gaflwened_read` must be. Where a call isn't done, it answers the code of its fault, and `sizes` is all 0.
#[unsafe(no_mangle)]
pub extern "C" fn gaflwened_measure(
    alloc: Global,
    stream: &[u8],
    options: &Options,
    sizes: &mut Sizes,
    fault: &mut Fault,
) -> u32
    ensures { Measures options.now stream.now sizes.new fault.new result }
{
    measure(alloc, stream, options, sizes, fault)
}

/// Fills the arrays with what a stream holds, or with the sheets of it that the options ask for, and puts into
/// `sizes` what `gaflwened_measure` says. The arrays must be as long as that; what is longer begins with it. Where
/// one is too short, `sizes` says how long they must be; where a call isn't done for another cause, `sizes` is all
/// 0. It answers the code of its fault then, and nothing is known of the arrays.
#[unsafe(no_mangle)]
pub extern "C" fn gaflwened_read(
    alloc: Global,
    stream: &[u8],
    options: &Options,
    sheets: &mut [SheetItem],
    names: &mut [NameItem],
    cells: &mut [CellItem],
    formulas: &mut [FormulaItem],
    regions: &mut [RegionItem],
    texts: &mut [u8],
    sizes: &mut Sizes,
    fault: &mut Fault,
) -> u32
    ensures { Reads options.now stream.now
        (record {
          sheets = sheets.new;
          names = names.new;
          cells = cells.new;
          formulas = formulas.new;
          regions = regions.new;
          texts = texts.new;
        }) sizes.new fault.new result }
{
    read(
        alloc, stream, options, sheets, names, cells, formulas, regions, texts, sizes, fault,
    )
}

/// Fills arrays with what Excel shows of the cells of one sheet, that at `sheet` of the options, whatever their `which`
/// is: each cell of `gaflwened_read` for that sheet, in the same order, as a text of `texts`. `sizes` says how long the
/// two arrays must be, and the others are 0; a call with two empty arrays counts. Where one is too short, and where a
/// call isn't done for another cause, it answers as `gaflwened_read` does.
#[unsafe(no_mangle)]
pub extern "C" fn gaflwened_shown(
    alloc: Global,
    stream: &[u8],
    options: &Options,
    cells: &mut [CellItem],
    texts: &mut [u8],
    sizes: &mut Sizes,
    fault: &mut Fault,
) -> u32
    ensures { ReadsShown options.now stream.now cells.new texts.new sizes.new fault.new result }
{
    read_shown(alloc, stream, options, cells, texts, sizes, fault)
}

/// Puts the sentence of a fault into `out`, and its length into `size`. Answers 0, 1 where memory ran out, `size`
/// being 0, or 2 where `out` is too short and is as it was.
#[unsafe(no_mangle)]
pub extern "C" fn gaflwened_fault_text(
    alloc: Global,
    fault: &Fault,
    out: &mut [u8],
    size: &mut u64,
) -> u32
    ensures { PutsText (λ text. text ≡ sentence fault.now) out.old out.new size.new result }
{
    fault_text(alloc, fault, out, size)
}

/// Puts the text of a number of days, a double by its bits, into `out`, and its length into `size`: as a date and
/// time, or as a duration where `is_duration` isn't 0. Answers 0, 1 where memory ran out, `size` being 0, or 2
/// where `out` is too short and is as it was.
#[unsafe(no_mangle)]
pub extern "C" fn gaflwened_serial(
    alloc: Global,
    bits: u64,
    is_1904: u32,
    is_duration: u32,
    out: &mut [u8],
    size: &mut u64,
) -> u32
    ensures { PutsText (IsSerialText bits (is_set is_1904) (is_set is_duration)) out.old out.new size.new result }
{
    serial(alloc, bits, is_1904, is_duration, out, size)
}

/// Fills arrays with the runs of rows and of columns that can't be seen in one sheet, that at `sheet` of the options, whatever
/// their `which` is, and with the damaged records that would say so. `counts` says how long the arrays must be; a call with
/// empty arrays counts. Where one is too short, and where a call isn't done for another cause, it answers the code of its
/// fault, and nothing is known of the arrays; for another cause `counts` is all 0.
#[unsafe(no_mangle)]
pub extern "C" fn gaflwened_hidden(
    alloc: Global,
    stream: &[u8],
    options: &Options,
    runs: &mut [HiddenRunItem],
    damages: &mut [DamageItem],
    texts: &mut [u8],
    counts: &mut Counts,
    fault: &mut Fault,
) -> u32
    ensures { FillsRuns options.now stream.now
        (record { items = runs.new; damages = damages.new; texts = texts.new }) counts.new fault.new result }
{
    read_hidden_runs(alloc, stream, options, runs, damages, texts, counts, fault)
}

/// Fills arrays with the style of each XF of a workbook, in the order of the stream, and with its damaged Font and XF
/// records. `counts` and the answer are as of `gaflwened_hidden`; no sheet is asked for.
#[unsafe(no_mangle)]
pub extern "C" fn gaflwened_styles(
    alloc: Global,
    stream: &[u8],
    options: &Options,
    styles: &mut [StyleItem],
    damages: &mut [DamageItem],
    texts: &mut [u8],
    counts: &mut Counts,
    fault: &mut Fault,
) -> u32
    ensures { FillsStyles options.now stream.now
        (record { items = styles.new; damages = damages.new; texts = texts.new }) counts.new fault.new result }
{
    read_styles(
        alloc, stream, options, styles, damages, texts, counts, fault,
    )
}

/// Fills an array with the style of each cell of one sheet that has a record, by row and column: the index in the array of
/// `gaflwened_styles`. The sheet, `counts` and the answer are as of `gaflwened_hidden`.
#[unsafe(no_mangle)]
pub extern "C" fn gaflwened_style_of(
    alloc: Global,
    stream: &[u8],
    options: &Options,
    cells: &mut [CellStyleItem],
    counts: &mut Counts,
    fault: &mut Fault,
) -> u32
    ensures { FillsCellStyles options.now stream.now cells.new counts.new fault.new result }
{
    read_cell_styles(alloc, stream, options, cells, counts, fault)
}

/// Fills arrays with the comments of one sheet, and with its damaged Notes, in the order of the stream. The sheet, `counts`
/// and the answer are as of `gaflwened_hidden`.
#[unsafe(no_mangle)]
pub extern "C" fn gaflwened_comments(
    alloc: Global,
    stream: &[u8],
    options: &Options,
    comments: &mut [CommentItem],
    damages: &mut [DamageItem],
    texts: &mut [u8],
    counts: &mut Counts,
    fault: &mut Fault,
) -> u32
    ensures { FillsComments options.now stream.now
        (record { items = comments.new; damages = damages.new; texts = texts.new }) counts.new fault.new result }
{
    read_comments(
        alloc, stream, options, comments, damages, texts, counts, fault,
    )
}

/// Fills arrays with the links of one sheet, and with its damaged HLinks, in the order of the stream. The sheet, `counts` and
/// the answer are as of `gaflwened_hidden`.
#[unsafe(no_mangle)]
pub extern "C" fn gaflwened_links(
    alloc: Global,
    stream: &[u8],
    options: &Options,
    links: &mut [LinkItem],
    damages: &mut [DamageItem],
    texts: &mut [u8],
    counts: &mut Counts,
    fault: &mut Fault,
) -> u32
    ensures { FillsLinks options.now stream.now
        (record { items = links.new; damages = damages.new; texts = texts.new }) counts.new fault.new result }
{
    read_links(alloc, stream, options, links, damages, texts, counts, fault)
}

/// Fills arrays with the other workbooks, programs and added functions that a workbook refers to, in the order of the stream,
/// behind each its sheets and then its names, and with the damaged records that would say so. `counts` and the answer are as
/// of `gaflwened_hidden`; no sheet is asked for.
#[unsafe(no_mangle)]
pub extern "C" fn gaflwened_books(
    alloc: Global,
    stream: &[u8],
    options: &Options,
    books: &mut [BookItem],
    damages: &mut [DamageItem],
    texts: &mut [u8],
    counts: &mut Counts,
    fault: &mut Fault,
) -> u32
    ensures { FillsBooks options.now stream.now
        (record { items = books.new; damages = damages.new; texts = texts.new }) counts.new fault.new result }
{
    read_books(alloc, stream, options, books, damages, texts, counts, fault)
}

/// Fills arrays with what the formulas of one sheet cite of other workbooks and programs, in the order of the stream, of one
/// formula from left to right and each once. The sheet, `counts` and the answer are as of `gaflwened_hidden`.
#[unsafe(no_mangle)]
pub extern "C" fn gaflwened_outside_of(
    alloc: Global,
    stream: &[u8],
    options: &Options,
    outside: &mut [OutsideItem],
    texts: &mut [u8],
    counts: &mut Counts,
    fault: &mut Fault,
) -> u32
    ensures { FillsOutside options.now stream.now outside.new texts.new counts.new fault.new result }
{
    read_outside(alloc, stream, options, outside, texts, counts, fault)
}
