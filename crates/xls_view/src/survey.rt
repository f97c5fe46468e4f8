//! What one walk over a sheet part finds of the positions of its cells and formulas.

ghost use Rattle.std.specs.Prelude.{◌≡◌, ◌↔◌, IsTrue, ◌++◌, ◌∷◌, ◌+◌, ◌*◌, ◌≤◌, ◌^◌, [], List, Ok, None, IfSome, false, length, map};
ghost use Rattle.std.specs.List.{range_with_len};
ghost use Rattle.std.specs.Option.{option_map};
ghost use Rattle.xls_data.specs.Content.{Content};
ghost use Rattle.xls_data.specs.declared.regions.Dimensions.{Dimensions};
ghost use Rattle.xls_stream.specs.Listing.{Kept, kept_group};
ghost use Rattle.xls_stream.specs.Substreams.{is_among};
ghost use Rattle.xls_stream.specs.declared.types.TheConstants as types;
ghost use Rattle.xls_biff.specs.Cells.{CellEntry};
ghost use Rattle.xls_biff.specs.Records.LabelSst.{shared_entry};
ghost use Rattle.xls_biff.specs.Records.Rk.{rk_cell};
ghost use Rattle.xls_biff.specs.SheetTable.{CellContext, HasItems, stands_for};
ghost use Rattle.xls_biff.specs.SheetTable as table;
ghost use Rattle.xls_biff.specs.Walking.{group_of};
ghost use Rattle.xls_meaning.specs.SheetTable.{adds, kept_line};
ghost use Rattle.xls_view.specs.SheetContents.{cells_after, kept_in, regions_at, regions_of};
ghost use Rattle.xls_view.specs.Formulas.{Formula, formulas_kept};
ghost use Rattle.xls_view.specs.SheetPlacing.{IsAscent};
ghost use Rattle.xls_view.specs.Surveying.{IsCellAt, IsFound, IsPlainCell, IsSurvey, box_found, formula_listed, placed_types};
ghost use Rattle.xls_view.specs.Walking.{IsReadRecord, IsSoundPart, run_of};

use crate::ascent::Ascent;
use crate::places::run_position;
use crate::record::{run_of, single_cell};
use xls_biff::{
    Record, SheetRecord, SheetRecords, cell_position, formula_position, read_label_sst,
    read_sheet_record,
};
use xls_data::Dimensions;
use xls_open::Settings;
use xls_stream::types::{BOOL_ERR, LABEL, LABEL_SST, NUMBER, R_STRING, RK};

/// Whether the cells so far ascend strictly by position, and the smallest box that holds them.
#[derive(Clone, Copy)]
pub(crate) struct FoundCells {
    ascent: Ascent,
    /// The first row and column, and the last; the first are the greatest numbers and the last 0 where there is
    /// no cell.
    top: u32,
    left: u32,
    bottom: u32,
    right: u32,
}

impl FoundCells {
    fn none() -> FoundCells
        ensures { IsFound result [] }
    {
        FoundCells {
            ascent: Ascent::new(),
            top: u32::MAX,
            left: u32::MAX,
            bottom: 0,
            right: 0,
        }
    }

    /// Whether the cells ascend.
    pub(crate) fn ascends(self) -> bool
        ensures { IsTrue result ↔ (self.ascent.falls ≡ 0) }
    {
        self.ascent.is_strict()
    }

    /// How many they are.
    pub(crate) fn count(self) -> usize
        ensures { result ≡ self.ascent.count }
    {
        self.ascent.count()
    }

    /// The smallest box that holds them.
    pub(crate) fn bounds(self) -> Option<Dimensions>
        ensures { result ≡ box_found self }
    {
        if self.ascent.is_empty() {
            return None;
        }
        Some(Dimensions::new((self.top, self.left), (self.bottom, self.right)))
    }

    /// After a cell at a position.
    #[inline(always)]
    fn with(self, position: (u32, u32)) -> FoundCells
        ensures { (cells : List CellEntry) (v : Content) → IsFound self cells → IsFound result (cells ++ (position, v) ∷ []) }
    {
        let (row, column) = position;
        FoundCells {
            ascent: self.ascent.with(position),
            top: self.top.min(row),
            left: self.left.min(column),
            bottom: self.bottom.max(row),
            right: self.right.max(column),
        }
    }

    /// After the cells of a MulRk record's body, which are so many.
    #[inline]
    fn with_run(self, body: &[u8], count: usize, settings: &Settings<'_>) -> FoundCells
        requires sized { length body.now ≡ 6 + 6 * count }
        requires few { count ≤ 2 ^ 16 }
        ensures { (cells : List CellEntry) → IsFound self cells
            → IsFound result (cells ++ map (rk_cell settings.now.cells.classes settings.now.cells.is_1904 body.now) (range_with_len 0 count)) }
    {
        let mut found = self;
        for i in 0..count {
            found = found.with(run_position(body, i));
        }
        found
    }

    /// After the cells of a record, where the last Formula before it stands here.
    #[inline(always)]
    fn with_record(
        self,
        read: &SheetRecord<'_>,
        last: (u32, u32),
        settings: &Settings<'_>,
    ) -> FoundCells
        requires { IsReadRecord read.now }
        ensures { (cells : List CellEntry) → IsFound self cells
            → IsFound result (cells ++ (adds settings.now.formulas last (stands_for settings.now.cells read.now)).cells) }
    {
        if let Some((body, count)) = run_of(read) {
            return self.with_run(body, count, settings);
        }
        match place_of(read, last, settings) {
            Some(position) => self.with(position),
            None => self,
        }
    }
}

/// Where the cell of a LabelSst record stands, if the table has its text.
#[inline(always)]
fn shared_place(position: (u32, u32), index: u32, settings: &Settings<'_>) -> Option<(u32, u32)>
    ensures { result ≡ option_map (λ (c : CellEntry). c.0) (shared_entry settings.now.cells.strings (position, index)) }
{
    match settings.strings.get(index as usize) {
        Some(_) => Some(position),
        None => None,
    }
}

/// Where the cell of a record stands that isn't a MulRk, whatever the record.
fn other_place(
    read: &SheetRecord<'_>,
    last: (u32, u32),
    settings: &Settings<'_>,
) -> Option<(u32, u32)>
    ensures { run_of read.now ≡ None
        → IsCellAt result (adds settings.now.formulas last (stands_for settings.now.cells read.now)).cells }
{
    match single_cell(read, last, settings) {
        Some(cell) => Some(cell.position),
        None => None,
    }
}

/// Where the cell of a record that isn't a MulRk stands, if it has one, where the last Formula before it
/// stands here.
#[inline(always)]
fn place_of(read: &SheetRecord<'_>, last: (u32, u32), settings: &Settings<'_>) -> Option<(u32, u32)>
    ensures { run_of read.now ≡ None
        → IsCellAt result (adds settings.now.formulas last (stands_for settings.now.cells read.now)).cells }
{
    match read {
        SheetRecord::Number(cell) => Some(cell.position),
        SheetRecord::Rk(cell) => Some(cell.position),
        SheetRecord::BoolErr { position, .. } => Some(*position),
        SheetRecord::Label { position, .. } => Some(*position),
        SheetRecord::LabelSst { position, index } => shared_place(*position, *index, settings),
        _ => other_place(read, last, settings),
    }
}

/// One more record, to find whether the formulas of the records ascend.
#[inline(always)]
fn add_formula(found: &mut Ascent, read: &SheetRecord<'_>)
    ensures { (s : CellContext) (k : Kept) (formulas : List Formula) → kept_line s k ≡ Ok (stands_for s read.now)
        → IsAscent found.old (map (λ (f : Formula). f.0) formulas)
        → IsAscent found.new (map (λ (f : Formula). f.0) (formulas ++ formula_listed k)) }
{
    if let Some(position) = read.formula_position() {
        found.add(position);
    }
}

/// How many MergeCells records there are with one more record.
#[inline(always)]
fn merges_with(merges: usize, read: &SheetRecord<'_>) -> usize
    ensures { (k : Kept) (regions : List Dimensions) → HasItems k.typ k.body read.now → (merges ≡ 0 → regions ≡ [])
        → result ≡ 0 → regions ++ regions_at k ≡ [] }
{
    match read {
        SheetRecord::MergeCells { .. } => merges.saturating_add(1),
        _ => merges,
    }
}

/// What was found of the records of a part so far: of their cells, whether their formulas ascend strictly
/// by position, and how many MergeCells records there are (at most so many as a `usize` tells).
#[derive(Clone, Copy)]
pub(crate) struct Survey {
    cells: FoundCells,
    formulas: Ascent,
    merges: usize,
}

impl Survey {
    pub(crate) fn cells(self) -> FoundCells
        ensures { result ≡ self.cells }
    {
        self.cells
    }

    pub(crate) fn formulas(self) -> Ascent
        ensures { result ≡ self.formulas }
    {
        self.formulas
    }

    pub(crate) fn has_merges(self) -> bool
        ensures { result ≡ false → self.merges ≡ 0 }
    {
        self.merges > 0
    }
}

/// Where the cell of a LabelSst record's body stands, if the table has its text.
#[inline(always)]
fn label_place(body: &[u8], settings: &Settings<'_>) -> Option<(u32, u32)>
    ensures { IfSome result (IsPlainCell settings.now.cells (record { typ = types.LABEL_SST; body = body.now })) }
{
    match read_label_sst(body) {
        Ok((position, index)) => shared_place(position, index, settings),
        Err(_) => None,
    }
}

/// Whether records of this type begin with the position of their one cell.
#[inline(always)]
fn is_placed_type(typ: u16) -> bool
    ensures { result ≡ is_among typ placed_types }
{
    matches!(typ, NUMBER | RK | BOOL_ERR | LABEL | R_STRING)
}

/// Where the one cell of a record stands that begins with its position, of the types that sheets have most of: these
/// needn't be read whole for that.
#[inline(always)]
fn first_place(r: &Record<'_>, settings: &Settings<'_>) -> Option<(u32, u32)>
    ensures { IfSome result (IsPlainCell settings.now.cells (kept_group (group_of r.now))) }
{
    if is_placed_type(r.typ) {
        return cell_position(r.body);
    }
    if r.typ == LABEL_SST {
        return label_place(r.body, settings);
    }
    None
}

/// What was found so far but for the formulas, which are rarer and stay in memory, so that this passes in registers:
/// of the cells, and how many MergeCells records there are.
#[derive(Clone, Copy)]
struct Passed {
    cells: FoundCells,
    merges: usize,
}

/// After a record without a fault, where the last Formula before it stands here.
#[inline(always)]
fn pass(
    passed: Passed,
    formulas: &mut Ascent,
    r: &Record<'_>,
    last: (u32, u32),
    settings: &Settings<'_>,
) -> Passed
    ensures { (es : List CellEntry) (fs : List Formula) (rs : List Dimensions) (g : table.SheetRecord)
        → kept_line settings.now.cells (kept_group (group_of r.now)) ≡ Ok g
        → IsSurvey (record { cells = passed.cells; formulas = formulas.old; merges = passed.merges }) es fs rs
        → IsSurvey (record { cells = result.cells; formulas = formulas.new; merges = result.merges })
        (es ++ (adds settings.now.formulas last g).cells)
        (fs ++ formula_listed (kept_group (group_of r.now))) (rs ++ regions_at (kept_group (group_of r.now))) }
{
    let Passed { cells, merges } = passed;
    if let Some(position) = first_place(r, settings) {
        let cells = cells.with(position);
        return Passed { cells, merges };
    }
    let read = match read_sheet_record(r, settings.version) {
        Ok(read) => read,
        Err(_) => return passed,
    };
    add_formula(formulas, &read);
    let cells = cells.with_record(&read, last, settings);
    let merges = merges_with(merges, &read);
    Passed { cells, merges }
}

fn surveyed(passed: Passed, formulas: Ascent) -> Survey
    ensures { result ≡ record { cells = passed.cells; formulas = formulas; merges = passed.merges } }
{
    let Passed { cells, merges } = passed;
    Survey {
        cells,
        formulas,
        merges,
    }
}

/// What is found of the records of a part. Takes no memory.
pub(crate) fn survey_of(part: &[u8], settings: &Settings<'_>) -> Survey
    requires { IsSoundPart settings.now (part.now, 0) }
    ensures { IsSurvey result (cells_after settings.now (0, 0) (kept_in part.now 0))
        (formulas_kept (kept_in part.now 0)) (regions_of (kept_in part.now 0)) }
{
    let cells = FoundCells::none();
    let mut passed = Passed { cells, merges: 0 };
    let mut formulas = Ascent::new();
    let mut last = (0, 0);
    for item in SheetRecords::new(part) {
        let record = match item {
            Ok(record) => record,
            Err(_) => return surveyed(passed, formulas),
        };
        passed = pass(passed, &mut formulas, &record, last, settings);
        last = formula_position(&record).unwrap_or(last);
    }
    surveyed(passed, formulas)
}
