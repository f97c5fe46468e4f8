//! RK and MulRk.

ghost use Rattle.std.specs.Prelude.{◌≡◌, ◌+◌, ◌*◌, ◌<◌, ◌≤◌, ◌^◌, Bool, List, Ok, IsErr, length, map, OnOk, IfOk};
ghost use Rattle.std.specs.List.{range_with_len};
ghost use Rattle.std.specs.Option.{option_copied};
ghost use Rattle.xls_data.specs.Numeric.{numeric_content};
ghost use Rattle.xls_dates.specs.declared.formats.CellFormat.{CellFormat};
ghost use Rattle.xls_record.specs.Reading.{Adds, Appends, Exactly, IsLonger};
ghost use Rattle.xls_biff.specs.Cells.{CellEntry, cell_entry_of, numeric_entry};
ghost use Rattle.xls_biff.specs.Records.Rk.{hundredths_content, mul_rk_at, mul_rk_count, rk_at, rk_bits, rk_cell, rk_content, rk_entry, rk_whole};

use crate::cells::{class_of, position_of};
use crate::fields::{u16_at, u32_at};
use std::alloc::AllocError;
use xls_bytes::read_u16;
use xls_data::{Cell, CellFormat, Data, Number, Numeric};
use xls_strings::{Part, XlsError, need};

/// Bits 2 to 31 as a signed number.
fn whole_of_rk(rk: u32) -> i64
    ensures { result ≡ rk_whole rk }
{
    let top = rk / 4;
    if top < 0x2000_0000 {
        i64::from(top)
    } else {
        i64::from(top) - 0x4000_0000
    }
}

/// The double whose top 30 bits are bits 2 to 31.
fn bits_of_rk(rk: u32) -> u64
    ensures { result ≡ rk_bits rk }
{
    u64::from(rk / 4) * 0x4_0000_0000
}

/// The value of a whole number over 100.
#[inline]
fn hundredths(n: i64, class: Option<&CellFormat>, is_1904: bool) -> Numeric
    ensures { numeric_content result ≡ hundredths_content (option_copied class.entry) n is_1904 }
{
    if n.unsigned_abs() % 100 == 0 {
        Numeric::of_i64(n / 100, class, is_1904)
    } else {
        Numeric::of_number(Number::Hundredths(n), class, is_1904)
    }
}

/// The value of an RK number.
#[tactic(auto, unfolding(crate::specs::Records::Rk::rk_content))]
#[inline]
fn value_of_rk(rk: u32, class: Option<&CellFormat>, is_1904: bool) -> Numeric
    ensures { numeric_content result ≡ rk_content (option_copied class.entry) rk is_1904 }
{
    let is_hundredths = rk % 2 == 1;
    if rk / 2 % 2 == 1 {
        let whole = whole_of_rk(rk);
        if is_hundredths {
            hundredths(whole, class, is_1904)
        } else {
            Numeric::of_i64(whole, class, is_1904)
        }
    } else {
        let bits = bits_of_rk(rk);
        let number = if is_hundredths {
            Number::BitsOver100(bits)
        } else {
            Number::Bits(bits)
        };
        Numeric::of_number(number, class, is_1904)
    }
}

/// An RK record: where it stands, its XF index, and its RK number, which is a whole number or the top of
/// a double, and over 100 where its lowest bit is set.
#[derive(Clone, Copy)]
pub struct RkCell {
    pub position: (u32, u32),
    pub xf: u16,
    pub rk: u32,
}

impl RkCell {
    /// Its value. The class is that of the XF index, and `Other` where `formats` ends before it. Takes no
    /// memory.
    #[inline(always)]
    pub fn value(&self, formats: &[CellFormat], is_1904: bool) -> Numeric
        ensures { (self.now.position, numeric_content result) ≡ rk_entry formats.now is_1904 self.now }
    {
        value_of_rk(self.rk, class_of(formats, self.xf), is_1904)
    }
}

/// What an RK record's body holds: row, column, XF index and an RK number. `Len` for fewer than 10 bytes.
/// Takes no memory.
#[inline(always)]
pub fn read_rk(r: &[u8]) -> Result<RkCell, XlsError>
    ensures { (formats : List CellFormat) (is_1904 : Bool) →
        Exactly (rk_entry formats is_1904) result (rk_at formats is_1904 r.now) }
{
    need(r, 10, Part::Rk)?;
    Ok(RkCell {
        position: position_of(r),
        xf: u16_at(r, 4),
        rk: u32_at(r, 6),
    })
}

/// The cell of an RK record's body, as `read_rk` reads it. Takes no memory.
#[inline]
pub fn parse_rk(r: &[u8], formats: &[CellFormat], is_1904: bool) -> Result<Cell<Data>, XlsError>
    ensures { Exactly cell_entry_of result (rk_at formats.now is_1904 r.now) }
{
    let cell = read_rk(r)?;
    let value = cell.value(formats, is_1904);
    Ok(Cell::new(cell.position, value.into_data()))
}

fn short(expected: usize, found: usize) -> XlsError
    ensures { result ≡ XlsError.Len expected found Part.Rk }
{
    XlsError::Len {
        expected,
        found,
        typ: Part::Rk,
    }
}

/// How many cells a MulRk record's body has, at most 65,536: from its first column to its last. `Len`
/// for fewer than 6 bytes, with 65,536 expected where the last column is before the first, and for
/// another length than that of so many cells. Takes no memory.
pub fn count_mul_rk(r: &[u8]) -> Result<usize, XlsError>
    ensures exact { Exactly (λ n. n) result (mul_rk_count r.now) }
    ensures sized { IfOk result (λ n. (length r.now ≡ 6 + 6 * n) × (n ≤ 2 ^ 16)) }
{
    need(r, 6, Part::Rk)?;
    let first = usize::from(u16_at(r, 2));
    let last = usize::from(u16_at(r, r.len() - 2));
    if last < first {
        return Err(short(0x1_0000, r.len()));
    }
    let count = last - first + 1;
    if r.len() != 6 + 6 * count {
        return Err(short(6 + 6 * count, r.len()));
    }
    Ok(count)
}

/// Where a cell of a MulRk record's body stands, and its value, by its number, counted from 0, which is
/// below `count_mul_rk`: in the record's row, so many columns after its first one. The class is that of
/// the cell's XF index, and `Other` where `formats` ends before it. Takes no memory.
#[inline(always)]
pub fn read_mul_rk(
    r: &[u8],
    i: usize,
    formats: &[CellFormat],
    is_1904: bool,
) -> ((u32, u32), Numeric)
    requires room { 10 + 6 * i ≤ length r.now }
    requires within { i < 2 ^ 16 }
    ensures { numeric_entry result ≡ rk_cell formats.now is_1904 r.now i }
{
    let class = class_of(formats, u16_at(r, 4 + 6 * i));
    let value = value_of_rk(u32_at(r, 6 + 6 * i), class, is_1904);
    let column = u32::from(u16_at(r, 2)) + i as u32;
    ((u32::from(read_u16(r)), column), value)
}

/// The cell of a MulRk record's body by its number, as `read_mul_rk` reads it. Takes no memory.
#[inline]
pub fn cell_of_mul_rk(r: &[u8], i: usize, formats: &[CellFormat], is_1904: bool) -> Cell<Data>
    requires room { 10 + 6 * i ≤ length r.now }
    requires within { i < 2 ^ 16 }
    ensures { cell_entry_of result ≡ rk_cell formats.now is_1904 r.now i }
{
    let (position, value) = read_mul_rk(r, i, formats, is_1904);
    Cell::new(position, value.into_data())
}

/// Appends so many cells; an error may leave some.
fn push_mul_rk(
    r: &[u8],
    count: usize,
    cells: &mut Vec<Cell<Data>>,
    formats: &[CellFormat],
    is_1904: bool,
) -> Result<(), AllocError>
    requires sized { length r.now ≡ 6 + 6 * count }
    requires few { count ≤ 2 ^ 16 }
    ensures ok { OnOk result (Adds cell_entry_of cells.old.items cells.new.items
        (map (rk_cell formats.now is_1904 r.now) (range_with_len 0 count))) }
    ensures grown { IsLonger cells.old.items cells.new.items }
{
    for i in 0..count {
        cells.push(cell_of_mul_rk(r, i, formats, is_1904))?;
    }
    Ok(())
}

/// Appends the cells of a MulRk record's body: a row, a first column, an XF index and an RK number for
/// each cell, and the last column in the last two bytes. `Len` as `count_mul_rk` says. After a refusal,
/// out of memory too, `cells` is as it was.
pub fn parse_mul_rk(
    r: &[u8],
    cells: &mut Vec<Cell<Data>>,
    formats: &[CellFormat],
    is_1904: bool,
) -> Result<(), XlsError>
    ensures { Appends cell_entry_of cells.old.items result cells.new.items (mul_rk_at formats.now is_1904 r.now) }
{
    let count = count_mul_rk(r)?;
    let before = cells.len();
    let done = push_mul_rk(r, count, cells, formats, is_1904);
    if done.is_err() {
        cells.truncate(before);
    }
    Ok(done?)
}

/// How many cells `parse_mul_rk` appends, and 0 where it refuses. Takes no memory.
pub(crate) fn weight_of_mul_rk(r: &[u8]) -> u64
    ensures cells { (formats : List CellFormat) (is_1904 : Bool) (cells : List CellEntry) →
        mul_rk_at formats is_1904 r.now ≡ Ok cells → result ≡ length cells }
    ensures faulty { IsErr (mul_rk_count r.now) → result ≡ 0 }
{
    match count_mul_rk(r) {
        Ok(count) => count as u64,
        Err(_) => 0,
    }
}
