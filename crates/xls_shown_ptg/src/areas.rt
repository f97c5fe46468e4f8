//! Cells and areas, relative or not: 25, 2C and 2D.

ghost use Rattle.std.specs.Prelude.{◌≡◌, ◌≤◌, length, IfOk};
ghost use Rattle.xls_ptg.specs.References.{ref_size, area_size};
ghost use Rattle.xls_shown_ptg.specs.Reading.{Exactly, as_shown};
ghost use Rattle.xls_shown_ptg.specs.Rows.{area_at, area_n_at, cell_at, first_at, last_at, ref_n_at};

use crate::fault::Fault;
use crate::fields::{corner_of, early_corner_of, short};
use crate::tokens::ShownPtg;
use xls_ptg::{Corner, Ptg, word_at};
use xls_record::{Biff, is_biff8};

/// How many bytes a cell has.
pub(crate) fn ref_size(biff: Biff) -> usize
    ensures { result ≡ ref_size biff }
{
    if is_biff8(biff) { 4 } else { 3 }
}

/// How many bytes an area has.
pub(crate) fn area_size(biff: Biff) -> usize
    ensures { result ≡ area_size biff }
{
    if is_biff8(biff) { 8 } else { 6 }
}

/// A cell: a row and a column word, or before BIFF8 a row word and a column.
pub(crate) fn cell_at(bytes: &[u8], biff: Biff) -> Corner
    requires { ref_size biff ≤ length bytes.now }
    ensures { result ≡ cell_at biff bytes.now }
{
    if is_biff8(biff) {
        corner_of(word_at(bytes, 0), word_at(bytes, 2))
    } else {
        early_corner_of(word_at(bytes, 0), bytes[2])
    }
}

/// The first and the last cell of an area: two rows, two columns.
pub(crate) fn corners_at(bytes: &[u8], biff: Biff) -> (Corner, Corner)
    requires { area_size biff ≤ length bytes.now }
    ensures { result ≡ (first_at biff bytes.now, last_at biff bytes.now) }
{
    if is_biff8(biff) {
        let first = corner_of(word_at(bytes, 0), word_at(bytes, 4));
        (first, corner_of(word_at(bytes, 2), word_at(bytes, 6)))
    } else {
        let first = early_corner_of(word_at(bytes, 0), bytes[4]);
        (first, early_corner_of(word_at(bytes, 2), bytes[5]))
    }
}

/// 25 (PtgArea).
pub(crate) fn read_area(rest: &[u8], biff: Biff) -> Result<(ShownPtg<&[u8]>, usize), Fault>
    ensures exact { Exactly as_shown result (area_at biff rest.now) }
    ensures within { IfOk result (λ x. x.1 ≤ length rest.now) }
{
    let size = area_size(biff);
    if rest.len() < size {
        return Err(short(size, rest.len()));
    }
    let (first, last) = corners_at(rest, biff);
    Ok((ShownPtg::Known(Ptg::Area { first, last }), size))
}

/// 2C (PtgRefN).
pub(crate) fn read_ref_n(rest: &[u8], biff: Biff) -> Result<(ShownPtg<&[u8]>, usize), Fault>
    ensures exact { Exactly as_shown result (ref_n_at biff rest.now) }
    ensures within { IfOk result (λ x. x.1 ≤ length rest.now) }
{
    let size = ref_size(biff);
    if rest.len() < size {
        return Err(short(size, rest.len()));
    }
    Ok((ShownPtg::RefN(cell_at(rest, biff)), size))
}

/// 2D (PtgAreaN).
pub(crate) fn read_area_n(rest: &[u8], biff: Biff) -> Result<(ShownPtg<&[u8]>, usize), Fault>
    ensures exact { Exactly as_shown result (area_n_at biff rest.now) }
    ensures within { IfOk result (λ x. x.1 ≤ length rest.now) }
{
    let size = area_size(biff);
    if rest.len() < size {
        return Err(short(size, rest.len()));
    }
    let (first, last) = corners_at(rest, biff);
    Ok((ShownPtg::AreaN { first, last }, size))
}
