//! Cells on the sheet of a reference: PtgRef3d, PtgArea3d, PtgRefErr3d, PtgAreaErr3d.

ghost use Rattle.std.specs.Prelude.{◌≡◌, ◌≤◌, length, IfOk};
ghost use Rattle.xls_record.specs.Reading.{Exactly};
ghost use Rattle.xls_ptg.specs.Readings.{as_read};
ghost use Rattle.xls_ptg.specs.References3d.{area3d_at, area3d_first, area3d_last, area3d_size, area_err3d_at, ixti_at, ixti_size, ref3d_at, ref3d_corner, ref3d_size, ref_err3d_at};

use crate::corner::Corner;
use crate::fields::{is_biff8, short, word_at};
use crate::tokens::Ptg;
use xls_biff::{Biff, Part, XlsError};

/// The index of the reference (ixti).
pub fn ixti(rest: &[u8], biff: Biff) -> u16
    requires { ixti_size biff ≤ length rest.now }
    ensures { result ≡ ixti_at biff rest.now }
{
    if is_biff8(biff) {
        word_at(rest, 0)
    } else {
        word_at(rest, 10)
    }
}

/// How many bytes a PtgRef3d has.
pub fn ref3d_size(biff: Biff) -> usize
    ensures { result ≡ ref3d_size biff }
{
    if is_biff8(biff) { 6 } else { 17 }
}

/// How many bytes a PtgArea3d has.
pub fn area3d_size(biff: Biff) -> usize
    ensures { result ≡ area3d_size biff }
{
    if is_biff8(biff) { 10 } else { 20 }
}

/// The cell of a PtgRef3d.
pub fn ref3d_corner(rest: &[u8], biff: Biff) -> Corner
    requires { ref3d_size biff ≤ length rest.now }
    ensures { result ≡ ref3d_corner biff rest.now }
{
    if is_biff8(biff) {
        Corner::from_words(word_at(rest, 2), word_at(rest, 4))
    } else {
        Corner::from_early(word_at(rest, 14), rest[16])
    }
}

/// The first and the last cell of a PtgArea3d, which are printed with `$`.
pub fn area3d_corners(rest: &[u8], biff: Biff) -> (Corner, Corner)
    requires { area3d_size biff ≤ length rest.now }
    ensures { result ≡ (area3d_first biff rest.now, area3d_last biff rest.now) }
{
    if is_biff8(biff) {
        let first = Corner::from_words(word_at(rest, 2), word_at(rest, 6));
        let last = Corner::from_words(word_at(rest, 4), word_at(rest, 8));
        (first.pinned(), last.pinned())
    } else {
        let first = Corner::from_early(word_at(rest, 14), rest[18]);
        let last = Corner::from_early(word_at(rest, 16), rest[19]);
        (first.pinned(), last.pinned())
    }
}

/// 3A (PtgRef3d).
pub(crate) fn read_ref3d(rest: &[u8], biff: Biff) -> Result<(Ptg<&[u8]>, usize), XlsError>
    ensures exact { Exactly as_read result (ref3d_at biff rest.now) }
    ensures within { IfOk result (λ x. x.1 ≤ length rest.now) }
{
    let size = ref3d_size(biff);
    if rest.len() < size {
        return Err(short(size, rest.len(), Part::Ptg));
    }
    let ixti = ixti(rest, biff);
    let corner = ref3d_corner(rest, biff);
    Ok((Ptg::Ref3d { ixti, corner }, size))
}

/// 3B (PtgArea3d).
pub(crate) fn read_area3d(rest: &[u8], biff: Biff) -> Result<(Ptg<&[u8]>, usize), XlsError>
    ensures exact { Exactly as_read result (area3d_at biff rest.now) }
    ensures within { IfOk result (λ x. x.1 ≤ length rest.now) }
{
    let size = area3d_size(biff);
    if rest.len() < size {
        return Err(short(size, rest.len(), Part::Ptg));
    }
    let ixti = ixti(rest, biff);
    let (first, last) = area3d_corners(rest, biff);
    Ok((Ptg::Area3d { ixti, first, last }, size))
}

/// 3C (PtgRefErr3d).
pub(crate) fn read_ref_err3d(rest: &[u8], biff: Biff) -> Result<(Ptg<&[u8]>, usize), XlsError>
    ensures exact { Exactly as_read result (ref_err3d_at biff rest.now) }
    ensures within { IfOk result (λ x. x.1 ≤ length rest.now) }
{
    let size = ref3d_size(biff);
    if rest.len() < size {
        return Err(short(size, rest.len(), Part::Ptg));
    }
    let ixti = ixti(rest, biff);
    Ok((Ptg::RefErr3d { ixti }, size))
}

/// 3D (PtgAreaErr3d).
pub(crate) fn read_area_err3d(rest: &[u8], biff: Biff) -> Result<(Ptg<&[u8]>, usize), XlsError>
    ensures exact { Exactly as_read result (area_err3d_at biff rest.now) }
    ensures within { IfOk result (λ x. x.1 ≤ length rest.now) }
{
    let size = area3d_size(biff);
    if rest.len() < size {
        return Err(short(size, rest.len(), Part::Ptg));
    }
    let ixti = ixti(rest, biff);
    Ok((Ptg::AreaErr3d { ixti }, size))
}
