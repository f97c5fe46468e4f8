//! Names and cells by reference: 39 to 3D.

ghost use Rattle.std.specs.Prelude.{◌≡◌, ◌≤◌, length, IfOk};
ghost use Rattle.xls_ptg.specs.NameTokens.{name_x_size};
ghost use Rattle.xls_shown_ptg.specs.Reading.{Exactly, as_shown};
ghost use Rattle.xls_shown_ptg.specs.Rows.{area3d_at, err3d_at, link_size, name_link_at, name_x_at, ref3d_at, sheets_at};

use crate::areas::{cell_at, corners_at};
use crate::fault::Fault;
use crate::fields::short;
use crate::tokens::{NameLink, SheetLink, ShownPtg};
use xls_bytes::{read_i16, read_u32};
use xls_ptg::{area3d_size, ref3d_size, word_at};
use xls_record::{Biff, is_biff8};

/// How many bytes a PtgNameX has.
fn name_x_size(biff: Biff) -> usize
    ensures { result ≡ name_x_size biff }
{
    if is_biff8(biff) { 6 } else { 24 }
}

fn name_link_at(rest: &[u8], biff: Biff) -> NameLink
    requires { name_x_size biff ≤ length rest.now }
    ensures { result ≡ name_link_at biff rest.now }
{
    if is_biff8(biff) {
        let (_, index) = rest.split_at(2);
        NameLink::Xti {
            ixti: word_at(rest, 0),
            index: read_u32(index),
        }
    } else {
        NameLink::Early {
            record: read_i16(rest),
            index: word_at(rest, 10),
        }
    }
}

/// 39 (PtgNameX).
pub(crate) fn read_name_x(rest: &[u8], biff: Biff) -> Result<(ShownPtg<&[u8]>, usize), Fault>
    ensures exact { Exactly as_shown result (name_x_at biff rest.now) }
    ensures within { IfOk result (λ x. x.1 ≤ length rest.now) }
{
    let size = name_x_size(biff);
    if rest.len() < size {
        return Err(short(size, rest.len()));
    }
    Ok((ShownPtg::NameX(name_link_at(rest, biff)), size))
}

/// How many bytes stand before the cells of a reference to sheets.
fn link_size(biff: Biff) -> usize
    ensures { result ≡ link_size biff }
{
    if is_biff8(biff) { 2 } else { 14 }
}

fn sheets_at(rest: &[u8], biff: Biff) -> SheetLink
    requires { link_size biff ≤ length rest.now }
    ensures { result ≡ sheets_at biff rest.now }
{
    if is_biff8(biff) {
        SheetLink::Xti(word_at(rest, 0))
    } else {
        SheetLink::Early {
            record: read_i16(rest),
            first: word_at(rest, 10),
            last: word_at(rest, 12),
        }
    }
}

/// 3A (PtgRef3d).
pub(crate) fn read_ref3d(rest: &[u8], biff: Biff) -> Result<(ShownPtg<&[u8]>, usize), Fault>
    ensures exact { Exactly as_shown result (ref3d_at biff rest.now) }
    ensures within { IfOk result (λ x. x.1 ≤ length rest.now) }
{
    let size = ref3d_size(biff);
    if rest.len() < size {
        return Err(short(size, rest.len()));
    }
    let sheets = sheets_at(rest, biff);
    let (_, cell) = rest.split_at(link_size(biff));
    let corner = cell_at(cell, biff);
    Ok((ShownPtg::Ref3d { sheets, corner }, size))
}

/// 3B (PtgArea3d).
pub(crate) fn read_area3d(rest: &[u8], biff: Biff) -> Result<(ShownPtg<&[u8]>, usize), Fault>
    ensures exact { Exactly as_shown result (area3d_at biff rest.now) }
    ensures within { IfOk result (λ x. x.1 ≤ length rest.now) }
{
    let size = area3d_size(biff);
    if rest.len() < size {
        return Err(short(size, rest.len()));
    }
    let sheets = sheets_at(rest, biff);
    let (_, area) = rest.split_at(link_size(biff));
    let (first, last) = corners_at(area, biff);
    let token = ShownPtg::Area3d {
        sheets,
        first,
        last,
    };
    Ok((token, size))
}

/// 3C (PtgRefErr3d) and 3D (PtgAreaErr3d), of so many bytes.
pub(crate) fn read_err3d(
    rest: &[u8],
    size: usize,
    biff: Biff,
) -> Result<(ShownPtg<&[u8]>, usize), Fault>
    requires { link_size biff ≤ size }
    ensures exact { Exactly as_shown result (err3d_at biff size rest.now) }
    ensures within { IfOk result (λ x. x.1 ≤ length rest.now) }
{
    if rest.len() < size {
        return Err(short(size, rest.len()));
    }
    Ok((ShownPtg::Err3d(sheets_at(rest, biff)), size))
}
