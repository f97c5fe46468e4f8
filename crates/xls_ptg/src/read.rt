//! One token by its first byte.

ghost use Rattle.std.specs.Prelude.{◌≡◌, ◌≤◌, ◌<◌, length, IfOk};
ghost use Rattle.xls_record.specs.Reading.{Exactly};
ghost use Rattle.xls_ptg.specs.Readings.{as_read};
ghost use Rattle.xls_ptg.specs.Tokens.{basic_by, by_3d, classed_by, ptg_at};

use crate::attributes::read_attr;
use crate::constants::{read_array, read_bool, read_err, read_int, read_num};
use crate::control::{read_elf, read_exp};
use crate::fields::unknown;
use crate::functions::{read_func, read_func_var};
use crate::named::{read_name, read_name_x};
use crate::operators::operator_of;
use crate::references::{read_area, read_area_err, read_ref, read_ref_err};
use crate::references3d::{read_area_err3d, read_area3d, read_ref_err3d, read_ref3d};
use crate::strings::read_str;
use crate::tokens::Ptg;
use xls_biff::{Biff, Part, XlsError};

/// A basic token, below 20.
fn read_basic(ptg: u8, rest: &[u8], biff: Biff) -> Result<(Ptg<&[u8]>, usize), XlsError>
    ensures exact { Exactly as_read result (basic_by biff ptg rest.now) }
    ensures within { IfOk result (λ x. x.1 ≤ length rest.now) }
{
    match ptg {
        0x01 => read_exp(rest),
        0x03..=0x11 => Ok((Ptg::Binary(operator_of(ptg)), 0)),
        0x12 => Ok((Ptg::Uplus, 0)),
        0x13 => Ok((Ptg::Uminus, 0)),
        0x14 => Ok((Ptg::Percent, 0)),
        0x15 => Ok((Ptg::Paren, 0)),
        0x16 => Ok((Ptg::MissArg, 0)),
        0x17 => read_str(rest, biff),
        0x18 => read_elf(rest),
        0x19 => read_attr(rest),
        0x1C => read_err(rest),
        0x1D => read_bool(rest),
        0x1E => read_int(rest),
        0x1F => read_num(rest),
        _ => Err(unknown(Part::Ptg, ptg)),
    }
}

/// A token of another workbook or of another sheet, by its low five bits. PtgNameX is none in class 60.
fn read_3d(ptg: u8, rest: &[u8], biff: Biff) -> Result<(Ptg<&[u8]>, usize), XlsError>
    ensures exact { Exactly as_read result (by_3d biff ptg rest.now) }
    ensures within { IfOk result (λ x. x.1 ≤ length rest.now) }
{
    match ptg % 0x20 {
        0x19 if ptg < 0x60 => read_name_x(rest, biff),
        0x1A => read_ref3d(rest, biff),
        0x1B => read_area3d(rest, biff),
        0x1C => read_ref_err3d(rest, biff),
        0x1D => read_area_err3d(rest, biff),
        _ => Err(unknown(Part::Ptg, ptg)),
    }
}

/// A classed token, from 20 to 7F, by its low five bits: the class (20, 40 or 60) isn't told.
fn read_classed(ptg: u8, rest: &[u8], biff: Biff) -> Result<(Ptg<&[u8]>, usize), XlsError>
    ensures exact { Exactly as_read result (classed_by biff ptg rest.now) }
    ensures within { IfOk result (λ x. x.1 ≤ length rest.now) }
{
    match ptg % 0x20 {
        0x00 => read_array(rest),
        0x01 => read_func(rest),
        0x02 => read_func_var(rest),
        0x03 => read_name(rest, biff),
        0x04 => read_ref(rest, biff),
        0x05 => read_area(rest, biff),
        0x0A => read_ref_err(rest, biff),
        0x0B => read_area_err(rest, biff),
        _ => read_3d(ptg, rest, biff),
    }
}

/// The first token, and how many bytes of it stand after its first. `Len`, `Unrecognized` and `Etpg`
/// exactly where its bytes or a code table refuse it.
pub fn read_ptg(bytes: &[u8], biff: Biff) -> Result<(Ptg<&[u8]>, usize), XlsError>
    requires { 0 < length bytes.now }
    ensures exact { Exactly as_read result (ptg_at biff bytes.now) }
    ensures within { IfOk result (λ x. x.1 < length bytes.now) }
{
    let (head, rest) = bytes.split_at(1);
    let ptg = head[0];
    if ptg < 0x20 {
        read_basic(ptg, rest, biff)
    } else if ptg < 0x80 {
        read_classed(ptg, rest, biff)
    } else {
        Err(unknown(Part::Ptg, ptg))
    }
}
