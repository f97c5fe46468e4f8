//! The values of constant arrays, [MS-XLS] PtgExtraArray, in the extra bytes of a formula.

ghost use Rattle.std.specs.Prelude.{◌≡◌, ◌<◌, ◌≤◌, ◌+◌, length, IfOk};
ghost use Rattle.xls_ptg.specs.Constants.{err_of};
ghost use Rattle.xls_shown_ptg.specs.Reading.{Exactly, lifted};
ghost use Rattle.xls_shown_ptg.specs.Arrays.{as_ser, as_size, bool_at, early_str, eight, err_at, later_str, nil_at, num_at, ser_at};
ghost use Rattle.xls_shown_ptg.specs.Arrays.{ser_by, ser_str_at, size_at, size_by};

use crate::fault::Fault;
use std::alloc::AllocError;
use xls_biff::error_of_code;
use xls_bytes::read_bits;
use xls_data::CellErrorType;
use xls_ptg::word_at;
use xls_record::{Biff, Part, XlsError, is_biff8};
use xls_strings::size_of_uncounted;

/// A value of a constant array (SerAr). `S` is what holds the units of a string: a slice in code, the list of the bytes
/// in definitions.
#[derive(Copy)]
pub enum SerAr<S> {
    /// 00: nothing.
    Nil,
    /// 01: the bits of a double.
    Num(u64),
    /// 02: the bytes of the units, how many units they are (cch), and whether each has two bytes (fHighByte). Before
    /// BIFF8 bytes in the page.
    Str {
        units: S,
        cch: u16,
        high_byte: Option<bool>,
    },
    /// 04.
    Bool(bool),
    /// 10.
    Err(CellErrorType),
}

impl<S: Copy> Clone for SerAr<S> {
    fn clone(&self) -> Result<Self, AllocError>
        ensures { IfOk result (λ copy. copy ≡ self.now) }
    {
        Ok(*self)
    }
}

/// How many columns and rows a constant array has.
#[derive(Clone, Copy, Debug, PartialEq, Eq)]
pub struct ArraySize {
    pub columns: u16,
    pub rows: u32,
}

fn short(expected: usize, found: usize) -> Fault
    ensures { result ≡ Fault.ExtraArray expected found }
{
    Fault::ExtraArray { expected, found }
}

// The eight bytes of a value, and what stands behind them.
fn split_eight(rest: &[u8]) -> Result<(&[u8], &[u8]), Fault>
    ensures exact { Exactly (λ x. (x.0.now, x.1.now)) result (eight rest.now) }
    ensures whole { IfOk result (λ x. length x.0.now ≡ 8) }
    ensures within { IfOk result (λ x. length x.1.now ≤ length rest.now) }
{
    if rest.len() < 8 {
        return Err(short(8, rest.len()));
    }
    Ok(rest.split_at(8))
}

/// 00 (SerNil).
fn read_nil(rest: &[u8]) -> Result<(SerAr<&[u8]>, &[u8]), Fault>
    ensures exact { Exactly as_ser result (nil_at rest.now) }
    ensures within { IfOk result (λ x. length x.1.now ≤ length rest.now) }
{
    let (_, left) = split_eight(rest)?;
    Ok((SerAr::Nil, left))
}

/// 01 (SerNum).
fn read_num(rest: &[u8]) -> Result<(SerAr<&[u8]>, &[u8]), Fault>
    ensures exact { Exactly as_ser result (num_at rest.now) }
    ensures within { IfOk result (λ x. length x.1.now ≤ length rest.now) }
{
    let (bytes, left) = split_eight(rest)?;
    Ok((SerAr::Num(read_bits(bytes)), left))
}

/// 04 (SerBool).
fn read_bool(rest: &[u8]) -> Result<(SerAr<&[u8]>, &[u8]), Fault>
    ensures exact { Exactly as_ser result (bool_at rest.now) }
    ensures within { IfOk result (λ x. length x.1.now ≤ length rest.now) }
{
    let (bytes, left) = split_eight(rest)?;
    Ok((SerAr::Bool(bytes[0] != 0), left))
}

// The error value of a code; of none the part is named BErr.
fn err_of(code: u8) -> Result<CellErrorType, Fault>
    ensures { Exactly (λ e. e) result (lifted (λ e. e) (err_of code)) }
{
    match error_of_code(code) {
        Ok(error) => Ok(error),
        Err(_) => Err(Fault::Xls(XlsError::Unrecognized {
            typ: Part::BErr,
            val: code,
        })),
    }
}

/// 10 (SerErr).
fn read_err(rest: &[u8]) -> Result<(SerAr<&[u8]>, &[u8]), Fault>
    ensures exact { Exactly as_ser result (err_at rest.now) }
    ensures within { IfOk result (λ x. length x.1.now ≤ length rest.now) }
{
    let (bytes, left) = split_eight(rest)?;
    let error = err_of(bytes[0])?;
    Ok((SerAr::Err(error), left))
}

/// The string before BIFF8: a count, and bytes in the page.
fn read_early_str(rest: &[u8], cch: u8) -> Result<(SerAr<&[u8]>, &[u8]), Fault>
    requires { 1 ≤ length rest.now }
    ensures exact { Exactly as_ser result (early_str cch rest.now) }
    ensures within { IfOk result (λ x. length x.1.now ≤ length rest.now) }
{
    let size = usize::from(cch);
    if rest.len() < 1 + size {
        return Err(short(1 + size, rest.len()));
    }
    let (_, bytes) = rest.split_at(1);
    let (units, left) = bytes.split_at(size);
    let string = SerAr::Str {
        units,
        cch: u16::from(cch),
        high_byte: None,
    };
    Ok((string, left))
}

/// A string without a count (XLUnicodeStringNoCch) of so many units.
fn read_later_str(cch: u16, bytes: &[u8]) -> Result<(SerAr<&[u8]>, &[u8]), Fault>
    ensures exact { Exactly as_ser result (later_str cch bytes.now) }
    ensures within { IfOk result (λ x. length x.1.now ≤ length bytes.now) }
{
    let size = size_of_uncounted(bytes, cch)?;
    let (string, left) = bytes.split_at(size);
    let (_, units) = string.split_at(1);
    let string = SerAr::Str {
        units,
        cch,
        high_byte: Some(bytes[0] % 2 == 1),
    };
    Ok((string, left))
}

/// 02 (SerStr).
fn read_str(rest: &[u8], biff: Biff) -> Result<(SerAr<&[u8]>, &[u8]), Fault>
    ensures exact { Exactly as_ser result (ser_str_at biff rest.now) }
    ensures within { IfOk result (λ x. length x.1.now ≤ length rest.now) }
{
    if !is_biff8(biff) {
        if rest.len() < 1 {
            return Err(short(1, rest.len()));
        }
        return read_early_str(rest, rest[0]);
    }
    if rest.len() < 3 {
        return Err(short(3, rest.len()));
    }
    let (_, string) = rest.split_at(2);
    read_later_str(word_at(rest, 0), string)
}

fn read_by(kind: u8, rest: &[u8], biff: Biff) -> Result<(SerAr<&[u8]>, &[u8]), Fault>
    ensures exact { Exactly as_ser result (ser_by biff kind rest.now) }
    ensures within { IfOk result (λ x. length x.1.now ≤ length rest.now) }
{
    match kind {
        0x00 => read_nil(rest),
        0x01 => read_num(rest),
        0x02 => read_str(rest, biff),
        0x04 => read_bool(rest),
        0x10 => read_err(rest),
        _ => Err(Fault::SerAr(kind)),
    }
}

/// The value of a constant array that extra bytes begin with (SerAr), and what stands behind it. `ExtraArray` for bytes
/// that end inside it, `SerAr` for a kind that none has, and what refuses a string without a count and an error value.
pub fn read_ser_ar(bytes: &[u8], biff: Biff) -> Result<(SerAr<&[u8]>, &[u8]), Fault>
    ensures exact { Exactly as_ser result (ser_at biff bytes.now) }
    ensures shorter { IfOk result (λ x. length x.1.now < length bytes.now) }
{
    if bytes.len() < 1 {
        return Err(short(1, bytes.len()));
    }
    let (head, rest) = bytes.split_at(1);
    read_by(head[0], rest, biff)
}

fn size_by(columns: u8, rows: u16, biff: Biff) -> ArraySize
    ensures { result ≡ size_by biff columns rows }
{
    if is_biff8(biff) {
        return ArraySize {
            columns: u16::from(columns) + 1,
            rows: u32::from(rows) + 1,
        };
    }
    ArraySize {
        columns: if columns == 0 {
            256
        } else {
            u16::from(columns)
        },
        rows: u32::from(rows),
    }
}

/// The size of the constant array that extra bytes begin with (PtgExtraArray), and what stands behind it: its values,
/// row by row. `ExtraArray` for fewer than three bytes.
pub fn read_array_size(extra: &[u8], biff: Biff) -> Result<(ArraySize, &[u8]), Fault>
    ensures exact { Exactly as_size result (size_at biff extra.now) }
    ensures columns { IfOk result (λ x. (0 < x.0.columns) × (x.0.columns ≤ 256)) }
    ensures rows { IfOk result (λ x. x.0.rows ≤ 65536) }
{
    if extra.len() < 3 {
        return Err(short(3, extra.len()));
    }
    let (_, left) = extra.split_at(3);
    Ok((size_by(extra[0], word_at(extra, 1), biff), left))
}
