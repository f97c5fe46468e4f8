//! Constant arrays.

ghost use Rattle.std.specs.Prelude.{◌≡◌, ◌<◌, ◌≤◌, ◌*◌, [], ◌++◌, OnOk, OnErr, IfOk, codes};
ghost use Rattle.std.specs.Str.{chars};
ghost use Rattle.std.specs.String.{string_bytes};
ghost use Rattle.xls_bytes.specs.Growth.{IsGrown};
ghost use Rattle.xls_strings.specs.Texts.{text_of};
ghost use Rattle.xls_shown_ptg.specs.Arrays.{ser_of, sers_at};
ghost use Rattle.xls_shown_ptg.specs.Reading.{gives};
ghost use Rattle.xls_formula_leaves.specs.Answers.{Appends};
ghost use Rattle.xls_formula_leaves.specs.Constants.{array_text_at, separator, ser_text, values_text};

use crate::appends::append_text;
use crate::strings::append_string;
use crate::words::{append_number, bool_text, error_text};
use std::alloc::{AllocError, Global};
use xls_record::Biff;
use xls_shown_ptg::{ArraySize, Fault, SerAr, read_array_size, read_ser_ar};
use xls_text::XlsEncoding;

// Before the value of an index: `,` in a row, `;` between rows.
#[tactic(auto, unfolding(std::specs::Prelude::chars))]
fn separator(columns: u16, i: u32) -> &'static str
    requires { 0 < columns }
    ensures { chars result.now ≡ separator columns i }
{
    if i == 0 {
        ""
    } else if i % u32::from(columns) == 0 {
        ";"
    } else {
        ","
    }
}

fn append_ser(
    alloc: Global,
    page: XlsEncoding,
    value: SerAr<&[u8]>,
    out: &mut String,
) -> Result<(), AllocError>
    ensures ok { OnOk result (text_of out.new ≡ text_of out.old ++ ser_text page (ser_of value.entry)) }
    ensures grown { IsGrown (string_bytes out.old) (string_bytes out.new) }
{
    match value {
        SerAr::Nil => Ok(()),
        SerAr::Num(bits) => append_number(bits, out),
        SerAr::Str {
            units,
            cch,
            high_byte,
        } => append_string(alloc, page, high_byte, units, cch, out),
        SerAr::Bool(truth) => append_text(bool_text(truth), out),
        SerAr::Err(error) => append_text(error_text(error), out),
    }
}

// Appends the value of an index, and what stands before it.
fn append_value(
    alloc: Global,
    page: XlsEncoding,
    columns: u16,
    i: u32,
    value: SerAr<&[u8]>,
    out: &mut String,
) -> Result<(), AllocError>
    requires { 0 < columns }
    ensures ok { OnOk result (text_of out.new ≡ text_of out.old ++ (separator columns i ++ ser_text page (ser_of value.entry))) }
    ensures grown { IsGrown (string_bytes out.old) (string_bytes out.new) }
{
    append_text(separator(columns, i), out)?;
    append_ser(alloc, page, value, out)
}

// Appends so many values, and answers what stands behind them.
fn append_values<'a>(
    alloc: Global,
    page: XlsEncoding,
    biff: Biff,
    columns: u16,
    count: u32,
    bytes: &'a [u8],
    out: &mut String,
) -> Result<&'a [u8], Fault>
    requires { 0 < columns }
    ensures exact { Appends (text_of out.old) (text_of out.new) result
        (gives (λ x. (values_text page columns 0 x.0, x.1)) (sers_at biff count bytes.now)) }
    ensures grown { IsGrown (string_bytes out.old) (string_bytes out.new) }
{
    let mut left = bytes;
    'values: for i in 0..count {
        let (value, rest) = read_ser_ar(left, biff)?;
        append_value(alloc, page, columns, i, value, out)?;
        left = rest;
    }
    Ok(left)
}

fn value_count(size: ArraySize) -> u32
    requires columns { size.columns ≤ 256 }
    requires rows { size.rows ≤ 65536 }
    ensures { result ≡ size.columns * size.rows }
{
    u32::from(size.columns) * size.rows
}

fn append_array<'a>(
    alloc: Global,
    page: XlsEncoding,
    biff: Biff,
    extra: &'a [u8],
    out: &mut String,
) -> Result<&'a [u8], Fault>
    ensures exact { Appends (text_of out.old) (text_of out.new) result (array_text_at page biff extra.now) }
    ensures grown { IsGrown (string_bytes out.old) (string_bytes out.new) }
{
    let (size, values) = read_array_size(extra, biff)?;
    let count = value_count(size);
    append_text("{", out)?;
    let left = append_values(alloc, page, biff, size.columns, count, values, out)?;
    append_text("}", out)?;
    Ok(left)
}

/// Appends the constant array that the extra bytes of a formula begin with (PtgArray), `{1,"a";TRUE,#N/A}`, and answers the extra bytes
/// behind it. Refuses a value as its first fault says, or where memory runs out; then `out` is as it was.
pub fn push_array<'a>(
    alloc: Global,
    page: XlsEncoding,
    biff: Biff,
    extra: &'a [u8],
    out: &mut String,
) -> Result<&'a [u8], Fault>
    ensures exact { Appends (text_of out.old) (text_of out.new) result (array_text_at page biff extra.now) }
    ensures err { OnErr result (string_bytes out.new ≡ string_bytes out.old) }
{
    let before = out.len();
    let done = append_array(alloc, page, biff, extra, out);
    if done.is_err() {
        out.truncate(before);
    }
    done
}
