//! Cells as whole numbers of the integer types.

ghost use Rattle.std.specs.Prelude.{◌≡◌, ◌^◌, ◌≤ℤ◌, ◌<ℤ◌, ℤ, pos as plus, neg_ℤ, Some, SomeIff, IfOk, int_lt, true, false};
ghost use Rattle.xls_data.specs.Data.{content_of};
ghost use Rattle.xls_rows.specs.Wholes.{IsBetween, IsParsedWithin, IsWholeContent, ReadsWhole};

use crate::DeError;
use crate::refusals::unexpected_number;
use std::alloc::Global;
use xls_data::Data;

// The number, where it is of the type.
fn number_between(n: i128, low: i128, high: i128) -> Option<i128>
    ensures { SomeIff result (IsBetween low high n) n }
{
    if low <= n && n <= high { Some(n) } else { None }
}

// The number of the type that a text is read as: a type has negative numbers, or it has none.
fn parsed_between(text: &str, low: i128, high: i128) -> Option<i128>
    requires least { neg_ℤ (plus (2 ^ 63)) ≤ℤ low }
    requires greatest { high <ℤ plus (2 ^ 64) }
    requires signed { int_lt low (plus 0) ≡ true → high <ℤ plus (2 ^ 63) }
    ensures { IsParsedWithin low high text.now result }
{
    let n = if low < 0 {
        text.parse::<i64>().ok()? as i128
    } else {
        text.parse::<u64>().ok()? as i128
    };
    number_between(n, low, high)
}

// The number of the type that a cell stands for.
#[tactic(auto, using(crate::proofs::TextLemmas::text_bytes))]
fn whole_between(cell: &Data, low: i128, high: i128) -> Option<i128>
    requires least { neg_ℤ (plus (2 ^ 63)) ≤ℤ low }
    requires greatest { high <ℤ plus (2 ^ 64) }
    requires signed { int_lt low (plus 0) ≡ true → high <ℤ plus (2 ^ 63) }
    ensures { IsWholeContent low high (content_of cell.now) result }
{
    match cell {
        Data::Int(n) => number_between(*n as i128, low, high),
        Data::Float(x) => match x.trunc_checked() {
            Some(n) => number_between(n as i128, low, high),
            None => None,
        },
        Data::String(s) => parsed_between(s.as_str(), low, high),
        _ => None,
    }
}

/// An integer type: its name, its least and its greatest number.
#[derive(Clone, Copy)]
pub(crate) struct IntegerType {
    pub name: &'static str,
    pub low: i128,
    pub high: i128,
}

impl IntegerType {
    pub(crate) const I8: IntegerType = IntegerType {
        name: "i8",
        low: i8::MIN as i128,
        high: i8::MAX as i128,
    };

    pub(crate) const I16: IntegerType = IntegerType {
        name: "i16",
        low: i16::MIN as i128,
        high: i16::MAX as i128,
    };

    pub(crate) const I32: IntegerType = IntegerType {
        name: "i32",
        low: i32::MIN as i128,
        high: i32::MAX as i128,
    };

    pub(crate) const I64: IntegerType = IntegerType {
        name: "i64",
        low: i64::MIN as i128,
        high: i64::MAX as i128,
    };

    pub(crate) const U8: IntegerType = IntegerType {
        name: "u8",
        low: u8::MIN as i128,
        high: u8::MAX as i128,
    };

    pub(crate) const U16: IntegerType = IntegerType {
        name: "u16",
        low: u16::MIN as i128,
        high: u16::MAX as i128,
    };

    pub(crate) const U32: IntegerType = IntegerType {
        name: "u32",
        low: u32::MIN as i128,
        high: u32::MAX as i128,
    };

    pub(crate) const U64: IntegerType = IntegerType {
        name: "u64",
        low: u64::MIN as i128,
        high: u64::MAX as i128,
    };
}

// The number of an integer type that a cell stands for.
pub(crate) fn whole_of(
    alloc: Global,
    integer: IntegerType,
    cell: &Data,
    pos: (u32, u32),
) -> Result<i128, DeError>
    requires least { neg_ℤ (plus (2 ^ 63)) ≤ℤ integer.low }
    requires greatest { integer.high <ℤ plus (2 ^ 64) }
    requires signed { int_lt integer.low (plus 0) ≡ true → integer.high <ℤ plus (2 ^ 63) }
    ensures range { IfOk result (λ n. IsBetween integer.low integer.high n) }
    ensures value { ReadsWhole (λ n. n) integer.name.now integer.low integer.high
        (content_of cell.now) pos result }
{
    match whole_between(cell, integer.low, integer.high) {
        Some(n) => Ok(n),
        None => Err(unexpected_number(alloc, integer.name, cell, pos)),
    }
}
