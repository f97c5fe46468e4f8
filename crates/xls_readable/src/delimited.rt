//! Fields of CSV and what stands between them, by RFC 4180.

ghost use Rattle.std.specs.Prelude.{◌≡◌, ◌∷◌, ◌++◌, ◌<◌, ◌==◌, ◌↔◌, [], true, false, length, take, get_or, IsTrue, MatchOption, IfSome, OnOk, OnErr, codes};
ghost use Rattle.std.specs.List.{flat_map, list_any};
ghost use Rattle.std.specs.String.{string_bytes, string_len};
ghost use Rattle.xls_bytes.specs.Growth.{IsGrown};
ghost use Rattle.xls_output.specs.Added.{AddsText};
ghost use Rattle.xls_readable.specs.declared.values.Value.TheVariants.{Float, Int, Moment};
ghost use Rattle.xls_data.specs.Errors.{error_text};
ghost use Rattle.xls_readable.specs.Values.{truth_text};
ghost use Rattle.xls_readable.specs.Csv.{IsField, csv_field, doubled, doubled_byte, is_delimiter, is_marked, is_special, quoted, row_end};

use crate::values::{Value, failure_text, push_int, truth_text};
use std::alloc::AllocError;
use std::marker::Model;
use xls_data::{CellErrorType, ExcelDateTime, Number};
use xls_decimals::{push_date_or_duration, push_decimal};

/// A byte that separates the fields of a row: ASCII, and no quote, newline or return. Contracts see
/// the byte.
#[derive(Clone, Copy, Debug, PartialEq, Eq)]
pub struct Delimiter {
    byte: u8,
}

impl Model for Delimiter {
    ghost use Rattle.std.specs.Prelude.{◌≡◌, ℕ, true};
    ghost use Rattle.xls_readable.specs.Csv.{is_delimiter};

    ghost Value = { ℕ };

    ghost view = { λ d. d.byte };

    ghost inverse = { λ b. record { byte = b } };

    ghost invariant = { λ d. is_delimiter d.byte ≡ true };
}

// Whether a byte is a quote, a newline or a return.
#[inline(always)]
fn is_special(byte: u8) -> bool
    ensures { result ≡ is_special byte }
{
    (byte == b'"') | (byte == b'\r') | (byte == b'\n')
}

impl Delimiter {
    /// The delimiter of this byte. None for a quote, a newline, a return and what is not ASCII.
    pub fn new(byte: u8) -> Option<Delimiter>
        ensures { MatchOption result (is_delimiter byte ≡ false) (λ d. (d ≡ byte) × (is_delimiter byte ≡ true)) }
    {
        if byte < 0x80 && !is_special(byte) {
            return Some(Delimiter { byte });
        }
        None
    }

    /// The comma.
    pub fn comma() -> Delimiter
        ensures { result ≡ 0x2C }
    {
        Delimiter { byte: b',' }
    }
}

// Whether a byte puts its field into quotes, told without a branch.
#[inline(always)]
fn is_marked(delimiter: Delimiter, byte: u8) -> bool
    ensures { result ≡ is_marked delimiter byte }
{
    (byte == delimiter.byte) | is_special(byte)
}

// How many bytes are looked at together.
const STRIDE: usize = 8;

// Whether one of so many bytes puts its field into quotes.
#[inline(always)]
fn is_piece_quoted(delimiter: Delimiter, piece: &[u8]) -> bool
    requires { length piece.now ≡ STRIDE }
    ensures { result ≡ list_any (is_marked delimiter) piece.now }
{
    let mut marked = false;
    for i in 0..STRIDE {
        marked |= is_marked(delimiter, piece[i]);
    }
    marked
}

// Whether a short field calls for quotes.
#[inline(always)]
fn is_rest_quoted(delimiter: Delimiter, text: &[u8]) -> bool
    ensures { result ≡ list_any (is_marked delimiter) text.now }
{
    for i in 0..text.len() {
        if is_marked(delimiter, text[i]) {
            return true;
        }
    }
    false
}

// Whether a field calls for quotes.
fn is_quoted(delimiter: Delimiter, text: &[u8]) -> bool
    ensures { result ≡ list_any (is_marked delimiter) text.now }
{
    let mut left = text;
    'pieces: while left.len() >= STRIDE {
        let (piece, others) = left.split_at(STRIDE);
        if is_piece_quoted(delimiter, piece) {
            return true;
        }
        left = others;
    }
    is_rest_quoted(delimiter, left)
}

// The index of the first quote.
fn first_quote(bytes: &[u8]) -> Option<usize>
    ensures none { MatchOption result (flat_map doubled_byte bytes.now ≡ bytes.now) (λ at.
        flat_map doubled_byte (take at bytes.now) ≡ take at bytes.now) }
    ensures some { IfSome result (λ at. (at < length bytes.now) × (get_or bytes.now at 0 ≡ 0x22)) }
{
    for i in 0..bytes.len() {
        if bytes[i] == b'"' {
            return Some(i);
        }
    }
    None
}

// The text before the first quote, and the text after it.
fn first_stretch(text: &str) -> Option<(&str, &str)>
    ensures whole { MatchOption result (flat_map doubled_byte text.now ≡ text.now) (λ x.
        flat_map doubled_byte text.now ≡ x.0.now ++ (codes "\"\"" ++ flat_map doubled_byte x.1.now)) }
    ensures shorter { IfSome result (λ x. length x.1.now < length text.now) }
{
    let at = first_quote(text.as_bytes())?;
    let (plain, others) = text.split_at(at);
    let (_, after) = others.split_at(1);
    Some((plain, after))
}

// Appends a text with its quotes doubled. An error may leave a part of it.
fn append_doubled(text: &str, buf: &mut String) -> Result<(), AllocError>
    ensures ok { OnOk result (string_bytes buf.new ≡ string_bytes buf.old ++ flat_map doubled_byte text.now) }
    ensures grown { IsGrown (string_bytes buf.old) (string_bytes buf.new) }
{
    let mut rest = text;
    'stretches: while let Some((plain, after)) = first_stretch(rest) {
        buf.push_str(plain)?;
        buf.push_str("\"\"")?;
        rest = after;
    }
    buf.push_str(rest)?;
    Ok(())
}

// Appends a text in quotes. An error may leave a part of it.
fn append_quoted(text: &str, buf: &mut String) -> Result<(), AllocError>
    ensures ok { OnOk result (string_bytes buf.new ≡ string_bytes buf.old ++ quoted text.now) }
    ensures grown { IsGrown (string_bytes buf.old) (string_bytes buf.new) }
{
    buf.push_str("\"")?;
    append_doubled(text, buf)?;
    buf.push_str("\"")?;
    Ok(())
}

// Appends a text in quotes. Only running out of memory refuses, and then `buf` is as it was.
#[inline(never)]
fn push_quoted(text: &str, buf: &mut String) -> Result<(), AllocError>
    ensures ok { OnOk result (string_bytes buf.new ≡ string_bytes buf.old ++ quoted text.now) }
    ensures err { OnErr result (string_bytes buf.new ≡ string_bytes buf.old) }
{
    let before = buf.len();
    let done = append_quoted(text, buf);
    if done.is_err() {
        buf.truncate(before);
    }
    done
}

/// Appends the field of a text. Only running out of memory refuses, and then `buf` is as it was.
pub fn push_text_field(text: &str, delimiter: Delimiter, buf: &mut String) -> Result<(), AllocError>
    ensures ok { OnOk result (string_bytes buf.new ≡ string_bytes buf.old ++ csv_field delimiter text.now) }
    ensures err { OnErr result (string_bytes buf.new ≡ string_bytes buf.old) }
{
    if is_quoted(delimiter, text.as_bytes()) {
        return push_quoted(text, buf);
    }
    buf.push_str(text)
}

// Whether a delimiter is below all bytes of numbers, as a comma and a tab are.
#[inline(always)]
fn is_below_numbers(delimiter: Delimiter) -> bool
    ensures { IsTrue result ↔ (delimiter < 0x2D) }
{
    delimiter.byte < b'-'
}

// Appends the field of a whole number, which calls for no quotes.
fn push_whole(n: i64, delimiter: Delimiter, buf: &mut String) -> Result<(), AllocError>
    requires { delimiter < 0x2D }
    ensures ok { OnOk result (AddsText (IsField delimiter (Int n)) (string_bytes buf.old) (string_bytes buf.new)) }
    ensures err { OnErr result (string_bytes buf.new ≡ string_bytes buf.old) }
{
    push_int(n, buf)
}

// Appends the field of a number, which calls for no quotes.
fn push_number(n: Number, delimiter: Delimiter, buf: &mut String) -> Result<(), AllocError>
    requires { delimiter < 0x2D }
    ensures ok { OnOk result (AddsText (IsField delimiter (Float n)) (string_bytes buf.old) (string_bytes buf.new)) }
    ensures err { OnErr result (string_bytes buf.new ≡ string_bytes buf.old) }
{
    push_decimal(n, buf)
}

/// Appends the field of a whole number, printed into `room` first where the delimiter may stand in it. Only
/// running out of memory refuses, and then `buf` is as it was.
#[inline(always)]
pub fn push_int_field(
    n: i64,
    delimiter: Delimiter,
    room: &mut String,
    buf: &mut String,
) -> Result<(), AllocError>
    ensures ok { OnOk result (AddsText (IsField delimiter (Int n)) (string_bytes buf.old) (string_bytes buf.new)) }
    ensures err { OnErr result (string_bytes buf.new ≡ string_bytes buf.old) }
{
    if is_below_numbers(delimiter) {
        return push_whole(n, delimiter, buf);
    }
    room.clear();
    push_int(n, room)?;
    push_text_field(room.as_str(), delimiter, buf)
}

/// Appends the field of a number, likewise.
#[inline(always)]
pub fn push_number_field(
    n: Number,
    delimiter: Delimiter,
    room: &mut String,
    buf: &mut String,
) -> Result<(), AllocError>
    ensures ok { OnOk result (AddsText (IsField delimiter (Float n)) (string_bytes buf.old) (string_bytes buf.new)) }
    ensures err { OnErr result (string_bytes buf.new ≡ string_bytes buf.old) }
{
    if is_below_numbers(delimiter) {
        return push_number(n, delimiter, buf);
    }
    room.clear();
    push_decimal(n, room)?;
    push_text_field(room.as_str(), delimiter, buf)
}

/// Appends the field of a date or a duration, which is printed into `room` first. Only running out of memory
/// refuses, and then `buf` is as it was.
pub fn push_moment_field(
    moment: ExcelDateTime,
    delimiter: Delimiter,
    room: &mut String,
    buf: &mut String,
) -> Result<(), AllocError>
    ensures ok { OnOk result (AddsText (IsField delimiter (Moment moment)) (string_bytes buf.old) (string_bytes buf.new)) }
    ensures err { OnErr result (string_bytes buf.new ≡ string_bytes buf.old) }
{
    room.clear();
    push_date_or_duration(moment, room)?;
    push_text_field(room.as_str(), delimiter, buf)
}

/// Appends the field of a truth value. Only running out of memory refuses, and then `buf` is as it was.
pub fn push_truth_field(
    truth: bool,
    delimiter: Delimiter,
    buf: &mut String,
) -> Result<(), AllocError>
    ensures ok { OnOk result (string_bytes buf.new ≡ string_bytes buf.old ++ csv_field delimiter (truth_text truth)) }
    ensures err { OnErr result (string_bytes buf.new ≡ string_bytes buf.old) }
{
    push_text_field(truth_text(truth), delimiter, buf)
}

/// Appends the field of an error value. Only running out of memory refuses, and then `buf` is as it was.
pub fn push_failure_field(
    failure: CellErrorType,
    delimiter: Delimiter,
    buf: &mut String,
) -> Result<(), AllocError>
    ensures ok { OnOk result (string_bytes buf.new ≡ string_bytes buf.old ++ csv_field delimiter (error_text failure)) }
    ensures err { OnErr result (string_bytes buf.new ≡ string_bytes buf.old) }
{
    push_text_field(failure_text(failure), delimiter, buf)
}

/// Appends the field of a value: its text as people read it, in quotes where it holds the delimiter, a
/// quote, a newline or a return, with its quotes doubled. What has to be printed first is printed into
/// `room`, whose text is lost. Only running out of memory refuses, and then `buf` is as it was.
pub fn push_field(
    value: &Value<'_>,
    delimiter: Delimiter,
    room: &mut String,
    buf: &mut String,
) -> Result<(), AllocError>
    ensures ok { OnOk result (AddsText (IsField delimiter value.now)
        (string_bytes buf.old) (string_bytes buf.new)) }
    ensures err { OnErr result (string_bytes buf.new ≡ string_bytes buf.old) }
{
    match value {
        Value::Int(n) => push_int_field(*n, delimiter, room, buf),
        Value::Float(n) => push_number_field(*n, delimiter, room, buf),
        Value::Text(text) | Value::IsoDate(text) | Value::IsoDuration(text) => {
            push_text_field(text, delimiter, buf)
        }
        Value::Truth(truth) => push_truth_field(*truth, delimiter, buf),
        Value::Moment(moment) => push_moment_field(*moment, delimiter, room, buf),
        Value::Failure(failure) => push_failure_field(*failure, delimiter, buf),
        Value::Empty => Ok(()),
    }
}

/// Appends the delimiter, which stands between two fields. Only running out of memory refuses, and
/// then `buf` is as it was.
#[inline(always)]
pub fn push_separator(delimiter: Delimiter, buf: &mut String) -> Result<(), AllocError>
    ensures ok { OnOk result (string_bytes buf.new ≡ string_bytes buf.old ++ delimiter ∷ []) }
    ensures err { OnErr result (string_bytes buf.new ≡ string_bytes buf.old) }
{
    buf.push(char::from(delimiter.byte))
}

/// Appends the end of a row that began where `buf` had `start` bytes: a newline, and before it two
/// quotes where the row has no byte. Only running out of memory refuses, and then `buf` is as it was.
pub fn end_row(start: usize, buf: &mut String) -> Result<(), AllocError>
    ensures ok { OnOk result (string_bytes buf.new ≡ string_bytes buf.old ++ row_end (string_len buf.old == start)) }
    ensures err { OnErr result (string_bytes buf.new ≡ string_bytes buf.old) }
{
    if buf.len() == start {
        return buf.push_str("\"\"\n");
    }
    buf.push_str("\n")
}
