//! The fields of a line.

ghost use Rattle.std.specs.Prelude.{◌≡◌, ◌∷◌, [], true, IfOk, OnOk};
ghost use Rattle.std.specs.List.{flat_map};
ghost use Rattle.std.specs.Str.{chars};
ghost use Rattle.std.specs.String.{string_bytes};
ghost use Rattle.xls_lines.specs.Lines.{escaped_char, escaped_text, field_text};

use std::alloc::AllocError;
use xls_bytes::push_escaped;
use xls_data::{CellErrorType, Number as Decimal};
use xls_strings::XlsError;

/// What stands between the tabs of a line.
#[derive(Clone, Copy, Drop)]
pub enum Field<'a> {
    /// A word, as it is.
    Word(&'a str),
    /// A text, its backslashes, newlines, returns and tabs escaped.
    Text(&'a str),
    /// A row, a column or a count.
    Number(u64),
    /// A whole number.
    Int(i64),
    /// A number as Excel stores it.
    Fraction(Decimal),
    /// The error value of a cell.
    Failure(CellErrorType),
    /// Why a stream is refused.
    Fault(&'a XlsError),
}

/// Whether a byte stands for itself. Most bytes are above those that don't.
#[inline(always)]
fn is_plain(byte: u8) -> bool
    ensures { result ≡ true → escaped_char byte ≡ byte ∷ [] }
{
    if byte > b'\\' {
        return true;
    }
    !matches!(byte, b'\\' | b'\n' | b'\r' | b'\t')
}

/// Whether each byte stands for itself.
fn is_all_plain(bytes: &[u8]) -> bool
    ensures { result ≡ true → flat_map escaped_char bytes.now ≡ bytes.now }
{
    for byte in bytes {
        if !is_plain(*byte) {
            return false;
        }
    }
    true
}

/// Whether a text is printed as it stands.
fn is_plain_text(text: &str) -> bool
    ensures { result ≡ true → escaped_text (chars text.now) ≡ text.now }
{
    is_all_plain(text.as_bytes())
}

/// Prints a field into `room`.
fn print(field: Field<'_>, room: &mut String) -> Result<(), AllocError>
    ensures { OnOk result (string_bytes room.new ≡ field_text field.entry) }
{
    let mut digits = itoa::Buffer::new();
    room.clear();
    match field {
        Field::Word(word) => room.push_str(word),
        Field::Text(text) => push_escaped(text, room),
        Field::Number(n) => room.push_str(digits.format(n)),
        Field::Int(n) => room.push_str(digits.format(n)),
        Field::Fraction(n) => write!(room, "{n}"),
        Field::Failure(error) => write!(room, "{error}"),
        Field::Fault(error) => write!(room, "{error}"),
    }
}

/// What a field prints: its own text where that is printed as it stands, or else one in `room`.
pub(crate) fn printed<'a>(field: Field<'a>, room: &'a mut String) -> Result<&'a str, AllocError>
    ensures { IfOk result (λ text. text.now ≡ field_text field.entry) }
{
    match field {
        Field::Word(word) => return Ok(word),
        Field::Text(text) if is_plain_text(text) => return Ok(text),
        _ => {}
    }
    print(field, room)?;
    Ok(room.as_str())
}
