//! Lines as JSON, [RFC 8259](https://www.rfc-editor.org/rfc/rfc8259).

ghost use Rattle.std.specs.Prelude.{◌≡◌, ◌/◌, ◌%◌, ◌∷◌, ◌++◌, ◌<◌, ◌≤◌, [], true, false, length, take, get_or, map, MatchOption, IfSome, OnOk, OnErr, codes, decimal};
ghost use Rattle.std.specs.List.{flat_map};
ghost use Rattle.std.specs.Char.{digit_char};
ghost use Rattle.std.specs.String.{string_bytes};
ghost use Rattle.json.specs.Print.{escape_byte, escape_letter, quoted};
ghost use Rattle.xls_output.specs.Added.{AddsText};
ghost use Rattle.xls_readable.specs.Growth.{GrowsText};
ghost use Rattle.xls_output.specs.Each.{Concatenates};
ghost use Rattle.xls_readable.specs.Items.{item_of, moment, named_of, number};
ghost use Rattle.xls_readable.specs.Json.{is_plain, IsBare, IsItemJson, IsMember, IsJsonLine};

use crate::items::{Field, Member, push_count};
use crate::values::{failure_text, push_int};
use std::alloc::AllocError;
use xls_data::{ExcelDateTime, Number};
use xls_decimals::{push_date_or_duration, push_decimal};

// The letter of a byte's short escape, or 0 where it has none.
fn escape_letter(byte: u8) -> u8
    ensures letter { result ≡ escape_letter byte }
    ensures ascii { result < 128 }
{
    match byte {
        b'"' => b'"',
        b'\\' => b'\\',
        8 => b'b',
        12 => b'f',
        b'\n' => b'n',
        b'\r' => b'r',
        b'\t' => b't',
        _ => 0,
    }
}

// Whether a byte stands for itself in a string.
fn is_plain(byte: u8) -> bool
    ensures { result ≡ is_plain byte }
{
    escape_letter(byte) == 0 && byte >= 32
}

// A hexadecimal digit.
fn hexadecimal_digit(n: u8) -> char
    requires { n < 16 }
    ensures digit { result ≡ digit_char n }
    ensures ascii { result < 128 }
{
    char::from(if n < 10 { b'0' + n } else { b'a' - 10 + n })
}

// Appends a short escape.
fn push_letter(letter: u8, buf: &mut String) -> Result<(), AllocError>
    requires { letter < 128 }
    ensures ok { OnOk result (string_bytes buf.new ≡ string_bytes buf.old ++ 92 ∷ letter ∷ []) }
    ensures grown { GrowsText (string_bytes buf.old) (string_bytes buf.new) }
{
    buf.push_str("\\")?;
    buf.push(char::from(letter))?;
    Ok(())
}

// Appends a control character by its number.
fn push_control(byte: u8, buf: &mut String) -> Result<(), AllocError>
    ensures ok { OnOk result (string_bytes buf.new
        ≡ string_bytes buf.old ++ 92 ∷ 117 ∷ 48 ∷ 48 ∷ digit_char (byte / 16) ∷ digit_char (byte % 16) ∷ []) }
    ensures grown { GrowsText (string_bytes buf.old) (string_bytes buf.new) }
{
    buf.push_str("\\u00")?;
    buf.push(hexadecimal_digit(byte / 16))?;
    buf.push(hexadecimal_digit(byte % 16))?;
    Ok(())
}

// Appends the escape of a byte that doesn't stand for itself.
fn push_escape(byte: u8, buf: &mut String) -> Result<(), AllocError>
    requires { is_plain byte ≡ false }
    ensures ok { OnOk result (string_bytes buf.new ≡ string_bytes buf.old ++ escape_byte byte) }
    ensures grown { GrowsText (string_bytes buf.old) (string_bytes buf.new) }
{
    let letter = escape_letter(byte);
    if letter != 0 {
        return push_letter(letter, buf);
    }
    push_control(byte, buf)
}

// Whether a byte stands for itself in a string.
fn stands_for_itself(byte: u8) -> bool
    ensures plain { result ≡ true → escape_byte byte ≡ byte ∷ [] }
    ensures escape { result ≡ false → is_plain byte ≡ false }
{
    is_plain(byte)
}

// The index of the first byte that doesn't stand for itself.
fn first_escape(bytes: &[u8]) -> Option<usize>
    ensures none { MatchOption result (flat_map escape_byte bytes.now ≡ bytes.now) (λ at.
        flat_map escape_byte (take at bytes.now) ≡ take at bytes.now) }
    ensures some { IfSome result (λ at. (at < length bytes.now) × (is_plain (get_or bytes.now at 0) ≡ false)) }
{
    for i in 0..bytes.len() {
        if !stands_for_itself(bytes[i]) {
            return Some(i);
        }
    }
    None
}

// The text before the first byte that doesn't stand for itself, that byte, and the text after it.
fn first_stretch(text: &str) -> Option<(&str, u8, &str)>
    ensures whole { MatchOption result (flat_map escape_byte text.now ≡ text.now) (λ x.
        flat_map escape_byte text.now ≡ x.0.now ++ (escape_byte x.1 ++ flat_map escape_byte x.2.now)) }
    ensures escape { IfSome result (λ x. is_plain x.1 ≡ false) }
    ensures shorter { IfSome result (λ x. length x.2.now < length text.now) }
{
    let bytes = text.as_bytes();
    let at = first_escape(bytes)?;
    let byte = bytes[at];
    let (plain, others) = text.split_at(at);
    let (_, after) = others.split_at(1);
    Some((plain, byte, after))
}

// Appends what stands between the quotes of a string.
fn push_escapes(text: &str, buf: &mut String) -> Result<(), AllocError>
    ensures ok { OnOk result (string_bytes buf.new ≡ string_bytes buf.old ++ flat_map escape_byte text.now) }
    ensures grown { GrowsText (string_bytes buf.old) (string_bytes buf.new) }
{
    let mut rest = text;
    'stretches: while let Some((plain, byte, after)) = first_stretch(rest) {
        buf.push_str(plain)?;
        push_escape(byte, buf)?;
        rest = after;
    }
    buf.push_str(rest)?;
    Ok(())
}

// Appends a string. An error may leave a part of it.
fn append_string(text: &str, buf: &mut String) -> Result<(), AllocError>
    ensures ok { OnOk result (string_bytes buf.new ≡ string_bytes buf.old ++ quoted text.now) }
    ensures grown { GrowsText (string_bytes buf.old) (string_bytes buf.new) }
{
    buf.push_str("\"")?;
    push_escapes(text, buf)?;
    buf.push_str("\"")?;
    Ok(())
}

// Appends a string. Only running out of memory refuses, and then `buf` is as it was.
fn push_string(text: &str, buf: &mut String) -> Result<(), AllocError>
    ensures ok { OnOk result (string_bytes buf.new ≡ string_bytes buf.old ++ quoted text.now) }
    ensures err { OnErr result (string_bytes buf.new ≡ string_bytes buf.old) }
{
    let before = buf.len();
    let done = append_string(text, buf);
    if done.is_err() {
        buf.truncate(before);
    }
    done
}

// Appends a text that is a number of JSON as it is, and any other as a string.
fn push_bare_or_string(text: &str, buf: &mut String) -> Result<(), AllocError>
    ensures ok { OnOk result (AddsText (IsBare text.now) (string_bytes buf.old) (string_bytes buf.new)) }
    ensures err { OnErr result (string_bytes buf.new ≡ string_bytes buf.old) }
{
    if json::is_number(text) {
        return buf.push_str(text);
    }
    push_string(text, buf)
}

// Appends a number.
fn push_number(n: Number, room: &mut String, buf: &mut String) -> Result<(), AllocError>
    ensures ok { OnOk result (AddsText (IsItemJson (number n)) (string_bytes buf.old) (string_bytes buf.new)) }
    ensures err { OnErr result (string_bytes buf.new ≡ string_bytes buf.old) }
{
    room.clear();
    push_decimal(n, room)?;
    push_bare_or_string(room.as_str(), buf)
}

// Appends a date or a duration.
fn push_moment(date: ExcelDateTime, room: &mut String, buf: &mut String) -> Result<(), AllocError>
    ensures ok { OnOk result (AddsText (IsItemJson (moment date)) (string_bytes buf.old) (string_bytes buf.new)) }
    ensures err { OnErr result (string_bytes buf.new ≡ string_bytes buf.old) }
{
    room.clear();
    push_date_or_duration(date, room)?;
    push_string(room.as_str(), buf)
}

// Appends a field.
fn push_item(field: &Field<'_>, room: &mut String, buf: &mut String) -> Result<(), AllocError>
    ensures ok { OnOk result (AddsText (IsItemJson (item_of field.now))
        (string_bytes buf.old) (string_bytes buf.new)) }
    ensures err { OnErr result (string_bytes buf.new ≡ string_bytes buf.old) }
{
    match field {
        Field::Word(word) => push_string(word, buf),
        Field::Text(text) => push_string(text, buf),
        Field::Count(n) => push_count(*n, buf),
        Field::Int(n) => push_int(*n, buf),
        Field::Number(n) => push_number(*n, room, buf),
        Field::Truth(true) => buf.push_str("true"),
        Field::Truth(false) => buf.push_str("false"),
        Field::Moment(moment) => push_moment(*moment, room, buf),
        Field::Failure(failure) => push_string(failure_text(*failure), buf),
        Field::Unknown => buf.push_str("null"),
    }
}

// Appends a member of an object, after a comma.
fn push_member(member: &Member<'_>, room: &mut String, buf: &mut String) -> Result<(), AllocError>
    ensures ok { OnOk result (AddsText (IsMember (named_of member.now))
        (string_bytes buf.old) (string_bytes buf.new)) }
    ensures grown { GrowsText (string_bytes buf.old) (string_bytes buf.new) }
{
    buf.push_str(",")?;
    push_string(member.name, buf)?;
    buf.push_str(":")?;
    push_item(&member.field, room, buf)
}

// Appends members of an object, each after a comma.
fn push_members(
    members: &[Member<'_>],
    room: &mut String,
    buf: &mut String,
) -> Result<(), AllocError>
    ensures ok { OnOk result (AddsText (Concatenates IsMember (map named_of members.now))
        (string_bytes buf.old) (string_bytes buf.new)) }
    ensures grown { GrowsText (string_bytes buf.old) (string_bytes buf.new) }
{
    for member in members {
        push_member(member, room, buf)?;
    }
    Ok(())
}

// As `push_json_line`, but an error may leave a part of the line.
fn append_json_line(
    word: &str,
    members: &[Member<'_>],
    room: &mut String,
    buf: &mut String,
) -> Result<(), AllocError>
    ensures ok { OnOk result (AddsText (IsJsonLine word.now (map named_of members.now))
        (string_bytes buf.old) (string_bytes buf.new)) }
    ensures grown { GrowsText (string_bytes buf.old) (string_bytes buf.new) }
{
    buf.push_str("{\"line\":")?;
    push_string(word, buf)?;
    push_members(members, room, buf)?;
    buf.push_str("}\n")?;
    Ok(())
}

/// Appends a JSON object on a line: the line's word under the name `line`, and its fields under their
/// names. What has to be printed first is printed into `room`, whose text is lost. Only running out of
/// memory refuses, and then `buf` is as it was.
pub fn push_json_line(
    word: &str,
    members: &[Member<'_>],
    room: &mut String,
    buf: &mut String,
) -> Result<(), AllocError>
    ensures ok { OnOk result (AddsText (IsJsonLine word.now (map named_of members.now))
        (string_bytes buf.old) (string_bytes buf.new)) }
    ensures err { OnErr result (string_bytes buf.new ≡ string_bytes buf.old) }
{
    let before = buf.len();
    let done = append_json_line(word, members, room, buf);
    if done.is_err() {
        buf.truncate(before);
    }
    done
}
