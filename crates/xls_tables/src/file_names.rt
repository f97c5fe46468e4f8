//! The names of files for sheets.

ghost use Rattle.std.specs.Prelude.{◌≡◌, ◌++◌, ◌≤◌, length, map, encode_utf8_all, IfOk, OnOk};
ghost use Rattle.std.specs.Str.{chars};
ghost use Rattle.std.specs.String.{string_bytes};
ghost use Rattle.xls_tables.specs.FileNames.{IsSafeName, FileNamesDiffer, file_name, fitting, is_refused, kept_char, at_least_two_digits};

use std::alloc::{AllocError, Global};

/// How many bytes of a sheet's name are kept.
const SHEET_ROOM: usize = 190;

/// Whether a character has no place in the name of a file.
fn is_refused(c: char) -> bool
    ensures { result ≡ is_refused c }
{
    c < ' '
        || matches!(
            c,
            '\u{7F}' | '"' | '*' | '/' | ':' | '<' | '>' | '?' | '\\' | '|'
        )
}

/// What stands for a character.
fn kept_char(c: char) -> char
    ensures { result ≡ kept_char c }
{
    if is_refused(c) { '_' } else { c }
}

/// Appends a number in decimal, in two digits at least.
fn push_number(number: usize, text: &mut String) -> Result<(), AllocError>
    ensures { OnOk result (string_bytes text.new ≡ string_bytes text.old ++ at_least_two_digits number) }
{
    if number < 10 {
        text.push('0')?;
    }
    write!(text, "{number}")?;
    Ok(())
}

/// Appends what is kept of a sheet's name.
fn push_fitting(sheet: &str, text: &mut String) -> Result<(), AllocError>
    ensures { OnOk result (string_bytes text.new
        ≡ string_bytes text.old ++ encode_utf8_all (fitting SHEET_ROOM (map kept_char (chars sheet.now)))) }
{
    let mut room = SHEET_ROOM;
    'chars: for c in sheet.chars() {
        let kept = kept_char(c);
        if kept.len_utf8() > room {
            return Ok(());
        }
        text.push(kept)?;
        room -= kept.len_utf8();
    }
    Ok(())
}

/// The name.
fn named(alloc: Global, number: usize, sheet: &str) -> Result<String, AllocError>
    ensures { IfOk result (λ text. string_bytes text ≡ file_name number (chars sheet.now)) }
{
    let mut text = String::new(alloc);
    push_number(number, &mut text)?;
    text.push('-')?;
    push_fitting(sheet, &mut text)?;
    Ok(text)
}

/// The name of the file of a sheet, without an ending: the sheet's number in two digits at least, a dash, and
/// the sheet's name, in which `_` stands for what no file name may have, cut at a character to 190 bytes. At
/// most 211 bytes. Only running out of memory refuses.
pub fn file_name(alloc: Global, number: usize, sheet: &str) -> Result<String, AllocError>
    ensures name { IfOk result (λ text. string_bytes text ≡ file_name number (chars sheet.now)) }
    ensures safe { IfOk result (λ text. IsSafeName (string_bytes text)) }
    ensures short { IfOk result (λ text. length (string_bytes text) ≤ 211) }
{
    named(alloc, number, sheet)
}

/// Names with different numbers differ, so that no file of a sheet is written over another.
pub fn names_differ()
    ensures { FileNamesDiffer }
{}
