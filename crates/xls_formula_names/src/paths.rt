//! The folder and the file of another workbook's path.

ghost use Rattle.std.specs.Prelude.{◌≡◌, ◌++◌, if◌then◌else◌, false, OnOk, IfOk};
ghost use Rattle.std.specs.List.{flat_map, list_any};
ghost use Rattle.std.specs.Str.{chars};
ghost use Rattle.std.specs.String.{string_bytes};
ghost use Rattle.xls_formula_names.specs.Paths.{start_text, is_literal, spelled_one, spelled, text_after, start_of, is_separator, split, has_slashes, path_of};

use crate::starts::{Start, start_of};
use std::alloc::{AllocError, Global};
use xls_bytes::first_char;

// In these functions an error may leave a part of the text.
fn append_start(start: Start, out: &mut String) -> Result<(), AllocError>
    ensures { OnOk result (chars (string_bytes out.new) ≡ chars (string_bytes out.old) ++ start_text start) }
{
    match start {
        Start::Share => out.push_str("\\\\"),
        Start::Drive(letter) => {
            out.push(letter)?;
            out.push_str(":\\")
        }
        Start::Root => out.push_str("\\"),
        Start::Plain | Start::Web | Start::Relative => Ok(()),
    }
}

fn append_spelled_char(c: char, out: &mut String) -> Result<(), AllocError>
    ensures { OnOk result (chars (string_bytes out.new) ≡ chars (string_bytes out.old) ++ spelled_one c) }
{
    if c == '\u{3}' {
        return out.push_str("\\");
    }
    if c == '\u{4}' {
        return out.push_str("..\\");
    }
    out.push(c)
}

fn append_folders(folders: &str, out: &mut String) -> Result<(), AllocError>
    ensures { OnOk result (chars (string_bytes out.new)
        ≡ chars (string_bytes out.old) ++ flat_map spelled_one (chars folders.now)) }
{
    let mut left = folders;
    'characters: while let Some((c, rest)) = first_char(left) {
        append_spelled_char(c, out)?;
        left = rest;
    }
    Ok(())
}

fn append_spelled(is_literal: bool, text: &str, out: &mut String) -> Result<(), AllocError>
    ensures { OnOk result (chars (string_bytes out.new) ≡ chars (string_bytes out.old) ++ spelled is_literal (chars text.now)) }
{
    if is_literal {
        return out.push_str(text);
    }
    append_folders(text, out)
}

// The text of a path from what it begins with on.
fn text_after(alloc: Global, start: Start, rest: &str) -> Result<String, AllocError>
    ensures { IfOk result (λ text. chars (string_bytes text) ≡ text_after (start, chars rest.now)) }
{
    let mut text = String::new(alloc);
    append_start(start, &mut text)?;
    append_spelled(start.is_literal(), rest, &mut text)?;
    Ok(text)
}

fn is_separator(has_slashes: bool, c: char) -> bool
    ensures { result ≡ is_separator has_slashes c }
{
    c == '\\' || (has_slashes && c == '/')
}

fn has_separator(text: &str) -> bool
    ensures { result ≡ list_any (is_separator false) (chars text.now) }
{
    let mut left = text;
    'characters: while let Some((c, rest)) = first_char(left) {
        if is_separator(false, c) {
            return true;
        }
        left = rest;
    }
    false
}

fn has_slashes(start: Start, text: &str) -> bool
    ensures { result ≡ has_slashes start (chars text.now) }
{
    start.is_literal() || !has_separator(text)
}

// What may be the file, when a character with `rest` behind it has come.
fn file_after<'a>(is_end: bool, rest: &'a str, file: &'a str) -> &'a str
    ensures { result.now ≡ (if is_end then rest.now else file.now) }
{
    if is_end { rest } else { file }
}

// The folder, and the file behind the last separator.
fn split_path(text: &str, has_slashes: bool) -> (&str, &str)
    ensures folder { chars result.0.now ≡ (split has_slashes (chars text.now)).0 }
    ensures file { chars result.1.now ≡ (split has_slashes (chars text.now)).1 }
{
    let mut file = text;
    let mut left = text;
    'characters: while let Some((c, rest)) = first_char(left) {
        file = file_after(is_separator(has_slashes, c), rest, file);
        left = rest;
    }
    text.split_at(text.len() - file.len())
}

/// The folder and the file that a path names.
#[derive(Debug, Drop)]
pub struct Path {
    /// The folder with its last separator, empty where there is none.
    pub dir: String,
    /// The file.
    pub file: String,
}

impl Path {
    /// The folder and the file of another workbook's path, as a SupBook or an ExternSheet record has it ([MS-XLS] VirtualPath). Only running
    /// out of memory refuses.
    pub fn read(alloc: Global, path: &str) -> Result<Path, AllocError>
        ensures exact { IfOk result (λ p. (chars (string_bytes p.dir), chars (string_bytes p.file)) ≡ path_of (chars path.now)) }
    {
        let (start, rest) = start_of(path);
        let text = text_after(alloc, start, rest)?;
        let (dir, file) = split_path(&text, has_slashes(start, &text));
        Ok(Path {
            dir: String::from_str(alloc, dir)?,
            file: String::from_str(alloc, file)?,
        })
    }
}
