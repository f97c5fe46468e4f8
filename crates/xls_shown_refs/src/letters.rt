//! The bytes of texts in several parts, compared.

ghost use Rattle.std.specs.Prelude.{◌≡◌, ◌≤◌, ◌++◌};
ghost use Rattle.std.specs.Cmp.Lexicographic.{slice_cmp};
ghost use Rattle.std.specs.Ordering.{nat_cmp};
ghost use Rattle.xls_shown_refs.specs.Keys.{IsNext, bytes_of, left_of, sheets_bytes, text_bytes};

use std::cmp::Ordering;
use xls_formula_books::SheetPlace;
use xls_formula_names::Sheets;

/// How many parts a text has.
const PARTS: usize = 7;

/// What is left of a text in several parts: of the one that was begun, and those behind it.
#[derive(Clone, Copy)]
pub(crate) struct Letters<'a> {
    part: &'a [u8],
    parts: [&'a [u8]; PARTS],
    /// How many of the parts were begun.
    begun: usize,
}

/// The next byte.
fn next_letter(letters: &mut Letters<'_>) -> Option<u8>
    requires { letters.old.begun ≤ 7 }
    ensures next { IsNext (left_of letters.old) result (left_of letters.new) }
    ensures within { letters.new.begun ≤ 7 }
{
    'parts: while letters.part.is_empty() {
        if letters.begun == PARTS {
            return None;
        }
        letters.part = letters.parts[letters.begun];
        letters.begun += 1;
    }
    let part = letters.part;
    let (first, rest) = part.split_at(1);
    letters.part = rest;
    Some(first[0])
}

/// The order of two texts.
fn compare_letters(mut a: Letters<'_>, mut b: Letters<'_>) -> Ordering
    requires first { a.begun ≤ 7 }
    requires second { b.begun ≤ 7 }
    ensures { result ≡ slice_cmp nat_cmp (left_of a.entry) (left_of b.entry) }
{
    'letters: while let Some(x) = next_letter(&mut a) {
        let Some(y) = next_letter(&mut b) else {
            return Ordering::Greater;
        };
        if x != y {
            return x.cmp(&y);
        }
    }
    match next_letter(&mut b) {
        Some(_) => Ordering::Less,
        None => Ordering::Equal,
    }
}

/// The text of sheets of a workbook in its parts.
fn sheet_parts(sheets: Sheets<'_>) -> [&[u8]; 3]
    ensures { bytes_of result ≡ sheets_bytes sheets.entry }
{
    let none = "".as_bytes();
    match sheets {
        Sheets::Gone => ["#REF".as_bytes(), none, none],
        Sheets::One(name) => [name.as_bytes(), none, none],
        Sheets::Range(first, last) => [first.as_bytes(), ":".as_bytes(), last.as_bytes()],
    }
}

/// The text of sheets that are cited.
fn letters_of(sheets: SheetPlace<'_>) -> Letters<'_>
    ensures text { left_of result ≡ text_bytes sheets.entry }
    ensures within { result.begun ≤ 7 }
{
    let none = "".as_bytes();
    let parts = match sheets {
        SheetPlace::Here(Sheets::Gone) | SheetPlace::Book(_, _, Sheets::Gone) => [none; PARTS],
        SheetPlace::Here(sheets) => {
            let [first, colon, last] = sheet_parts(sheets);
            [first, colon, last, none, none, none, none]
        }
        SheetPlace::Book(dir, file, sheets) => {
            let [first, colon, last] = sheet_parts(sheets);
            [
                dir.as_bytes(),
                "[".as_bytes(),
                file.as_bytes(),
                "]".as_bytes(),
                first,
                colon,
                last,
            ]
        }
        SheetPlace::File(_, _) | SheetPlace::Link(_, _) => [none; PARTS],
    };
    Letters {
        part: none,
        parts,
        begun: 0,
    }
}

/// The order of the texts of sheets, by their bytes.
pub(crate) fn compare(a: SheetPlace<'_>, b: SheetPlace<'_>) -> Ordering
    ensures { result ≡ slice_cmp nat_cmp (text_bytes a.entry) (text_bytes b.entry) }
{
    match (a, b) {
        (SheetPlace::Here(Sheets::One(a)), SheetPlace::Here(Sheets::One(b))) => a.cmp(b),
        _ => compare_letters(letters_of(a), letters_of(b)),
    }
}
