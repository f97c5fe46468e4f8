//! What the path of a workbook begins with.

ghost use Rattle.std.specs.Prelude.{◌≡◌, ◌∷◌, drop};
ghost use Rattle.std.specs.Str.{chars};
ghost use Rattle.xls_formula_names.specs.Paths.{volume_of, encoded_of, start_of, is_literal};

use xls_bytes::first_char;

/// What the path of a workbook begins with.
#[derive(Clone, Copy, Debug, PartialEq, Eq)]
pub(crate) enum Start {
    /// Nothing: each character stands for itself.
    Plain,
    /// A computer of the network.
    Share,
    /// A drive, by its letter.
    Drive(char),
    /// The topmost folder of the drive on which this workbook is.
    Root,
    /// Nothing, before an address whose characters stand for themselves.
    Web,
    /// Nothing, before folders.
    Relative,
}

// What follows the first character, if there is one.
fn skip_char(text: &str) -> &str
    ensures { chars result.now ≡ drop 1 (chars text.now) }
{
    match first_char(text) {
        Some((_, rest)) => rest,
        None => text,
    }
}

// What a path begins with behind 01 01, of which the second one is in `path`.
fn volume_of<'a>(path: &'a str, volume: &'a str) -> (Start, &'a str)
    requires { chars path.now ≡ 1 ∷ chars volume.now }
    ensures { (result.0, chars result.1.now) ≡ volume_of (chars volume.now) }
{
    match first_char(volume) {
        Some(('@', rest)) => (Start::Share, rest),
        Some((c, rest)) if c.is_ascii_alphabetic() => (Start::Drive(c), rest),
        _ => (Start::Relative, path),
    }
}

// What a path begins with behind 01.
fn encoded_of(path: &str) -> (Start, &str)
    ensures { (result.0, chars result.1.now) ≡ encoded_of (chars path.now) }
{
    match first_char(path) {
        Some(('\u{1}', volume)) => volume_of(path, volume),
        Some(('\u{2}', rest)) => (Start::Root, rest),
        Some(('\u{5}', rest)) => (Start::Web, skip_char(rest)),
        Some(('\u{6}'..='\u{8}', rest)) => (Start::Relative, rest),
        _ => (Start::Relative, path),
    }
}

// What a path begins with, and what follows it.
pub(crate) fn start_of(path: &str) -> (Start, &str)
    ensures { (result.0, chars result.1.now) ≡ start_of (chars path.now) }
{
    match first_char(path) {
        Some(('\0', rest)) => (Start::Plain, rest),
        Some(('\u{1}', rest)) => encoded_of(rest),
        _ => (Start::Plain, path),
    }
}

impl Start {
    pub(crate) fn is_literal(self) -> bool
        ensures { result ≡ is_literal self }
    {
        matches!(self, Start::Plain | Start::Web)
    }
}
