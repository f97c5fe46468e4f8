//! The fields of a token, and the refusals of one.

ghost use Rattle.std.specs.Prelude.{◌≡◌, ◌+◌, ◌≤◌, length};
ghost use Rattle.xls_record.specs.Version.{is_biff8};
ghost use Rattle.xls_ptg.specs.Fields.{word_at};

use xls_biff::{Biff, Part, XlsError};
use xls_bytes::read_u16;

/// Whether tokens have the layouts of BIFF8.
pub fn is_biff8(biff: Biff) -> bool
    ensures { result ≡ is_biff8 biff }
{
    matches!(biff, Biff::Biff8)
}

/// The number in two bytes at a place.
pub fn word_at(bytes: &[u8], at: usize) -> u16
    requires { at + 2 ≤ length bytes.now }
    ensures { result ≡ word_at at bytes.now }
{
    let (_, rest) = bytes.split_at(at);
    read_u16(rest)
}

/// A part that is too short.
pub fn short(expected: usize, found: usize, typ: Part) -> XlsError
    ensures { result ≡ XlsError.Len expected found typ }
{
    XlsError::Len {
        expected,
        found,
        typ,
    }
}

/// A part of a value without a meaning.
pub(crate) fn unknown(typ: Part, val: u8) -> XlsError
    ensures { result ≡ XlsError.Unrecognized typ val }
{
    XlsError::Unrecognized { typ, val }
}
