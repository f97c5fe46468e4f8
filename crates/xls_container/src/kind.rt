//! What a file is that holds no workbook.

ghost use Rattle.std.specs.Prelude.{◌≡◌};
ghost use Rattle.xls_container.specs.Kinds.{MARKS, is_compound, is_bare, is_markup, is_mime, kind_of, marked_kind, without_byte_order_mark};

use std::fmt;

/// The signature of a compound file.
const SIGNATURE: [u8; 8] = [0xD0, 0xCF, 0x11, 0xE0, 0xA1, 0xB1, 0x1A, 0xE1];

/// A type of BOF, 0809, as it stands in a file.
const BOF: [u8; 2] = [0x09, 0x08];

/// The mark of UTF-8 at the start of a text.
const BYTE_ORDER_MARK: [u8; 3] = [0xEF, 0xBB, 0xBF];

/// With which MHTML text begins, in either case.
const MIME_VERSION: &[u8] = b"MIME-Version:";

/// What a file is that holds no workbook, by its first bytes.
#[derive(Clone, Copy, Debug, PartialEq, Eq)]
pub enum FileKind {
    /// No byte.
    Empty,
    /// A ZIP file: it begins with 50 4B 03 04 or 50 4B 05 06.
    Zip,
    /// HTML or XML text: `<` after white space, with or without a mark of UTF-8.
    Html,
    /// MHTML text: it begins with `MIME-Version:`, in either case.
    Mhtml,
    /// A SYLK file: it begins with `ID;`.
    Sylk,
    /// RTF text: it begins with `{\rtf`.
    RichText,
    /// A PDF file: it begins with `%PDF`.
    Pdf,
    /// A worksheet of Excel 2: its first record is a BOF 0009.
    Excel2,
    /// A worksheet of Excel 3: its first record is a BOF 0209.
    Excel3,
    /// A worksheet of Excel 4: its first record is a BOF 0409.
    Excel4,
    /// Other bytes.
    Other,
}

impl fmt::Display for FileKind {
    ghost use Rattle.std.specs.Prelude.{Some};
    ghost use Rattle.xls_container.specs.Texts.{kind_text};

    ghost output = { λ kind. Some (kind_text kind) };

    fn fmt<W: fmt::Write>(&self, f: &mut fmt::Formatter<W>) -> fmt::Result {
        f.write_str(match self {
            FileKind::Empty => "it is empty",
            FileKind::Zip => "it is a ZIP file, as .xlsx, .xlsb and .ods are",
            FileKind::Html => "it is HTML or XML text",
            FileKind::Mhtml => "it is MHTML text",
            FileKind::Sylk => "it is a SYLK file",
            FileKind::RichText => "it is RTF text",
            FileKind::Pdf => "it is a PDF file",
            FileKind::Excel2 => "it is a worksheet of Excel 2, which isn't read",
            FileKind::Excel3 => "it is a worksheet of Excel 3, which isn't read",
            FileKind::Excel4 => "it is a worksheet of Excel 4, which isn't read",
            FileKind::Other => "it begins with other bytes",
        })
    }
}

/// Whether a file begins as a compound file does.
pub(crate) fn is_compound(file: &[u8]) -> bool
    ensures { result ≡ is_compound file.now }
{
    file.starts_with(&SIGNATURE)
}

/// Whether a file begins as a workbook's stream does.
pub(crate) fn is_bare(file: &[u8]) -> bool
    ensures { result ≡ is_bare file.now }
{
    file.starts_with(&BOF)
}

// A text without the mark of UTF-8.
fn without_byte_order_mark(file: &[u8]) -> &[u8]
    ensures { result.now ≡ without_byte_order_mark file.now }
{
    if file.starts_with(&BYTE_ORDER_MARK) {
        return &file[3..];
    }
    file
}

// Whether a file is HTML or XML text.
fn is_markup(file: &[u8]) -> bool
    ensures { result ≡ is_markup file.now }
{
    let text = without_byte_order_mark(file).trim_ascii_start();
    text.starts_with(b"<")
}

// Whether a file is MHTML text.
fn is_mime(file: &[u8]) -> bool
    ensures { result ≡ is_mime file.now }
{
    file.len() >= MIME_VERSION.len()
        && file[..MIME_VERSION.len()].eq_ignore_ascii_case(MIME_VERSION)
}

// The kind of a file that isn't text.
fn kind_by_mark(file: &[u8]) -> FileKind
    ensures { result ≡ marked_kind MARKS file.now }
{
    if file.starts_with(b"PK\x03\x04") || file.starts_with(b"PK\x05\x06") {
        FileKind::Zip
    } else if file.starts_with(b"ID;") {
        FileKind::Sylk
    } else if file.starts_with(b"{\\rtf") {
        FileKind::RichText
    } else if file.starts_with(b"%PDF") {
        FileKind::Pdf
    } else if file.starts_with(&[0x09, 0x00]) {
        FileKind::Excel2
    } else if file.starts_with(&[0x09, 0x02]) {
        FileKind::Excel3
    } else if file.starts_with(&[0x09, 0x04]) {
        FileKind::Excel4
    } else {
        FileKind::Other
    }
}

/// The kind of a file that is neither a compound file nor a workbook's stream.
pub(crate) fn kind_of(file: &[u8]) -> FileKind
    ensures { result ≡ kind_of file.now }
{
    if file.is_empty() {
        FileKind::Empty
    } else if is_markup(file) {
        FileKind::Html
    } else if is_mime(file) {
        FileKind::Mhtml
    } else {
        kind_by_mark(file)
    }
}
