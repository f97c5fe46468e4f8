//! Pages of one byte a character.

ghost use Rattle.std.specs.Prelude.{◌≡◌, ◌∷◌, ◌++◌, MatchOption};
ghost use Rattle.std.specs.Str.{IsAscii};
ghost use Rattle.xls_text.specs.Pages.{windows_1252, byte_character};

use bstr::ByteSlice;

// The characters of the bytes 80 to 9F.
static ROW: [char; 32] = [
    '\u{20AC}', '\u{81}', '\u{201A}', '\u{192}', '\u{201E}', '\u{2026}', '\u{2020}', '\u{2021}',
    '\u{2C6}', '\u{2030}', '\u{160}', '\u{2039}', '\u{152}', '\u{8D}', '\u{17D}', '\u{8F}',
    '\u{90}', '\u{2018}', '\u{2019}', '\u{201C}', '\u{201D}', '\u{2022}', '\u{2013}', '\u{2014}',
    '\u{2DC}', '\u{2122}', '\u{161}', '\u{203A}', '\u{153}', '\u{9D}', '\u{17E}', '\u{178}',
];

// A byte's character under page 1252.
fn windows_1252_character(byte: u8) -> char
    ensures { result ≡ windows_1252 byte }
{
    if byte < 0x80 || 0xA0 <= byte {
        return char::from(byte);
    }
    ROW[(byte - 0x80) as usize]
}

/// A byte's character under page 1252, or else the byte's own number.
pub(crate) fn character(byte: u8, is_windows_1252: bool) -> char
    ensures { result ≡ byte_character is_windows_1252 byte }
{
    if is_windows_1252 {
        windows_1252_character(byte)
    } else {
        char::from(byte)
    }
}

/// The ASCII bytes at the start, the first byte that is none, and the bytes after it.
pub(crate) fn first_stretch(bytes: &[u8]) -> Option<(&[u8], u8, &[u8])>
    ensures ascii { MatchOption result (IsAscii bytes.now) (λ x. IsAscii x.0.now) }
    ensures whole { MatchOption result (IsAscii bytes.now)
        (λ x. bytes.now ≡ x.0.now ++ x.1 ∷ x.2.now) }
{
    let at = bytes.find_non_ascii_byte()?;
    let (ascii, others) = bytes.split_at(at);
    Some((ascii, others[0], &others[1..]))
}
