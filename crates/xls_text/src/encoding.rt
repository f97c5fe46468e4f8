//! Code pages, and the texts of a stream by them.

ghost use Rattle.std.specs.Prelude.{◌≡◌, ◌++◌, OnOk, OnErr, IfOk, true, false};
ghost use Rattle.std.specs.String.{string_bytes};
ghost use Rattle.std.specs.Str.{encode_utf8_all};
ghost use Rattle.xls_bytes.specs.Growth.{IsGrown};
ghost use Rattle.xls_text.specs.Pages.{page_of, decoded, string_text, counts};

use crate::append::{append_narrow, append_utf8, append_utf16, append_wide, append_windows_1252};
use crate::error::CfbError;
use std::alloc::{AllocError, Global};

/// A code page, by which the bytes of a text are read. No byte-order mark is looked for or dropped.
#[derive(Clone, Copy, Debug, PartialEq, Eq)]
pub enum XlsEncoding {
    /// Page 1200: UTF-16, the low byte first.
    Utf16,
    /// Page 1252: Windows Western, one byte a character.
    Windows1252,
    /// Page 65001.
    Utf8,
    /// Page 28591: every byte is its own character.
    Latin1,
}

impl XlsEncoding {
    /// The page of a number of a CodePage record ([MS-XLS] 2.4.52). `CodePageNotFound` for every
    /// number but 1200, 1252, 28591 and 65001. Takes no memory.
    pub fn from_codepage(codepage: u16) -> Result<XlsEncoding, CfbError>
        ensures { result ≡ page_of codepage }
    {
        match codepage {
            1200 => Ok(XlsEncoding::Utf16),
            1252 => Ok(XlsEncoding::Windows1252),
            65001 => Ok(XlsEncoding::Utf8),
            28591 => Ok(XlsEncoding::Latin1),
            _ => Err(CfbError::CodePageNotFound(codepage)),
        }
    }

    // The bytes by the page.
    fn append_all(self, bytes: &[u8], s: &mut String) -> Result<(), AllocError>
        ensures ok { OnOk result (string_bytes s.new
            ≡ string_bytes s.old ++ encode_utf8_all (decoded self bytes.now)) }
        ensures grown { IsGrown (string_bytes s.old) (string_bytes s.new) }
    {
        match self {
            XlsEncoding::Utf16 => append_utf16(bytes, s),
            XlsEncoding::Windows1252 => append_windows_1252(bytes, s),
            XlsEncoding::Utf8 => append_utf8(bytes, s),
            XlsEncoding::Latin1 => append_narrow(bytes, s),
        }
    }

    // Units of one byte each, or bytes in the page.
    fn append_string(self, bytes: &[u8], is_narrow: bool, s: &mut String) -> Result<(), AllocError>
        ensures narrow { is_narrow ≡ true → OnOk result (string_bytes s.new
            ≡ string_bytes s.old ++ encode_utf8_all bytes.now) }
        ensures paged { is_narrow ≡ false → OnOk result (string_bytes s.new
            ≡ string_bytes s.old ++ encode_utf8_all (decoded self bytes.now)) }
        ensures grown { IsGrown (string_bytes s.old) (string_bytes s.new) }
    {
        if is_narrow {
            append_narrow(bytes, s)
        } else {
            self.append_all(bytes, s)
        }
    }

    // As `decode_to`, but an error may leave a part of the text.
    fn append_taken(
        self,
        stream: &[u8],
        len: usize,
        s: &mut String,
        high_byte: Option<bool>,
    ) -> Result<(usize, usize), AllocError>
        ensures text { OnOk result (string_bytes s.new ≡ string_bytes s.old
            ++ encode_utf8_all (string_text self high_byte stream.now len)) }
        ensures counts { IfOk result (λ x. x ≡ counts self high_byte stream.now len) }
        ensures grown { IsGrown (string_bytes s.old) (string_bytes s.new) }
    {
        if let Some(true) = high_byte {
            let l = (stream.len() / 2).min(len);
            append_wide(&stream[..2 * l], s)?;
            return Ok((l, 2 * l));
        }
        let l = stream.len().min(len);
        let is_narrow = high_byte.is_some() || matches!(self, XlsEncoding::Utf16);
        self.append_string(&stream[..l], is_narrow, s)?;
        Ok((l, l))
    }

    /// Appends the text of at most `len` characters at the start of a stream, and answers how many
    /// characters and how many bytes were there. `Some(true)`: units of two bytes, the low byte
    /// first. `Some(false)`, and `None` under page 1200: units of one byte. `None` under another
    /// page: bytes in the page. Only running out of memory refuses, and then the text is as it
    /// was.
    pub fn decode_to(
        &self,
        stream: &[u8],
        len: usize,
        s: &mut String,
        high_byte: Option<bool>,
    ) -> Result<(usize, usize), AllocError>
        ensures text { OnOk result (string_bytes s.new ≡ string_bytes s.old
            ++ encode_utf8_all (string_text self.now high_byte stream.now len)) }
        ensures counts { IfOk result (λ x. x ≡ counts self.now high_byte stream.now len) }
        ensures err { OnErr result (string_bytes s.new ≡ string_bytes s.old) }
    {
        let before = s.len();
        let done = self.append_taken(stream, len, s, high_byte);
        if done.is_err() {
            s.truncate(before);
        }
        done
    }

    /// The text of all bytes by the page. Under page 1200 a last odd byte gives U+FFFD after the
    /// text of the units. Only running out of memory refuses.
    pub fn decode_all(&self, alloc: Global, stream: &[u8]) -> Result<String, AllocError>
        ensures { IfOk result (λ t. string_bytes t
            ≡ encode_utf8_all (decoded self.now stream.now)) }
    {
        let mut text = String::new(alloc);
        self.append_all(stream, &mut text)?;
        Ok(text)
    }
}
