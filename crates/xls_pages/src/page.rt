//! The pages whose tables stand here, and texts by them.

ghost use Rattle.std.specs.Prelude.{◌≡◌, ◌<◌, ◌++◌, [], ◌∷◌, length, IfSome, MatchOption, OnErr, OnOk};
ghost use Rattle.std.specs.Str.{encode_utf8_all};
ghost use Rattle.std.specs.String.{string_bytes};
ghost use Rattle.xls_bytes.specs.Growth.{IsGrown};
ghost use Rattle.xls_pages.specs.Pages.{decoded, page_of, scalar, units};

use crate::double::DoublePage;
use crate::single::SinglePage;
use std::alloc::AllocError;

/// A code page whose table stands here. No byte-order mark is looked for or dropped.
#[derive(Clone, Copy, Debug, PartialEq, Eq)]
pub enum CodePage {
    /// Each byte is a character.
    Single(SinglePage),
    /// A byte below 80 is a character, others stand alone or in pairs.
    Double(DoublePage),
}

/// The character of a unit; half of a pair of UTF-16 is none.
fn scalar(unit: u16) -> char
    ensures { result ≡ scalar unit }
{
    match char::from_u32(u32::from(unit)) {
        Some(character) => character,
        None => '\u{FFFD}',
    }
}

/// Appends the text of bytes in a page, but an error may leave a part of it.
fn append_text(page: CodePage, bytes: &[u8], text: &mut String) -> Result<(), AllocError>
    ensures ok { OnOk result (string_bytes text.new
        ≡ string_bytes text.old ++ encode_utf8_all (decoded page bytes.now)) }
    ensures grown { IsGrown (string_bytes text.old) (string_bytes text.new) }
{
    let mut rest = bytes;
    'characters: while let Some((unit, after)) = page.first(rest) {
        text.push(scalar(unit))?;
        rest = after;
    }
    Ok(())
}

impl CodePage {
    /// The page of a number of a CodePage record ([MS-XLS] 2.4.52), of a property section or of a macro project. None
    /// for 1200, 28591 and 65001, which have no table, and for every page that isn't known. 32768 is 10000; 32769 and
    /// 367 are 1252.
    pub fn of(number: u16) -> Option<CodePage>
        ensures { result ≡ page_of number }
    {
        Some(match number {
            437 => CodePage::Single(SinglePage::P437),
            720 => CodePage::Single(SinglePage::P720),
            737 => CodePage::Single(SinglePage::P737),
            775 => CodePage::Single(SinglePage::P775),
            850 => CodePage::Single(SinglePage::P850),
            852 => CodePage::Single(SinglePage::P852),
            855 => CodePage::Single(SinglePage::P855),
            857 => CodePage::Single(SinglePage::P857),
            858 => CodePage::Single(SinglePage::P858),
            860 => CodePage::Single(SinglePage::P860),
            861 => CodePage::Single(SinglePage::P861),
            862 => CodePage::Single(SinglePage::P862),
            863 => CodePage::Single(SinglePage::P863),
            864 => CodePage::Single(SinglePage::P864),
            865 => CodePage::Single(SinglePage::P865),
            866 => CodePage::Single(SinglePage::P866),
            869 => CodePage::Single(SinglePage::P869),
            874 => CodePage::Single(SinglePage::P874),
            1250 => CodePage::Single(SinglePage::P1250),
            1251 => CodePage::Single(SinglePage::P1251),
            1252 => CodePage::Single(SinglePage::P1252),
            1253 => CodePage::Single(SinglePage::P1253),
            1254 => CodePage::Single(SinglePage::P1254),
            1255 => CodePage::Single(SinglePage::P1255),
            1256 => CodePage::Single(SinglePage::P1256),
            1257 => CodePage::Single(SinglePage::P1257),
            1258 => CodePage::Single(SinglePage::P1258),
            10000 => CodePage::Single(SinglePage::P10000),
            10006 => CodePage::Single(SinglePage::P10006),
            10007 => CodePage::Single(SinglePage::P10007),
            10010 => CodePage::Single(SinglePage::P10010),
            10017 => CodePage::Single(SinglePage::P10017),
            10029 => CodePage::Single(SinglePage::P10029),
            10079 => CodePage::Single(SinglePage::P10079),
            10081 => CodePage::Single(SinglePage::P10081),
            10082 => CodePage::Single(SinglePage::P10082),
            20866 => CodePage::Single(SinglePage::P20866),
            21866 => CodePage::Single(SinglePage::P21866),
            28592 => CodePage::Single(SinglePage::P28592),
            28593 => CodePage::Single(SinglePage::P28593),
            28594 => CodePage::Single(SinglePage::P28594),
            28595 => CodePage::Single(SinglePage::P28595),
            28596 => CodePage::Single(SinglePage::P28596),
            28597 => CodePage::Single(SinglePage::P28597),
            28598 => CodePage::Single(SinglePage::P28598),
            28599 => CodePage::Single(SinglePage::P28599),
            28603 => CodePage::Single(SinglePage::P28603),
            28605 => CodePage::Single(SinglePage::P28605),
            932 => CodePage::Double(DoublePage::P932),
            936 => CodePage::Double(DoublePage::P936),
            949 => CodePage::Double(DoublePage::P949),
            950 => CodePage::Double(DoublePage::P950),
            32768 => CodePage::Single(SinglePage::P10000),
            32769 => CodePage::Single(SinglePage::P1252),
            367 => CodePage::Single(SinglePage::P1252),
            _ => return None,
        })
    }

    /// The unit of the first character of bytes, and what stands behind it.
    fn first(self, bytes: &[u8]) -> Option<(u16, &[u8])>
        ensures text { MatchOption result (bytes.now ≡ []) (λ x. units self bytes.now ≡ x.0 ∷ units self x.1.now) }
        ensures shorter { IfSome result (λ x. length x.1.now < length bytes.now) }
    {
        match self {
            CodePage::Single(page) => {
                let (byte, after) = bytes.split_first()?;
                Some((page.character(*byte), after))
            }
            CodePage::Double(page) => page.first(bytes),
        }
    }

    /// Appends the text of bytes in the page. A byte or a pair that has no character is U+FFFD, and no byte below 80 is
    /// lost. Only running out of memory refuses, and then the text is as it was.
    pub fn push_text(self, bytes: &[u8], text: &mut String) -> Result<(), AllocError>
        ensures ok { OnOk result (string_bytes text.new
            ≡ string_bytes text.old ++ encode_utf8_all (decoded self bytes.now)) }
        ensures err { OnErr result (string_bytes text.new ≡ string_bytes text.old) }
    {
        let before = text.len();
        let done = append_text(self, bytes, text);
        if done.is_err() {
            text.truncate(before);
        }
        done
    }
}
