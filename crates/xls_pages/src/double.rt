//! Pages of pairs: a lead byte and a trail byte are one character.

ghost use Rattle.std.specs.Prelude.{◌≡◌, ◌<◌, true, [], ◌∷◌, length, slice_index_or, IfSome, MatchOption};
ghost use Rattle.xls_pages.specs.Double.{alone, are_one, character_or, double_text, high_trail, is_lead, low_trail, one_character, pair, pairs_of, row_of};

use crate::pairs_932::PAIRS_932;
use crate::pairs_936::PAIRS_936;
use crate::pairs_949::PAIRS_949;
use crate::pairs_950::PAIRS_950;

/// A page of pairs, by its number.
#[derive(Clone, Copy, Debug, PartialEq, Eq)]
pub enum DoublePage {
    /// Japanese.
    P932,
    /// Simplified Chinese.
    P936,
    /// Korean.
    P949,
    /// Traditional Chinese.
    P950,
}

impl DoublePage {
    /// The character of a byte from 80 on that stands alone; 0 where it doesn't.
    pub(crate) fn alone(self, byte: u8) -> u16
        ensures { result ≡ alone self byte }
    {
        match self {
            DoublePage::P932 if byte == 0x80 => 0x80,
            DoublePage::P932 if byte >= 0xA1 && byte <= 0xDF => 0xFF61 + u16::from(byte - 0xA1),
            DoublePage::P936 if byte == 0x80 => 0x20AC,
            DoublePage::P932 | DoublePage::P936 | DoublePage::P949 | DoublePage::P950 => 0,
        }
    }

    /// Whether a byte leads a pair.
    pub(crate) fn is_lead(self, byte: u8) -> bool
        ensures { result ≡ is_lead self byte }
    {
        match self {
            DoublePage::P932 => { (byte >= 0x81 && byte <= 0x9F) || (byte >= 0xE0 && byte <= 0xFC) }
            DoublePage::P936 | DoublePage::P949 | DoublePage::P950 => byte >= 0x81 && byte <= 0xFE,
        }
    }

    /// The trail bytes of the columns of the table, the first and the last.
    fn trails(self) -> (u8, u8)
        ensures low { result.0 ≡ low_trail self }
        ensures high { result.1 ≡ high_trail self }
    {
        match self {
            DoublePage::P932 => (0x40, 0xFC),
            DoublePage::P936 | DoublePage::P950 => (0x40, 0xFE),
            DoublePage::P949 => (0x41, 0xFE),
        }
    }

    /// The row of a lead byte.
    fn row(self, lead: u8) -> usize
        requires { is_lead self lead ≡ true }
        ensures { result ≡ row_of self lead }
    {
        match self {
            DoublePage::P932 if lead >= 0xE0 => usize::from(lead) - 0xC1,
            DoublePage::P932 | DoublePage::P936 | DoublePage::P949 | DoublePage::P950 => {
                usize::from(lead) - 0x81
            }
        }
    }

    /// The unit at an index of the table.
    fn unit(self, at: usize) -> u16
        requires { at < length (pairs_of self) }
        ensures { result ≡ slice_index_or (pairs_of self) at 0 }
    {
        match self {
            DoublePage::P932 => PAIRS_932[at],
            DoublePage::P936 => PAIRS_936[at],
            DoublePage::P949 => PAIRS_949[at],
            DoublePage::P950 => PAIRS_950[at],
        }
    }

    /// The character of a pair; 0 where it has none.
    pub(crate) fn pair(self, lead: u8, trail: u8) -> u16
        ensures { result ≡ pair self lead trail }
    {
        let (low, high) = self.trails();
        if !self.is_lead(lead) || trail < low || trail > high {
            return 0;
        }
        let width = usize::from(high - low) + 1;
        self.unit(self.row(lead) * width + usize::from(trail - low))
    }

    /// The character of a byte that is not taken together with the next.
    fn one(self, byte: u8) -> u16
        ensures { result ≡ one_character self byte }
    {
        if byte < 0x80 {
            return u16::from(byte);
        }
        character_or(self.alone(byte))
    }

    /// Whether a byte and the next are one character.
    fn are_one(self, lead: u8, trail: u8) -> bool
        ensures { result ≡ are_one self lead trail }
    {
        self.is_lead(lead) && (self.pair(lead, trail) != 0 || trail >= 0x80)
    }

    /// The first character of bytes, and what stands behind it.
    pub(crate) fn first(self, bytes: &[u8]) -> Option<(u16, &[u8])>
        ensures text { MatchOption result (bytes.now ≡ []) (λ x. double_text self bytes.now ≡ x.0 ∷ double_text self x.1.now) }
        ensures shorter { IfSome result (λ x. length x.1.now < length bytes.now) }
    {
        let (byte, after) = bytes.split_first()?;
        let Some((next, later)) = after.split_first() else {
            return Some((self.one(*byte), after));
        };
        if self.are_one(*byte, *next) {
            return Some((character_or(self.pair(*byte, *next)), later));
        }
        Some((self.one(*byte), after))
    }
}

/// U+FFFD where there is no character.
fn character_or(unit: u16) -> u16
    ensures { result ≡ character_or unit }
{
    if unit == 0 { 0xFFFD } else { unit }
}
