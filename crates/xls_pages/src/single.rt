//! Pages of single bytes.

ghost use Rattle.std.specs.Prelude.{◌≡◌, ◌<◌};
ghost use Rattle.xls_pages.specs.Single.{single_character, table_of};

use crate::dos::{
    PAGE_437, PAGE_720, PAGE_737, PAGE_775, PAGE_850, PAGE_852, PAGE_855, PAGE_857, PAGE_858,
    PAGE_860, PAGE_861, PAGE_862, PAGE_863, PAGE_864, PAGE_865, PAGE_866, PAGE_869,
};
use crate::iso::{
    PAGE_20866, PAGE_21866, PAGE_28592, PAGE_28593, PAGE_28594, PAGE_28595, PAGE_28596, PAGE_28597,
    PAGE_28598, PAGE_28599, PAGE_28603, PAGE_28605,
};
use crate::macintosh::{
    PAGE_10000, PAGE_10006, PAGE_10007, PAGE_10010, PAGE_10017, PAGE_10029, PAGE_10079, PAGE_10081,
    PAGE_10082,
};
use crate::windows::{
    PAGE_874, PAGE_1250, PAGE_1251, PAGE_1252, PAGE_1253, PAGE_1254, PAGE_1255, PAGE_1256,
    PAGE_1257, PAGE_1258,
};

/// A page of single bytes, by its number.
#[derive(Clone, Copy, Debug, PartialEq, Eq)]
pub enum SinglePage {
    P437,
    P720,
    P737,
    P775,
    P850,
    P852,
    P855,
    P857,
    P858,
    P860,
    P861,
    P862,
    P863,
    P864,
    P865,
    P866,
    P869,
    P874,
    P1250,
    P1251,
    P1252,
    P1253,
    P1254,
    P1255,
    P1256,
    P1257,
    P1258,
    P10000,
    P10006,
    P10007,
    P10010,
    P10017,
    P10029,
    P10079,
    P10081,
    P10082,
    P20866,
    P21866,
    P28592,
    P28593,
    P28594,
    P28595,
    P28596,
    P28597,
    P28598,
    P28599,
    P28603,
    P28605,
}

impl SinglePage {
    /// The characters of the bytes 80 to FF.
    fn table(self) -> &'static [u16; 128]
        ensures { result.now ≡ table_of self }
    {
        match self {
            SinglePage::P437 => &PAGE_437,
            SinglePage::P720 => &PAGE_720,
            SinglePage::P737 => &PAGE_737,
            SinglePage::P775 => &PAGE_775,
            SinglePage::P850 => &PAGE_850,
            SinglePage::P852 => &PAGE_852,
            SinglePage::P855 => &PAGE_855,
            SinglePage::P857 => &PAGE_857,
            SinglePage::P858 => &PAGE_858,
            SinglePage::P860 => &PAGE_860,
            SinglePage::P861 => &PAGE_861,
            SinglePage::P862 => &PAGE_862,
            SinglePage::P863 => &PAGE_863,
            SinglePage::P864 => &PAGE_864,
            SinglePage::P865 => &PAGE_865,
            SinglePage::P866 => &PAGE_866,
            SinglePage::P869 => &PAGE_869,
            SinglePage::P874 => &PAGE_874,
            SinglePage::P1250 => &PAGE_1250,
            SinglePage::P1251 => &PAGE_1251,
            SinglePage::P1252 => &PAGE_1252,
            SinglePage::P1253 => &PAGE_1253,
            SinglePage::P1254 => &PAGE_1254,
            SinglePage::P1255 => &PAGE_1255,
            SinglePage::P1256 => &PAGE_1256,
            SinglePage::P1257 => &PAGE_1257,
            SinglePage::P1258 => &PAGE_1258,
            SinglePage::P10000 => &PAGE_10000,
            SinglePage::P10006 => &PAGE_10006,
            SinglePage::P10007 => &PAGE_10007,
            SinglePage::P10010 => &PAGE_10010,
            SinglePage::P10017 => &PAGE_10017,
            SinglePage::P10029 => &PAGE_10029,
            SinglePage::P10079 => &PAGE_10079,
            SinglePage::P10081 => &PAGE_10081,
            SinglePage::P10082 => &PAGE_10082,
            SinglePage::P20866 => &PAGE_20866,
            SinglePage::P21866 => &PAGE_21866,
            SinglePage::P28592 => &PAGE_28592,
            SinglePage::P28593 => &PAGE_28593,
            SinglePage::P28594 => &PAGE_28594,
            SinglePage::P28595 => &PAGE_28595,
            SinglePage::P28596 => &PAGE_28596,
            SinglePage::P28597 => &PAGE_28597,
            SinglePage::P28598 => &PAGE_28598,
            SinglePage::P28599 => &PAGE_28599,
            SinglePage::P28603 => &PAGE_28603,
            SinglePage::P28605 => &PAGE_28605,
        }
    }

    /// The character of a byte.
    pub(crate) fn character(self, byte: u8) -> u16
        ensures { result ≡ single_character self byte }
    {
        if byte < 0x80 {
            return u16::from(byte);
        }
        self.table()[usize::from(byte) - 0x80]
    }
}
