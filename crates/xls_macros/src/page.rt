//! The page of a project.

ghost use Rattle.std.specs.Prelude.{◌≡◌, ◌≤◌, length};
ghost use Rattle.xls_macros.specs.Page.{HasHeader, HasPage, number_place};

use xls_bytes::read_u16;
use xls_text::XlsEncoding;

// Where the number of the page stands in a directory.
fn number_place(directory: &[u8]) -> usize
    requires { 12 ≤ length directory.now }
    ensures { result ≡ number_place directory.now }
{
    if read_u16(&directory[10..]) == 0x4A {
        46
    } else {
        36
    }
}

/// The page of a directory that has been read.
pub(crate) fn page_of(directory: &[u8]) -> XlsEncoding
    requires { HasHeader directory.now }
    ensures { HasPage directory.now result }
{
    let place = number_place(directory);
    let (_, number) = directory.split_at(place);
    match XlsEncoding::from_codepage(read_u16(number)) {
        Ok(page) => page,
        Err(_) => unreachable!(),
    }
}
