//! The records of an encrypted stream, and its FilePass.

ghost use Rattle.std.specs.Prelude.{◌≡◌, ◌≤◌, ◌<◌, ◌+◌, ◌-◌, ◌^◌, length, min, IfSome};
ghost use Rattle.xls_passwords.specs.Schemes.{u16_at};
ghost use Rattle.xls_passwords.specs.Records.{is_biff8_after, file_pass_of};

use xls_bytes::read_u16;
use xls_stream::types;

/// The first numbers of a BOF that say a version before BIFF8.
pub const OLDER_VERSIONS: [u16; 6] = [0x0200, 0x0002, 0x0007, 0x0300, 0x0400, 0x0500];

/// Where the FilePass of a stream stands.
#[derive(Clone, Copy, Debug, PartialEq, Eq)]
pub struct FilePass {
    /// The offset of its type and length, four bytes. Its body stands behind them.
    pub offset: usize,
    /// Where its body ends, or the stream before it.
    pub end: usize,
    /// Whether its version is BIFF8.
    pub is_biff8: bool,
}

/// A record in a stream.
#[derive(Clone, Copy)]
pub(crate) struct Place {
    pub typ: u16,
    /// How long its body is by its header.
    pub size: usize,
    /// Where its body begins.
    pub start: usize,
    /// Where the body ends, or the stream before it.
    pub end: usize,
}

/// The record at an offset.
pub(crate) fn place_at(stream: &[u8], offset: usize) -> Place
    requires { offset + 4 ≤ length stream.now }
    ensures typ { result.typ ≡ u16_at offset stream.now }
    ensures size { result.size ≡ u16_at (offset + 2) stream.now }
    ensures fits { result.size < 2 ^ 16 }
    ensures start { result.start ≡ offset + 4 }
    ensures end { result.end ≡ min (offset + 4 + result.size) (length stream.now) }
{
    let typ = read_u16(&stream[offset..]);
    let size = usize::from(read_u16(&stream[offset + 2..]));
    let start = offset + 4;
    let end = start + size.min(stream.len() - start);
    Place {
        typ,
        size,
        start,
        end,
    }
}

// Whether records have the layouts of BIFF8 after this BOF.
fn is_biff8_after(before: bool, body: &[u8]) -> bool
    ensures { result ≡ is_biff8_after before body.now }
{
    if body.len() < 2 {
        return before;
    }
    let first = read_u16(body);
    !OLDER_VERSIONS.contains(&first)
        && !(first == 0 && body.len() >= 4 && read_u16(&body[2..]) == 0x1000)
}

/// Where the first FilePass before the first EOF stands, [MS-XLS] 2.2.10. Takes no memory.
pub fn file_pass(stream: &[u8]) -> Option<FilePass>
    ensures exact { result ≡ file_pass_of stream.now }
    ensures room { IfSome result (λ place. place.offset + 4 ≤ place.end) }
    ensures within { IfSome result (λ place. place.end ≤ length stream.now) }
{
    let mut is_biff8 = true;
    let mut offset = 0;
    'records: while stream.len() - offset >= 4 {
        let place = place_at(stream, offset);
        match place.typ {
            types::EOF => return None,
            types::FILE_PASS => {
                return Some(FilePass {
                    offset,
                    end: place.end,
                    is_biff8,
                });
            }
            types::BOF => {
                is_biff8 = is_biff8_after(is_biff8, &stream[place.start..place.end]);
            }
            _ => {}
        }
        offset = place.end;
    }
    None
}
