//! Streams whose records are obfuscated with a password.

ghost use Rattle.std.specs.Prelude.{◌≡◌, ◌↔◌, IsTrue};
ghost use Rattle.xls_container.specs.Obfuscation.{after_record, IsObfuscated};

use xls_bytes::read_u16;

/// A FilePass of 6 bytes that says XOR obfuscation.
const OBFUSCATION: [u8; 6] = [0x2F, 0x00, 0x06, 0x00, 0x00, 0x00];

/// Among so many records it is looked for.
const LOOKED_AT: usize = 100;

// What stands after the first record.
fn after_record(bytes: &[u8]) -> &[u8]
    ensures { result.now ≡ after_record bytes.now }
{
    if bytes.len() < 4 {
        return &[];
    }
    let size = read_u16(&bytes[2..]) as usize;
    if bytes.len() < 4 + size {
        return &[];
    }
    &bytes[4 + size..]
}

/// Whether the records of a workbook's stream are obfuscated with a password: one of the first 100 is a
/// FilePass (002F) of 6 bytes, the first two of which are 0 ([MS-XLS] 2.4.117).
pub fn is_obfuscated(stream: &[u8]) -> bool
    ensures { IsTrue result ↔ IsObfuscated stream.now }
{
    let mut rest = stream;
    'records: for _before in 0..LOOKED_AT {
        if rest.starts_with(&OBFUSCATION) {
            return true;
        }
        rest = after_record(rest);
    }
    false
}
