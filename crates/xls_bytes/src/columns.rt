//! Columns by letters.

ghost use Rattle.std.specs.Prelude.{◌≡◌, ◌++◌, OnOk, OnErr};
ghost use Rattle.std.specs.String.{string_bytes};
ghost use Rattle.std.specs.Str.{IsAscii};
ghost use Rattle.xls_bytes.specs.Columns.{column_name};

use std::alloc::AllocError;
use std::str::from_utf8;

// ASCII is text as it stands.
fn push_ascii(letters: &[u8], buf: &mut String) -> Result<(), AllocError>
    requires { IsAscii letters.now }
    ensures ok { OnOk result (string_bytes buf.new ≡ string_bytes buf.old ++ letters.now) }
    ensures err { OnErr result (string_bytes buf.new ≡ string_bytes buf.old) }
{
    buf.push_str(from_utf8(letters).unwrap())
}

/// Appends the name of a column, counted from 0: 0 is `A`, 25 `Z`, 26 `AA`. A name has at most
/// seven letters. Only running out of memory refuses, and then the text is as it was.
pub fn push_column(col: u32, buf: &mut String) -> Result<(), AllocError>
    ensures ok { OnOk result (string_bytes buf.new ≡ string_bytes buf.old ++ column_name col) }
    ensures err { OnErr result (string_bytes buf.new ≡ string_bytes buf.old) }
{
    let mut letters = [0u8; 7];
    let mut start = 7;
    let mut left = col as u64 + 1;
    'letters: while left > 0 {
        start -= 1;
        letters[start] = b'A' + ((left - 1) % 26) as u8;
        left = (left - 1) / 26;
    }
    push_ascii(&letters[start..], buf)
}
