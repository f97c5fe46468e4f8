//! Texts at the end of a text. In this crate a function `append_..` may leave a part of its text where memory runs out; the public
//! `push_..` leave nothing.

ghost use Rattle.std.specs.Prelude.{◌≡◌, ◌∷◌, ◌++◌, [], OnOk};
ghost use Rattle.std.specs.Fmt.{decimal};
ghost use Rattle.std.specs.Str.{chars};
ghost use Rattle.std.specs.String.{string_bytes};
ghost use Rattle.xls_bytes.specs.Columns.{column_name};
ghost use Rattle.xls_bytes.specs.Growth.{IsGrown};
ghost use Rattle.xls_strings.specs.Texts.{text_of};

use std::alloc::AllocError;
use xls_bytes::push_column;

/// Appends a text.
pub(crate) fn append_text(text: &str, out: &mut String) -> Result<(), AllocError>
    ensures ok { OnOk result (text_of out.new ≡ text_of out.old ++ chars text.now) }
    ensures grown { IsGrown (string_bytes out.old) (string_bytes out.new) }
{
    out.push_str(text)
}

/// Appends a whole number.
pub(crate) fn append_decimal(n: u32, out: &mut String) -> Result<(), AllocError>
    ensures ok { OnOk result (text_of out.new ≡ text_of out.old ++ decimal n) }
    ensures grown { IsGrown (string_bytes out.old) (string_bytes out.new) }
{
    let mut buffer = itoa::Buffer::new();
    append_text(buffer.format(n), out)
}

/// Appends the letters of a column, counted from 0.
pub(crate) fn append_letters(column: u32, out: &mut String) -> Result<(), AllocError>
    ensures ok { OnOk result (text_of out.new ≡ text_of out.old ++ column_name column) }
    ensures grown { IsGrown (string_bytes out.old) (string_bytes out.new) }
{
    push_column(column, out)
}
