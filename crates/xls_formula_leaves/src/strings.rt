//! Strings in quotes.

ghost use Rattle.std.specs.Prelude.{◌≡◌, [], ◌∷◌, ◌++◌, OnOk, OnErr, IfOk};
ghost use Rattle.std.specs.Str.{chars};
ghost use Rattle.std.specs.String.{string_bytes};
ghost use Rattle.xls_bytes.specs.Growth.{IsGrown};
ghost use Rattle.xls_text.specs.Pages.{string_text};
ghost use Rattle.xls_strings.specs.Texts.{text_of};
ghost use Rattle.xls_formula_leaves.specs.Constants.{doubled, doubled_one, quoted, str_text};

use crate::appends::append_text;
use std::alloc::{AllocError, Global};
use xls_bytes::first_char;
use xls_text::XlsEncoding;

// Appends a character, a quote twice.
fn append_doubled_char(c: char, out: &mut String) -> Result<(), AllocError>
    ensures ok { OnOk result (text_of out.new ≡ text_of out.old ++ doubled_one c) }
    ensures grown { IsGrown (string_bytes out.old) (string_bytes out.new) }
{
    if c == '"' {
        return out.push_str("\"\"");
    }
    out.push(c)
}

fn append_doubled(text: &str, out: &mut String) -> Result<(), AllocError>
    ensures ok { OnOk result (text_of out.new ≡ text_of out.old ++ doubled (chars text.now)) }
    ensures grown { IsGrown (string_bytes out.old) (string_bytes out.new) }
{
    let mut left = text;
    'characters: while let Some((c, rest)) = first_char(left) {
        append_doubled_char(c, out)?;
        left = rest;
    }
    Ok(())
}

#[tactic(auto, unfolding(std::specs::Prelude::chars))]
fn append_quote(out: &mut String) -> Result<(), AllocError>
    ensures ok { OnOk result (text_of out.new ≡ text_of out.old ++ (0x22 ∷ [])) }
    ensures grown { IsGrown (string_bytes out.old) (string_bytes out.new) }
{
    append_text("\"", out)
}

fn append_quoted(text: &str, out: &mut String) -> Result<(), AllocError>
    ensures ok { OnOk result (text_of out.new ≡ text_of out.old ++ quoted (chars text.now)) }
    ensures grown { IsGrown (string_bytes out.old) (string_bytes out.new) }
{
    append_quote(out)?;
    append_doubled(text, out)?;
    append_quote(out)
}

// The text of a string.
fn decoded(
    alloc: Global,
    page: XlsEncoding,
    high_byte: Option<bool>,
    units: &[u8],
    count: usize,
) -> Result<String, AllocError>
    ensures { IfOk result (λ text. text_of text ≡ string_text page high_byte units.now count) }
{
    let mut text = String::new(alloc);
    page.decode_to(units, count, &mut text, high_byte)?;
    Ok(text)
}

pub(crate) fn append_string(
    alloc: Global,
    page: XlsEncoding,
    high_byte: Option<bool>,
    units: &[u8],
    cch: u16,
    out: &mut String,
) -> Result<(), AllocError>
    ensures ok { OnOk result (text_of out.new ≡ text_of out.old ++ str_text page high_byte units.now cch) }
    ensures grown { IsGrown (string_bytes out.old) (string_bytes out.new) }
{
    let text = decoded(alloc, page, high_byte, units, usize::from(cch))?;
    append_quoted(&text, out)
}

/// Appends a string in quotes, the quotes in it doubled (PtgStr): `cch` units of one byte each, or of two where `high_byte` says so, of
/// which a surrogate by itself is U+FFFD; without a `high_byte` bytes in the page. Only running out of memory refuses, and then `out` is
/// as it was.
pub fn push_string(
    alloc: Global,
    page: XlsEncoding,
    high_byte: Option<bool>,
    units: &[u8],
    cch: u16,
    out: &mut String,
) -> Result<(), AllocError>
    ensures ok { OnOk result (text_of out.new ≡ text_of out.old ++ str_text page high_byte units.now cch) }
    ensures err { OnErr result (string_bytes out.new ≡ string_bytes out.old) }
{
    let before = out.len();
    let done = append_string(alloc, page, high_byte, units, cch, out);
    if done.is_err() {
        out.truncate(before);
    }
    done
}
