//! Texts from parts, with their apostrophes doubled or as they are.

ghost use Rattle.std.specs.Prelude.{◌≡◌, [], ◌∷◌, ◌++◌, OnOk, OnErr};
ghost use Rattle.std.specs.Str.{chars};
ghost use Rattle.std.specs.String.{string_bytes};
ghost use Rattle.xls_bytes.specs.Growth.{IsGrown};
ghost use Rattle.xls_formula_names.specs.Prefixes.{doubled, doubled_one, in_quotes, quoted};
ghost use Rattle.xls_formula_names.specs.Parts.{joined};

use std::alloc::AllocError;
use xls_bytes::first_char;

// Appends a character, an apostrophe twice. In this file an error may leave a part.
fn append_doubled_char(c: char, out: &mut String) -> Result<(), AllocError>
    ensures ok { OnOk result (chars (string_bytes out.new) ≡ chars (string_bytes out.old) ++ doubled_one c) }
    ensures grown { IsGrown (string_bytes out.old) (string_bytes out.new) }
{
    if c == '\'' {
        return out.push_str("''");
    }
    out.push(c)
}

fn append_doubled(text: &str, out: &mut String) -> Result<(), AllocError>
    ensures ok { OnOk result (chars (string_bytes out.new) ≡ chars (string_bytes out.old) ++ doubled (chars text.now)) }
    ensures grown { IsGrown (string_bytes out.old) (string_bytes out.new) }
{
    let mut left = text;
    'characters: while let Some((c, rest)) = first_char(left) {
        append_doubled_char(c, out)?;
        left = rest;
    }
    Ok(())
}

fn append_all_doubled(parts: &[&str], out: &mut String) -> Result<(), AllocError>
    ensures ok { OnOk result (chars (string_bytes out.new) ≡ chars (string_bytes out.old) ++ doubled (joined parts.now)) }
    ensures grown { IsGrown (string_bytes out.old) (string_bytes out.new) }
{
    'parts: for part in parts {
        append_doubled(part, out)?;
    }
    Ok(())
}

fn append_plain(parts: &[&str], out: &mut String) -> Result<(), AllocError>
    ensures ok { OnOk result (chars (string_bytes out.new) ≡ chars (string_bytes out.old) ++ joined parts.now) }
    ensures grown { IsGrown (string_bytes out.old) (string_bytes out.new) }
{
    'parts: for part in parts {
        out.push_str(part)?;
    }
    Ok(())
}

fn append_apostrophe(out: &mut String) -> Result<(), AllocError>
    ensures ok { OnOk result (chars (string_bytes out.new) ≡ chars (string_bytes out.old) ++ 0x27 ∷ []) }
    ensures grown { IsGrown (string_bytes out.old) (string_bytes out.new) }
{
    out.push_str("'")
}

fn append_quoted(parts: &[&str], out: &mut String) -> Result<(), AllocError>
    ensures ok { OnOk result (chars (string_bytes out.new) ≡ chars (string_bytes out.old) ++ quoted (joined parts.now)) }
    ensures grown { IsGrown (string_bytes out.old) (string_bytes out.new) }
{
    append_apostrophe(out)?;
    append_all_doubled(parts, out)?;
    append_apostrophe(out)
}

pub(crate) fn append_parts(
    parts: &[&str],
    is_quoted: bool,
    out: &mut String,
) -> Result<(), AllocError>
    ensures ok { OnOk result (chars (string_bytes out.new) ≡ chars (string_bytes out.old) ++ in_quotes is_quoted (joined parts.now)) }
    ensures grown { IsGrown (string_bytes out.old) (string_bytes out.new) }
{
    if is_quoted {
        append_quoted(parts, out)
    } else {
        append_plain(parts, out)
    }
}

// Appends parts, between apostrophes or as they are. After an error the text is as it was.
pub(crate) fn push_parts(
    parts: &[&str],
    is_quoted: bool,
    out: &mut String,
) -> Result<(), AllocError>
    ensures ok { OnOk result (chars (string_bytes out.new) ≡ chars (string_bytes out.old) ++ in_quotes is_quoted (joined parts.now)) }
    ensures err { OnErr result (string_bytes out.new ≡ string_bytes out.old) }
{
    let before = out.len();
    let done = append_parts(parts, is_quoted, out);
    if done.is_err() {
        out.truncate(before);
    }
    done
}
