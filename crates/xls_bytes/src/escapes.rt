//! Texts with their backslashes, newlines, returns and tabs escaped.

ghost use Rattle.std.specs.Prelude.{◌≡◌, ◌∷◌, ◌++◌, ◌<◌, [], length, take, get_or, MatchOption, IfSome, OnOk, OnErr};
ghost use Rattle.std.specs.List.{flat_map};
ghost use Rattle.std.specs.String.{string_bytes};
ghost use Rattle.std.specs.Str.{chars};
ghost use Rattle.xls_bytes.specs.Escapes.{escaped_char, escaped_text};
ghost use Rattle.xls_bytes.specs.Growth.{IsGrown};

use std::alloc::AllocError;

// The two characters that stand for a byte. None for one that stands for itself.
fn escape_of(byte: u8) -> Option<&'static str>
    ensures { MatchOption result (escaped_char byte ≡ byte ∷ [])
        (λ x. (x.now ≡ escaped_char byte) × (byte < 128)) }
{
    match byte {
        b'\\' => Some("\\\\"),
        b'\n' => Some("\\n"),
        b'\r' => Some("\\r"),
        b'\t' => Some("\\t"),
        _ => None,
    }
}

// The index of the first byte that doesn't stand for itself, and what stands for it.
fn first_escape(bytes: &[u8]) -> Option<(usize, &'static str)>
    ensures none { MatchOption result (flat_map escaped_char bytes.now ≡ bytes.now) (λ x.
        flat_map escaped_char (take x.0 bytes.now) ≡ take x.0 bytes.now) }
    ensures some { IfSome result (λ x. (x.0 < length bytes.now) × (get_or bytes.now x.0 0 < 128)
        × (x.1.now ≡ escaped_char (get_or bytes.now x.0 0))) }
{
    for i in 0..bytes.len() {
        if let Some(escape) = escape_of(bytes[i]) {
            return Some((i, escape));
        }
    }
    None
}

// The text up to the first character that doesn't stand for itself, what stands for that, and the
// text after it.
fn first_stretch(text: &str) -> Option<(&str, &'static str, &str)>
    ensures whole { MatchOption result (flat_map escaped_char text.now ≡ text.now) (λ x.
        flat_map escaped_char text.now ≡ x.0.now ++ (x.1.now ++ flat_map escaped_char x.2.now)) }
    ensures shorter { IfSome result (λ x. length x.2.now < length text.now) }
{
    let (at, escape) = first_escape(text.as_bytes())?;
    let (plain, others) = text.split_at(at);
    let (_, after) = others.split_at(1);
    Some((plain, escape, after))
}

// As `push_escaped`, but an error may leave a part of the text.
fn append_escaped(text: &str, buf: &mut String) -> Result<(), AllocError>
    ensures ok { OnOk result (string_bytes buf.new
        ≡ string_bytes buf.old ++ flat_map escaped_char text.now) }
    ensures grown { IsGrown (string_bytes buf.old) (string_bytes buf.new) }
{
    let mut rest = text;
    'stretches: while let Some((plain, escape, after)) = first_stretch(rest) {
        buf.push_str(plain)?;
        buf.push_str(escape)?;
        rest = after;
    }
    buf.push_str(rest)?;
    Ok(())
}

/// Appends a text with its backslashes, newlines, returns and tabs written `\\`, `\n`, `\r` and
/// `\t`. A stretch without them is appended in one piece. Only running out of memory refuses, and
/// then `buf` is as it was.
pub fn push_escaped(text: &str, buf: &mut String) -> Result<(), AllocError>
    ensures ok { OnOk result (string_bytes buf.new
        ≡ string_bytes buf.old ++ escaped_text (chars text.now)) }
    ensures err { OnErr result (string_bytes buf.new ≡ string_bytes buf.old) }
{
    let before = buf.len();
    let done = append_escaped(text, buf);
    if done.is_err() {
        buf.truncate(before);
    }
    done
}
