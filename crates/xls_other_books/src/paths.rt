//! The path of a workbook, coded or as it stands.

ghost use Rattle.std.specs.Prelude.{◌≡◌, ◌≤◌, ◌++◌, ◌∷◌, [], drop, length, IfOk, OnOk};
ghost use Rattle.std.specs.Str.{chars};
ghost use Rattle.xls_strings.specs.Texts.{text_of};
ghost use Rattle.xls_other_books.specs.Paths as paths;
ghost use Rattle.xls_other_books.specs.Paths.{Advances, target_view};

use crate::books::Linked;
use crate::texts::{copied, no_text, push_char, push_text};
use std::alloc::{AllocError, Global};
use xls_bytes::{first_char, split_at_first};

/// What a path tells: the kind of what is linked, its path and its topic.
#[derive(Drop)]
pub(crate) struct Target {
    pub(crate) linked: Linked,
    pub(crate) path: String,
    pub(crate) topic: String,
}

// What follows the first character, if there is one.
fn skip_char(text: &str) -> &str
    ensures { chars result.now ≡ drop 1 (chars text.now) }
{
    match first_char(text) {
        Some((_, rest)) => rest,
        None => text,
    }
}

// Appends what stands for a volume.
fn push_volume(letter: char, out: &mut String) -> Result<(), AllocError>
    ensures { OnOk result (text_of out.new ≡ text_of out.old ++ paths.volume letter) }
{
    if letter == '@' {
        return push_text("\\\\", out);
    }
    push_char(letter, out)?;
    push_text(":\\", out)
}

// Appends what stands for a character that is no volume and no end of the code.
fn push_plain(c: char, out: &mut String) -> Result<(), AllocError>
    ensures { OnOk result (text_of out.new ≡ text_of out.old ++ paths.plain c) }
{
    match c {
        '\u{2}' | '\u{3}' => push_char('\\', out),
        '\u{4}' => push_text("..\\", out),
        _ => push_char(c, out),
    }
}

// Appends a volume, and gives what follows it.
fn push_after_1<'a>(rest: &'a str, out: &mut String) -> Result<&'a str, AllocError>
    ensures step { IfOk result (λ left. Advances (1 ∷ chars rest.now) (text_of out.old) left.now (text_of out.new)) }
    ensures shorter { IfOk result (λ left. length left.now ≤ length rest.now) }
{
    match first_char(rest) {
        Some((letter, others)) => {
            push_volume(letter, out)?;
            Ok(others)
        }
        None => Ok(rest),
    }
}

// Appends what stands for the first character, or for it and what follows, and gives what is left.
fn push_next<'a>(c: char, rest: &'a str, out: &mut String) -> Result<&'a str, AllocError>
    ensures step { IfOk result (λ left. Advances (c ∷ chars rest.now) (text_of out.old) left.now (text_of out.new)) }
    ensures shorter { IfOk result (λ left. length left.now ≤ length rest.now) }
{
    match c {
        '\u{1}' => push_after_1(rest, out),
        '\u{5}' => {
            push_text(skip_char(rest), out)?;
            Ok("")
        }
        _ => {
            push_plain(c, out)?;
            Ok(rest)
        }
    }
}

// Appends what a coded path stands for.
fn push_decoded(coded: &str, out: &mut String) -> Result<(), AllocError>
    ensures { OnOk result (text_of out.new ≡ text_of out.old ++ paths.decoded (chars coded.now)) }
{
    let mut rest = coded;
    'chars: while let Some((c, others)) = first_char(rest) {
        rest = push_next(c, others, out)?;
    }
    Ok(())
}

// Appends the folder that the first character of a coded path stands for, and gives what is left.
fn push_folder<'a>(coded: &'a str, out: &mut String) -> Result<&'a str, AllocError>
    ensures { IfOk result (λ left.
        text_of out.new ++ paths.decoded (chars left.now) ≡ text_of out.old ++ paths.decoded_path (chars coded.now)) }
{
    match first_char(coded) {
        Some(('\u{6}', rest)) => {
            push_text("<startup>\\", out)?;
            Ok(rest)
        }
        Some(('\u{7}', rest)) => {
            push_text("<alternate startup>\\", out)?;
            Ok(rest)
        }
        Some(('\u{8}', rest)) => {
            push_text("<library>\\", out)?;
            Ok(rest)
        }
        _ => Ok(coded),
    }
}

// What a coded path stands for.
fn decoded_path(alloc: Global, coded: &str) -> Result<String, AllocError>
    ensures { IfOk result (λ text. text_of text ≡ paths.decoded_path (chars coded.now)) }
{
    let mut text = no_text(alloc);
    let rest = push_folder(coded, &mut text)?;
    push_decoded(rest, &mut text)?;
    Ok(text)
}

// What a path of a workbook or a program tells that isn't coded.
fn plain_target(alloc: Global, path: &str) -> Result<Target, AllocError>
    ensures { IfOk result (λ target. target_view target ≡ paths.plain_target (chars path.now)) }
{
    match split_at_first(path, '\u{3}') {
        Some((program, topic)) => Ok(Target {
            linked: Linked::Program,
            path: copied(alloc, program)?,
            topic: copied(alloc, topic)?,
        }),
        None => Ok(Target {
            linked: Linked::Book,
            path: copied(alloc, path)?,
            topic: no_text(alloc),
        }),
    }
}

// Whether a text is this character alone.
fn is_alone(c: char, rest: &str) -> bool
    ensures { result ≡ paths.is_nothing (c ∷ chars rest.now) }
{
    matches!(c, '\0' | '\u{2}' | ' ') && first_char(rest).is_none()
}

// What a path tells that begins with this character.
fn target_by(alloc: Global, path: &str, c: char, rest: &str) -> Result<Target, AllocError>
    requires { chars path.now ≡ c ∷ chars rest.now }
    ensures { IfOk result (λ target. target_view target ≡ paths.target_of (chars path.now)) }
{
    if is_alone(c, rest) {
        return Ok(Target {
            linked: Linked::Nothing,
            path: no_text(alloc),
            topic: no_text(alloc),
        });
    }
    if c <= '\u{1}' {
        return Ok(Target {
            linked: Linked::Book,
            path: decoded_path(alloc, rest)?,
            topic: no_text(alloc),
        });
    }
    plain_target(alloc, path)
}

/// What a path tells, [MS-XLS] 2.5.277.
pub(crate) fn target_of(alloc: Global, path: &str) -> Result<Target, AllocError>
    ensures { IfOk result (λ target. target_view target ≡ paths.target_of (chars path.now)) }
{
    match first_char(path) {
        Some((c, rest)) => target_by(alloc, path, c, rest),
        None => plain_target(alloc, path),
    }
}
