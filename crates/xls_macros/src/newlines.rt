//! The ends of lines.

ghost use Rattle.std.specs.Prelude.{◌≡◌, ◌++◌, encode_utf8_all, IfOk, OnOk};
ghost use Rattle.std.specs.Str.{chars};
ghost use Rattle.std.specs.String.{string_bytes};
ghost use Rattle.xls_macros.specs.Newlines.{kept, last, place_after, with_newlines};

use std::alloc::{AllocError, Global};

/// Where a text has come.
#[derive(Clone, Copy, Debug, PartialEq, Eq)]
enum Place {
    Start,
    /// Behind a CR.
    Returned,
    Inside,
}

// Where a character leaves a text.
fn place_after(c: char) -> Place
    ensures { result ≡ place_after c }
{
    if c == '\r' {
        Place::Returned
    } else if c == '\n' {
        Place::Start
    } else {
        Place::Inside
    }
}

// Appends what stands for a character.
fn push_kept(place: Place, c: char, text: &mut String) -> Result<(), AllocError>
    ensures { OnOk result (string_bytes text.new ≡ string_bytes text.old ++ encode_utf8_all (kept place c)) }
{
    if c == '\r' {
        text.push('\n')?;
    } else if c != '\n' {
        text.push(c)?;
    } else if place != Place::Returned {
        text.push('\n')?;
    }
    Ok(())
}

// Ends a line that is begun.
fn push_last(place: Place, text: &mut String) -> Result<(), AllocError>
    ensures { OnOk result (string_bytes text.new ≡ string_bytes text.old ++ encode_utf8_all (last place)) }
{
    if place == Place::Inside {
        text.push('\n')?;
    }
    Ok(())
}

/// A text whose lines each end in LF: CR LF and CR are LF, and one stands behind the last line. Only running out of
/// memory refuses.
pub(crate) fn with_newlines(alloc: Global, source: &str) -> Result<String, AllocError>
    ensures { IfOk result (λ text. string_bytes text ≡ encode_utf8_all (with_newlines (chars source.now))) }
{
    let mut text = String::new(alloc);
    let mut place = Place::Start;
    'chars: for c in source.chars() {
        push_kept(place, c, &mut text)?;
        place = place_after(c);
    }
    push_last(place, &mut text)?;
    Ok(text)
}
