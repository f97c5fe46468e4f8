//! What texts are shown as.

ghost use Rattle.std.specs.Prelude.{◌≡◌, ◌++◌, OnOk, OnErr, MatchOption, Some, None};
ghost use Rattle.std.specs.String.{string_bytes};
ghost use Rattle.std.specs.Str.{chars};
ghost use Rattle.std.specs.List.{flat_map};
ghost use Rattle.xls_bytes.specs.Growth.{IsGrown};
ghost use Rattle.xls_number_formats.specs.Texts.{shown_by, shown_token, texts_code};

use crate::formats::Format;
use crate::items::Item;
use crate::section_items::SectionItems;
use std::alloc::AllocError;

// What an item with its own text shows of the text of a cell.
#[tactic(auto, using(crate::proofs::TextLemmas::no_chars))]
fn shown_by<'a>(item: Item, own: &'a str, text: &'a str) -> &'a str
    ensures { chars result.now ≡ shown_by item (chars own.now) (chars text.now) }
{
    match item {
        Item::Text => text,
        Item::Place(_) | Item::Elapsed(_) => "",
        _ => own,
    }
}

// Appends what the items of a section show of a text; an error may leave a part.
fn append_section(
    section: &SectionItems<'_>,
    text: &str,
    buf: &mut String,
) -> Result<(), AllocError>
    ensures ok { OnOk result (chars (string_bytes buf.new)
        ≡ chars (string_bytes buf.old) ++ flat_map (shown_token (chars text.now)) section.now) }
    ensures grown { IsGrown (string_bytes buf.old) (string_bytes buf.new) }
{
    let mut items = section.iter();
    'items: while let Some((item, own)) = items.next() {
        buf.push_str(shown_by(item, own, text))?;
    }
    Ok(())
}

/// The code from the section for texts on, if there is one. Takes no memory.
pub fn texts_code(code: &str) -> Option<&str>
    ensures { MatchOption result (texts_code (chars code.now) ≡ None)
        (λ section. texts_code (chars code.now) ≡ Some (chars section.now)) }
{
    let format = Format::new(code);
    let place = format.texts_at()?;
    format.code(place)
}

/// Appends what a text is shown as by a section for texts: each `@` is the text, a place and elapsed
/// time are nothing, and every other item stands for itself. (Under a code without such a section a
/// text is shown as it is.) Only running out of memory refuses, and then `buf` is as it was.
pub fn push_shown_text(
    section: &SectionItems<'_>,
    text: &str,
    buf: &mut String,
) -> Result<(), AllocError>
    ensures ok { OnOk result (chars (string_bytes buf.new)
        ≡ chars (string_bytes buf.old) ++ flat_map (shown_token (chars text.now)) section.now) }
    ensures err { OnErr result (string_bytes buf.new ≡ string_bytes buf.old) }
{
    let before = buf.len();
    let done = append_section(section, text, buf);
    if done.is_err() {
        buf.truncate(before);
    }
    done
}
