//! The items of the references.

ghost use Rattle.std.specs.Prelude.{◌≡◌, ◌≤◌, ◌<◌, ◌+◌, length, IfOk};
ghost use Rattle.std.specs.Option.{option_map};
ghost use Rattle.std.specs.String.{string_bytes};
ghost use Rattle.xls_vba.specs.Fields.{Gives};
ghost use Rattle.xls_vba.specs.Libids.{libid_view};
ghost use Rattle.xls_vba.specs.Items.{element_of, libid_from, text_from, after_mark, named_from, original_from, second_from, extended_from, control_from, registered_from, project_from, item_from};

use crate::error::{VbaError, VbaPart};
use crate::fields::{id_of, skip, skip_rec, u16_of, var_of};
use crate::libids::{Libid, libid_of};
use std::alloc::{AllocError, Global};
use xls_text::XlsEncoding;

/// A reference item: a name begins a reference; one libid or two; the path of a project.
#[derive(Drop)]
pub(crate) enum Item {
    Named(String),
    Registered(Libid),
    Control(Libid, Libid),
    Project(String),
}

// A length and so many bytes of text.
#[tactic(auto, unfolding(crate::specs::Items::text_from))]
fn text_of(alloc: Global, page: XlsEncoding, bytes: &[u8]) -> Result<(String, &[u8]), VbaError>
    ensures exact { Gives (λ x. (string_bytes x.0, x.1.now)) result (text_from page bytes.now) }
    ensures shorter { IfOk result (λ x. length x.1.now ≤ length bytes.now) }
{
    let (text, rest) = var_of(bytes)?;
    let text = page.decode_all(alloc, text)?;
    Ok((text, rest))
}

// A length and so many bytes of a libid.
#[tactic(auto, unfolding(crate::specs::Items::libid_from))]
fn libid_in(alloc: Global, page: XlsEncoding, bytes: &[u8]) -> Result<(Libid, &[u8]), VbaError>
    ensures exact { Gives (λ x. (libid_view x.0, x.1.now)) result (libid_from page bytes.now) }
    ensures shorter { IfOk result (λ x. length x.1.now ≤ length bytes.now) }
{
    let (libid, rest) = var_of(bytes)?;
    let said = libid_of(alloc, page, libid)?;
    Ok((said, rest))
}

#[tactic(auto, unfolding(crate::specs::Items::named_from))]
fn named_of(
    alloc: Global,
    page: XlsEncoding,
    bytes: &[u8],
) -> Result<(Option<Item>, &[u8]), VbaError>
    ensures exact { Gives (λ x. (option_map element_of x.0, x.1.now)) result
        (named_from page bytes.now) }
    ensures shorter { IfOk result (λ x. length x.1.now ≤ length bytes.now) }
{
    let (name, rest) = text_of(alloc, page, bytes)?;
    let rest = skip_rec(rest, 0x3E)?;
    Ok((Some(Item::Named(name)), rest))
}

#[tactic(auto, unfolding(crate::specs::Items::original_from))]
fn original_of(
    alloc: Global,
    page: XlsEncoding,
    bytes: &[u8],
) -> Result<(Option<Item>, &[u8]), VbaError>
    ensures exact { Gives (λ x. (option_map element_of x.0, x.1.now)) result
        (original_from page bytes.now) }
    ensures shorter { IfOk result (λ x. length x.1.now ≤ length bytes.now) }
{
    let (libid, rest) = libid_in(alloc, page, bytes)?;
    Ok((Some(Item::Registered(libid)), rest))
}

// Skips a name between the two libids of a control.
#[tactic(auto, unfolding(crate::specs::Items::extended_from))]
fn extended_of(bytes: &[u8]) -> Result<&[u8], VbaError>
    ensures exact { Gives (λ x. x.now) result (extended_from bytes.now) }
    ensures shorter { IfOk result (λ x. length x.now ≤ length bytes.now) }
{
    let (_, rest) = var_of(bytes)?;
    let rest = skip_rec(rest, 0x3E)?;
    id_of(rest, 0x30)
}

// Up to the second libid of a control.
#[tactic(auto, unfolding(crate::specs::Items::second_from))]
fn second_of(bytes: &[u8]) -> Result<&[u8], VbaError>
    ensures exact { Gives (λ x. x.now) result (second_from bytes.now) }
    ensures shorter { IfOk result (λ x. length x.now ≤ length bytes.now) }
{
    let (id, rest) = u16_of(bytes)?;
    match id {
        0x30 => Ok(rest),
        0x16 => extended_of(rest),
        _ => Err(VbaError::Unknown {
            typ: VbaPart::ReferenceControl,
            val: id,
        }),
    }
}

#[tactic(auto, unfolding(crate::specs::Items::control_from))]
fn control_of(
    alloc: Global,
    page: XlsEncoding,
    bytes: &[u8],
) -> Result<(Option<Item>, &[u8]), VbaError>
    ensures exact { Gives (λ x. (option_map element_of x.0, x.1.now)) result
        (control_from page bytes.now) }
    ensures shorter { IfOk result (λ x. length x.1.now ≤ length bytes.now) }
{
    let rest = skip(bytes, 4)?;
    let (first, rest) = libid_in(alloc, page, rest)?;
    let rest = skip(rest, 6)?;
    let rest = second_of(rest)?;
    let rest = skip(rest, 4)?;
    let (second, rest) = libid_in(alloc, page, rest)?;
    let rest = skip(rest, 26)?;
    Ok((Some(Item::Control(first, second)), rest))
}

#[tactic(auto, unfolding(crate::specs::Items::registered_from))]
fn registered_of(
    alloc: Global,
    page: XlsEncoding,
    bytes: &[u8],
) -> Result<(Option<Item>, &[u8]), VbaError>
    ensures exact { Gives (λ x. (option_map element_of x.0, x.1.now)) result
        (registered_from page bytes.now) }
    ensures shorter { IfOk result (λ x. length x.1.now ≤ length bytes.now) }
{
    let rest = skip(bytes, 4)?;
    let (libid, rest) = libid_in(alloc, page, rest)?;
    let rest = skip(rest, 6)?;
    Ok((Some(Item::Registered(libid)), rest))
}

// A path without `*\C` at its start.
fn after_mark(path: &str) -> &str
    ensures { result.now ≡ after_mark path.now }
{
    match path.strip_prefix("*\\C") {
        None => path,
        Some(rest) => rest,
    }
}

fn path_of(alloc: Global, path: &str) -> Result<String, AllocError>
    ensures { IfOk result (λ t. string_bytes t ≡ after_mark path.now) }
{
    String::from_str(alloc, after_mark(path))
}

#[tactic(auto, unfolding(crate::specs::Items::project_from))]
fn project_of(
    alloc: Global,
    page: XlsEncoding,
    bytes: &[u8],
) -> Result<(Option<Item>, &[u8]), VbaError>
    ensures exact { Gives (λ x. (option_map element_of x.0, x.1.now)) result
        (project_from page bytes.now) }
    ensures shorter { IfOk result (λ x. length x.1.now ≤ length bytes.now) }
{
    let rest = skip(bytes, 4)?;
    let (absolute, rest) = text_of(alloc, page, rest)?;
    let (_, rest) = var_of(rest)?;
    let rest = skip(rest, 6)?;
    let path = path_of(alloc, absolute.as_str())?;
    Ok((Some(Item::Project(path)), rest))
}

/// One item, or None at the end of the references.
#[tactic(auto, unfolding(crate::specs::Items::item_from))]
pub(crate) fn item_of(
    alloc: Global,
    page: XlsEncoding,
    bytes: &[u8],
) -> Result<(Option<Item>, &[u8]), VbaError>
    ensures exact { Gives (λ x. (option_map element_of x.0, x.1.now)) result
        (item_from page bytes.now) }
    ensures shorter { IfOk result (λ x. length x.1.now < length bytes.now) }
{
    let (id, rest) = u16_of(bytes)?;
    match id {
        0x0F => Ok((None, rest)),
        0x16 => named_of(alloc, page, rest),
        0x33 => original_of(alloc, page, rest),
        0x2F => control_of(alloc, page, rest),
        0x0D => registered_of(alloc, page, rest),
        0x0E => project_of(alloc, page, rest),
        _ => Err(VbaError::Unknown {
            typ: VbaPart::CheckId,
            val: id,
        }),
    }
}
