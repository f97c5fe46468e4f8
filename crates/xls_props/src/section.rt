//! The sections of a property stream.

ghost use Rattle.std.specs.Prelude.{◌≡◌, ◌<◌, ◌^◌, IfOk};
ghost use Rattle.std.specs.Option.{option_map};
ghost use Rattle.std.specs.String.{string_bytes};
ghost use Rattle.xls_props.specs.Sections.{sized_at, pair_at, section_in, section_of, section_from, field_of, version_of, section_names, customs_in};
ghost use Rattle.xls_props.specs.Values.{Shows};
ghost use Rattle.xls_props.specs.Names.{HasNames};
ghost use Rattle.xls_props.specs.Custom.{HasLast};

use crate::bytes::{bytes_at, u16_at, u32_at};
use crate::custom::customs_of;
use crate::entries::{Entry, entries_of, first_of};
use crate::names::{Names, names_at};
use crate::values::{app_version, field, page_in};
use std::alloc::{AllocError, Global};
use std::collections::BTreeMap;
use std::marker::Model;
use xls_text::XlsEncoding;

// The bytes from an offset on, over the size that stands there, cut at the end.
fn sized_at(stream: &[u8], offset: usize) -> Option<&[u8]>
    ensures { option_map (λ x. x.now) result ≡ sized_at stream.now offset }
{
    let size = u32_at(stream, offset)? as usize;
    let (_, rest) = stream.split_at(offset);
    let (section, _) = rest.split_at(size.min(rest.len()));
    Some(section)
}

// The section of the pair at a place, if the pair has this identifier.
fn pair_at<'a>(id: &[u8], stream: &'a [u8], at: usize) -> Option<&'a [u8]>
    requires { at < 2 ^ 40 }
    ensures { option_map (λ x. x.now) result ≡ pair_at id.now stream.now at }
{
    let found = bytes_at(stream, at, 16)?;
    if found != id {
        return None;
    }
    let offset = u32_at(stream, at + 16)?;
    sized_at(stream, offset as usize)
}

// The section of an identifier, by at most two pairs.
fn section_in<'a>(id: &[u8], stream: &'a [u8], count: u32) -> Option<&'a [u8]>
    ensures { option_map (λ x. x.now) result ≡ section_in id.now stream.now count }
{
    if count == 0 {
        return None;
    }
    if let Some(section) = pair_at(id, stream, 28) {
        return Some(section);
    }
    if count < 2 {
        return None;
    }
    pair_at(id, stream, 48)
}

// The section of an identifier in a stream.
fn section_of<'a>(id: &[u8], stream: &'a [u8]) -> Option<&'a [u8]>
    ensures { option_map (λ x. x.now) result ≡ section_of id.now stream.now }
{
    if u16_at(stream, 0)? != 0xFFFE {
        return None;
    }
    let count = u32_at(stream, 24)?;
    section_in(id, stream, count)
}

/// The bytes of the section of an identifier, none where it isn't there.
pub(crate) fn section_from<'a>(id: &[u8], stream: Option<&'a [u8]>) -> &'a [u8]
    ensures { result.now ≡ section_from id.now (option_map (λ x. x.now) stream.entry) }
{
    let Some(stream) = stream else {
        return &[];
    };
    match section_of(id, stream) {
        Some(section) => section,
        None => &[],
    }
}

/// A section with its entries and its page. Contracts see its bytes.
#[derive(Drop)]
pub(crate) struct Section<'a> {
    bytes: &'a [u8],
    entries: Vec<Entry>,
    page: XlsEncoding,
}

impl<'a> Model for Section<'a> {
    ghost use Rattle.std.specs.Prelude.{◌≡◌, ℕ, List};
    ghost use Rattle.xls_props.specs.Entries.{entries_of};
    ghost use Rattle.xls_props.specs.Values.{page_in};

    ghost Value = { List ℕ };

    ghost view = { λ section. section.bytes.now };

    ghost invariant = { λ section. (section.entries.items ≡ entries_of section.bytes.now)
        × (section.page ≡ page_in (entries_of section.bytes.now) section.bytes.now) };
}

impl<'a> Section<'a> {
    pub(crate) fn new(alloc: Global, bytes: &'a [u8]) -> Result<Section<'a>, AllocError>
        ensures { IfOk result (λ section. section ≡ bytes.now) }
    {
        let entries = entries_of(alloc, bytes)?;
        let page = page_in(&entries, bytes);
        Ok(Section {
            bytes,
            entries,
            page,
        })
    }

    /// The text of the last entry of a number, unless it is empty.
    pub(crate) fn field(&self, alloc: Global, number: u32) -> Result<Option<String>, AllocError>
        ensures { IfOk result (λ t. Shows (field_of number self.now) t) }
    {
        field(alloc, number, self.bytes, &self.entries, self.page)
    }

    /// The version of the application.
    pub(crate) fn app_version(&self, alloc: Global) -> Result<Option<String>, AllocError>
        ensures { IfOk result (λ t. option_map string_bytes t ≡ version_of self.now) }
    {
        app_version(alloc, self.bytes, &self.entries)
    }

    // The names of the dictionary at the first entry 0.
    fn names(&self, alloc: Global) -> Result<Names, AllocError>
        ensures { IfOk result (λ m. HasNames m (section_names self.now)) }
    {
        match first_of(0, &self.entries) {
            None => Ok(BTreeMap::new(alloc)),
            Some(at) => names_at(alloc, self.page, self.bytes, at as usize),
        }
    }

    /// The custom properties, by their names.
    pub(crate) fn customs(&self, alloc: Global) -> Result<BTreeMap<String, String>, AllocError>
        ensures { IfOk result (λ m. HasLast m (customs_in self.now)) }
    {
        let names = self.names(alloc)?;
        customs_of(alloc, names, self.page, self.bytes, &self.entries)
    }
}
