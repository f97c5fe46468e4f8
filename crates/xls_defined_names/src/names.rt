//! The defined names of a workbook.

ghost use Rattle.std.specs.Prelude.{◌≡◌, IfOk, map, length};
ghost use Rattle.std.specs.Option.{option_map};
ghost use Rattle.std.specs.Str.{chars};
ghost use Rattle.xls_bodies.specs.Bodies.{body_of, bytes_of};
ghost use Rattle.xls_parts.specs.PartRecords.{placed_of};
ghost use Rattle.xls_strings.specs.Texts.{text_of};
ghost use Rattle.xls_defined_names.specs.Names as names;
ghost use Rattle.xls_defined_names.specs.Names.{name_view, names_in, record_name, shown};

use crate::fields::stored_name;
use crate::kinds::{NameKinds, kinds_of, no_text};
use std::alloc::{AllocError, Global};
use std::marker::Model;
use xls_bodies::{Bytes, body_of};
use xls_bytes::first_char;
use xls_formula_names::built_in_name;
use xls_parts::{GlobalsRecords, PartRecord};
use xls_ptg::word_at;
use xls_record::Biff;
use xls_stream::types::LBL;
use xls_strings::Strings;
use xls_text::XlsEncoding;

/// A defined name.
#[derive(Debug, Drop)]
pub struct DefinedName {
    /// The place of its record's header in the stream.
    pub offset: u64,
    pub kinds: NameKinds,
    /// The number of its sheet from 1; 0 where it is the workbook's.
    pub sheet: u16,
    /// The name as it is shown.
    pub name: String,
}

/// A name as it is shown: of a built-in one (fBuiltin, of an ExternName too) the text for which its first character stands, if it
/// stands for one. Takes memory for that text; only running out of it refuses.
#[tactic(auto, unfolding(std::specs::Prelude::chars))]
pub fn shown_name(alloc: Global, is_built_in: bool, name: String) -> Result<String, AllocError>
    ensures { IfOk result (λ text. text_of text ≡ shown is_built_in (text_of name)) }
{
    if !is_built_in {
        return Ok(name);
    }
    let Some((first, _)) = first_char(&name) else {
        return Ok(name);
    };
    match built_in_name(first) {
        Some(text) => String::from_str(alloc, text),
        None => Ok(name),
    }
}

/// The name of a record.
fn name_at(
    alloc: Global,
    encoding: &XlsEncoding,
    version: Biff,
    offset: u64,
    body: &[u8],
) -> Result<DefinedName, AllocError>
    ensures { IfOk result (λ name. name_view name ≡ names.name_at encoding.now version offset body.now) }
{
    if body.len() < 14 {
        return Ok(DefinedName {
            offset,
            kinds: kinds_of(0),
            sheet: 0,
            name: no_text(alloc),
        });
    }
    let kinds = kinds_of(word_at(body, 0));
    let stored = stored_name(alloc, encoding, version, body)?;
    let name = shown_name(alloc, kinds.is_built_in, stored)?;
    Ok(DefinedName {
        offset,
        kinds,
        sheet: word_at(body, 8),
        name,
    })
}

/// The name of a Lbl record of the stream.
fn record_name(
    alloc: Global,
    encoding: &XlsEncoding,
    version: Biff,
    stream: &[u8],
    r: &PartRecord<'_>,
) -> Result<DefinedName, AllocError>
    ensures { IfOk result (λ name. name_view name ≡ record_name encoding.now version stream.now (placed_of r.now)) }
{
    let bytes = body_of(stream, 0, r.offset).into_bytes(alloc)?;
    name_at(alloc, encoding, version, r.offset, bytes.as_slice())
}

/// The defined names of a workbook in the order of its records, each with its text once. Contracts see the list of them.
#[derive(Debug, Drop)]
pub struct DefinedNames {
    names: Vec<DefinedName>,
}

impl Model for DefinedNames {
    ghost use Rattle.std.specs.Prelude.{List, map};
    ghost use Rattle.xls_defined_names.specs.Names.{Name, name_view};

    ghost Value = { List Name };

    ghost view = { λ s. map name_view s.names.items };
}

impl DefinedNames {
    /// Those that the globals have, which a workbook's stream begins with. One whose record is shorter than 14 bytes, as in no workbook
    /// that is read, is empty. Only running out of memory refuses.
    pub fn read(
        alloc: Global,
        stream: &[u8],
        version: Biff,
        encoding: &XlsEncoding,
    ) -> Result<DefinedNames, AllocError>
        ensures { IfOk result (λ found. found ≡ names_in encoding.now version stream.now) }
    {
        let mut names = Vec::new(alloc);
        'records: for r in GlobalsRecords::new(stream) {
            if r.typ == LBL {
                names.push(record_name(alloc, encoding, version, stream, &r)?)?;
            }
        }
        Ok(DefinedNames { names })
    }

    /// All of them. Takes no memory.
    pub fn all(&self) -> &[DefinedName]
        ensures { map name_view result.now ≡ self.now }
    {
        &self.names
    }

    /// The name of a number, by which tokens name it: counted from 1. Takes no memory.
    pub fn numbered(&self, number: u32) -> Option<&DefinedName>
        ensures { option_map (λ name. name_view name.now) result ≡ names.numbered number self.now }
    {
        if number == 0 {
            return None;
        }
        self.names.get(number as usize - 1)
    }
}

/// The bytes of a name's record, with those of the Continue records directly behind it, by which `name_formula` answers. Borrowed where
/// there are none; else only running out of memory refuses.
pub fn name_bytes<'a>(
    alloc: Global,
    stream: &'a [u8],
    name: &DefinedName,
) -> Result<Bytes<'a>, AllocError>
    ensures { IfOk result (λ bytes. bytes_of bytes ≡ body_of 0 stream.now name.now.offset) }
{
    body_of(stream, 0, name.offset).into_bytes(alloc)
}

/// Where a name of a sheet's number from 1 holds: the sheet's name, `#REF` where there is no such sheet, and nothing for the workbook,
/// whose number is 0. Takes no memory.
#[tactic(auto, unfolding(std::specs::Prelude::chars))]
pub fn scope_of(sheet: u16, sheets: &Strings) -> &str
    ensures { chars result.now ≡ names.scope_of sheet sheets.now }
{
    if sheet == 0 {
        return "";
    }
    match sheets.get(sheet as usize - 1) {
        Some(name) => name,
        None => "#REF",
    }
}
