//! The names behind a SupBook, and the short strings of names and of references to sheets.

ghost use Rattle.std.specs.Prelude.{◌≡◌, IfOk, OnOk};
ghost use Rattle.xls_parts.specs.PartRecords.{placed_of};
ghost use Rattle.xls_strings.specs.Texts.{text_of};
ghost use Rattle.xls_other_books.specs.Names as names;
ghost use Rattle.xls_other_books.specs.Names.{TakesNames, name_view};

use crate::cursor::Cursor;
use crate::damage::{Damage, DamagedRecord, Flaw};
use crate::texts::no_text;
use crate::types::{EXTERN_NAME, SUP_BOOK};
use std::alloc::{AllocError, Global};
use xls_parts::PartRecord;
use xls_record::Biff;
use xls_strings::split_short;
use xls_text::XlsEncoding;

/// The text of at most so many characters at the start of some bytes, of two bytes each or not where that is said. Only running out
/// of memory refuses.
pub fn text_at(
    alloc: Global,
    encoding: &XlsEncoding,
    bytes: &[u8],
    count: usize,
    high_byte: Option<bool>,
) -> Result<String, AllocError>
    ensures { IfOk result (λ text. text_of text ≡ names.text_at encoding.now high_byte bytes.now count) }
{
    let mut text = String::new(alloc);
    encoding.decode_to(bytes, count, &mut text, high_byte)?;
    Ok(text)
}

/// The text of a short string, ShortXLUnicodeString ([MS-XLS] 2.5.240); none where its count or its flags aren't there. Only
/// running out of memory refuses.
pub fn short_text(
    alloc: Global,
    version: Biff,
    encoding: &XlsEncoding,
    bytes: &[u8],
) -> Result<String, AllocError>
    ensures { IfOk result (λ text. text_of text ≡ names.short_text version encoding.now bytes.now) }
{
    match split_short(bytes, version) {
        Ok((count, high_byte, rest)) => text_at(alloc, encoding, rest, count, high_byte),
        Err(_) => Ok(no_text(alloc)),
    }
}

// The name of an ExternName, or what is wrong with it.
fn name_of(
    alloc: Global,
    encoding: &XlsEncoding,
    r: &PartRecord<'_>,
) -> Result<Result<String, Damage>, AllocError>
    ensures { IfOk result (λ name. name_view name ≡ names.name_of encoding.now (placed_of r.now)) }
{
    if r.body.len() < 7 {
        return Ok(Err(Damage {
            record_name: DamagedRecord::ExternName,
            offset: r.offset,
            flaw: Flaw::Short {
                least: 7,
                found: r.body.len(),
            },
        }));
    }
    let (_, name) = r.body.split_at(6);
    Ok(Ok(short_text(alloc, Biff::Biff8, encoding, name)?))
}

/// The names of the ExternName records up to the next SupBook, which they go past; kept where they are wanted.
pub(crate) fn read_names(
    alloc: Global,
    encoding: &XlsEncoding,
    is_wanted: bool,
    records: &mut Cursor<'_>,
) -> Result<Vec<Result<String, Damage>>, AllocError>
    ensures { IfOk result (λ found. TakesNames encoding.now is_wanted records.old found.items records.new) }
{
    let mut found = Vec::new(alloc);
    'records: while !records.is_at(SUP_BOOK) {
        let Some(r) = records.take() else {
            return Ok(found);
        };
        if is_wanted && r.typ == EXTERN_NAME {
            found.push(name_of(alloc, encoding, &r)?)?;
        }
    }
    Ok(found)
}
