//! The modules of a project.

ghost use Rattle.std.specs.Prelude.{◌≡◌, ◌≤◌, ◌<◌, ◌+◌, length, IfOk, MatchResult, Err};
ghost use Rattle.std.specs.String.{string_bytes};
ghost use Rattle.xls_vba.specs.Fields.{Gives};
ghost use Rattle.xls_vba.specs.Modules.{module_view, module_views, rec_text_from, skip_47, offset_from, cookie_from, kind_from, end_by, end_from, names_from, module_from, modules_from, modules_part};

use crate::error::{VbaError, VbaPart};
use crate::fields::{id_of, rec_of, skip, skip_rec, u16_of, u32_of};
use std::alloc::Global;
use xls_bytes::read_u16;
use xls_text::XlsEncoding;

/// A module of a project.
#[derive(Debug, Drop)]
pub struct Module {
    /// The name.
    pub name: String,
    /// The name of the stream that holds its source.
    pub stream_name: String,
    /// Where the source begins in that stream, in bytes.
    pub text_offset: u32,
}

// The text of a record.
#[tactic(auto, unfolding(crate::specs::Modules::rec_text_from))]
fn rec_text_of(
    alloc: Global,
    page: XlsEncoding,
    expected: u16,
    bytes: &[u8],
) -> Result<(String, &[u8]), VbaError>
    ensures { Gives (λ x. (string_bytes x.0, x.1.now)) result
        (rec_text_from page expected bytes.now) }
{
    let (text, rest) = rec_of(bytes, expected)?;
    let text = page.decode_all(alloc, text)?;
    Ok((text, rest))
}

// Skips the record of the number 0047, which may be left out.
#[tactic(auto, unfolding(crate::specs::Modules::skip_47))]
fn skip_47(bytes: &[u8]) -> Result<&[u8], VbaError>
    ensures { Gives (λ x. x.now) result (skip_47 bytes.now) }
{
    let (id, _) = u16_of(bytes)?;
    if id == 0x47 {
        skip_rec(bytes, 0x47)
    } else {
        Ok(bytes)
    }
}

#[tactic(auto, unfolding(crate::specs::Modules::offset_from))]
fn offset_of(bytes: &[u8]) -> Result<(u32, &[u8]), VbaError>
    ensures { Gives (λ x. (x.0, x.1.now)) result (offset_from bytes.now) }
{
    let rest = id_of(bytes, 0x31)?;
    let rest = skip(rest, 4)?;
    u32_of(rest)
}

// Skips the help context and the cookie.
#[tactic(auto, unfolding(crate::specs::Modules::cookie_from))]
fn cookie_of(bytes: &[u8]) -> Result<&[u8], VbaError>
    ensures { Gives (λ x. x.now) result (cookie_from bytes.now) }
{
    let rest = id_of(bytes, 0x1E)?;
    let rest = skip(rest, 8)?;
    let rest = id_of(rest, 0x2C)?;
    skip(rest, 6)
}

#[tactic(auto, unfolding(crate::specs::Modules::kind_from))]
fn kind_of(bytes: &[u8]) -> Result<&[u8], VbaError>
    ensures { Gives (λ x. x.now) result (kind_from bytes.now) }
{
    let (id, rest) = u16_of(bytes)?;
    if id == 0x21 || id == 0x22 {
        return Ok(rest);
    }
    Err(VbaError::Unknown {
        typ: VbaPart::ModuleKind,
        val: id,
    })
}

// The next number among the last ones of a module.
#[tactic(auto, using(crate::proofs::EndLemmas::end_more, crate::proofs::EndLemmas::end_short))]
fn first_end(bytes: &[u8]) -> Result<(u16, &[u8]), VbaError>
    ensures step { MatchResult result
        (λ x. end_from bytes.now ≡ end_by x.0 x.1.now (end_from x.1.now))
        (λ e. end_from bytes.now ≡ Err e) }
    ensures shorter { IfOk result (λ x. length x.1.now < length bytes.now) }
{
    if bytes.len() < 6 {
        return Err(VbaError::Truncated);
    }
    let (_, number) = bytes.split_at(4);
    let (_, rest) = bytes.split_at(6);
    Ok((read_u16(number), rest))
}

// Skips the last numbers of a module.
fn end_of(bytes: &[u8]) -> Result<&[u8], VbaError>
    ensures { Gives (λ x. x.now) result (end_from bytes.now) }
{
    let mut rest = bytes;
    'numbers: loop {
        let (id, after) = first_end(rest)?;
        if id == 0x2B {
            return skip(after, 4);
        }
        if id != 0x25 && id != 0x28 {
            return Err(VbaError::Unknown {
                typ: VbaPart::RecordId,
                val: id,
            });
        }
        rest = after;
    }
}

// The two names of a module, and what follows the records after them.
#[tactic(auto, unfolding(crate::specs::Modules::names_from))]
fn names_of(
    alloc: Global,
    page: XlsEncoding,
    bytes: &[u8],
) -> Result<((String, String), &[u8]), VbaError>
    ensures { Gives (λ x. ((string_bytes x.0.0, string_bytes x.0.1), x.1.now)) result
        (names_from page bytes.now) }
{
    let (name, rest) = rec_text_of(alloc, page, 0x19, bytes)?;
    let rest = skip_47(rest)?;
    let (stream_name, rest) = rec_text_of(alloc, page, 0x1A, rest)?;
    let rest = skip_rec(rest, 0x32)?;
    let rest = skip_rec(rest, 0x1C)?;
    let rest = skip_rec(rest, 0x48)?;
    Ok(((name, stream_name), rest))
}

#[tactic(auto, unfolding(crate::specs::Modules::module_from))]
fn module_of(alloc: Global, page: XlsEncoding, bytes: &[u8]) -> Result<(Module, &[u8]), VbaError>
    ensures { Gives (λ x. (module_view x.0, x.1.now)) result (module_from page bytes.now) }
{
    let (names, rest) = names_of(alloc, page, bytes)?;
    let (text_offset, rest) = offset_of(rest)?;
    let rest = cookie_of(rest)?;
    let rest = kind_of(rest)?;
    let rest = end_of(rest)?;
    let module = Module {
        name: names.0,
        stream_name: names.1,
        text_offset,
    };
    Ok((module, rest))
}

fn modules_from(
    alloc: Global,
    page: XlsEncoding,
    count: u16,
    bytes: &[u8],
) -> Result<Vec<Module>, VbaError>
    ensures { Gives (λ v. module_views v.items) result (modules_from page count bytes.now) }
{
    let mut modules = Vec::new(alloc);
    let mut rest = bytes;
    'modules: for _ in 0..count {
        let (module, after) = module_of(alloc, page, rest)?;
        modules.push(module)?;
        rest = after;
    }
    Ok(modules)
}

/// The modules of a project.
#[tactic(auto, unfolding(crate::specs::Modules::modules_part))]
pub(crate) fn modules_of(
    alloc: Global,
    page: XlsEncoding,
    bytes: &[u8],
) -> Result<Vec<Module>, VbaError>
    ensures { Gives (λ v. module_views v.items) result (modules_part page bytes.now) }
{
    let rest = skip(bytes, 4)?;
    let (count, rest) = u16_of(rest)?;
    let rest = skip(rest, 8)?;
    modules_from(alloc, page, count, rest)
}
