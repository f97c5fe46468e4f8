//! Where a link leads: monikers.

ghost use Rattle.std.specs.Prelude.{◌≡◌, ◌++◌, ◌≤◌, ◌==◌, [], None, IfOk, length, take};
ghost use Rattle.std.specs.Int.{from_be_bytes, w64};
ghost use Rattle.std.specs.Str.{chars};
ghost use Rattle.std.specs.String.{string_bytes};
ghost use Rattle.xls_strings.specs.Texts.{text_of};
ghost use Rattle.xls_links.specs.Monikers as monikers;
ghost use Rattle.xls_links.specs.Splitting.{Exactly, Gives};
ghost use Rattle.xls_links.specs.Walking.{target_of};

use crate::damage::{Flaw, Part, Stop};
use crate::items::LinkKind;
use crate::splitting::{split_bytes, split_counted, split_number};
use crate::strings::{above, bytes_text, is_unc, no_text, push_text, units_text, whole_text};
use std::alloc::{AllocError, Global};
use xls_bytes::{read_u16, read_usize};
use xls_text::XlsEncoding;

const ENDS: Flaw = Flaw::EndsIn(Part::Target);

/// The 16 bytes that say the kind of a moniker, as two numbers of eight bytes, the highest first.
#[derive(Clone, Copy, Debug, PartialEq, Eq)]
pub(crate) struct MonikerId {
    first: u64,
    second: u64,
}

/// Where a link leads.
#[derive(Drop)]
pub(crate) struct Target {
    pub(crate) kind: LinkKind,
    pub(crate) text: String,
}

/// The number that eight bytes are, the highest first.
fn be_u64(bytes: &[u8]) -> u64
    requires { length bytes.now ≡ 8 }
    ensures { result ≡ from_be_bytes w64 bytes.now }
{
    u64::from_be_bytes([
        bytes[0], bytes[1], bytes[2], bytes[3], bytes[4], bytes[5], bytes[6], bytes[7],
    ])
}

fn id_of(bytes: &[u8]) -> MonikerId
    requires { length bytes.now ≡ 16 }
    ensures { result ≡ monikers.id_of bytes.now }
{
    let (first, second) = bytes.split_at(8);
    MonikerId {
        first: be_u64(first),
        second: be_u64(second),
    }
}

fn is_id(first: u64, second: u64, id: MonikerId) -> bool
    ensures { result ≡ monikers.is_id first second id }
{
    id.first == first && id.second == second
}

/// A target of a path.
pub(crate) fn path(text: String) -> Target
    ensures { target_of result ≡ monikers.path_of (text_of text) }
{
    let kind = if is_unc(text.as_str()) {
        LinkKind::Unc
    } else {
        LinkKind::File
    };
    Target { kind, text }
}

fn url_at<'b>(alloc: Global, bytes: &'b [u8]) -> Result<(Target, &'b [u8]), Stop>
    ensures { Gives (λ x. (target_of x.0, x.1.now)) result (monikers.url_at bytes.now) }
{
    let (url, rest) = split_counted(bytes, ENDS)?;
    let text = units_text(alloc, url)?;
    Ok((
        Target {
            kind: LinkKind::Url,
            text,
        },
        rest,
    ))
}

/// The path in units where there is one, and else that in bytes.
fn longer_path(alloc: Global, page: XlsEncoding, path: &[u8], more: &[u8]) -> Result<String, Stop>
    ensures { Gives text_of result (monikers.longer_path page path.now more.now) }
{
    if more.is_empty() {
        let text = bytes_text(alloc, page, path)?;
        return Ok(text);
    }
    if more.len() < 6 {
        return Err(Stop::Flawed(ENDS));
    }
    let (_, units) = more.split_at(6);
    let (taken, _) = units.split_at(units.len().min(read_usize(more)));
    let text = whole_text(alloc, taken)?;
    Ok(text)
}

/// A text behind another.
fn joined(first: String, second: &str) -> Result<String, AllocError>
    ensures { IfOk result (λ text. text_of text ≡ text_of first ++ chars second.now) }
{
    let mut text = first;
    push_text(&mut text, second)?;
    Ok(text)
}

/// How often `..\` stands before the path of a file, its path in bytes, that in units, and what follows.
fn split_file(bytes: &[u8]) -> Result<(usize, &[u8], &[u8], &[u8]), Flaw>
    ensures { Exactly (λ x. (x.0, x.1.now, x.2.now, x.3.now)) result (monikers.split_file bytes.now) }
{
    let (up, rest) = split_bytes(bytes, 2, ENDS)?;
    let (path, rest) = split_counted(rest, ENDS)?;
    let (_, rest) = split_bytes(rest, 24, ENDS)?;
    let (more, rest) = split_counted(rest, ENDS)?;
    Ok((read_u16(up) as usize, path, more, rest))
}

fn file_text(
    alloc: Global,
    page: XlsEncoding,
    up: usize,
    path: &[u8],
    more: &[u8],
) -> Result<String, Stop>
    ensures { Gives text_of result (monikers.file_text page up path.now more.now) }
{
    let text = longer_path(alloc, page, path, more)?;
    let before = above(alloc, up)?;
    let whole = joined(before, text.as_str())?;
    Ok(whole)
}

fn file_at<'b>(
    alloc: Global,
    page: XlsEncoding,
    bytes: &'b [u8],
) -> Result<(Target, &'b [u8]), Stop>
    ensures { Gives (λ x. (target_of x.0, x.1.now)) result (monikers.file_at page bytes.now) }
{
    let (up, short, more, rest) = split_file(bytes)?;
    let text = file_text(alloc, page, up, short, more)?;
    Ok((path(text), rest))
}

fn anti_at<'b>(alloc: Global, bytes: &'b [u8]) -> Result<(Target, &'b [u8]), Stop>
    ensures { Gives (λ x. (target_of x.0, x.1.now)) result (monikers.anti_at bytes.now) }
{
    let (count, rest) = split_number(bytes, ENDS)?;
    let text = above(alloc, count)?;
    Ok((
        Target {
            kind: LinkKind::File,
            text,
        },
        rest,
    ))
}

fn item_at<'b>(
    alloc: Global,
    page: XlsEncoding,
    bytes: &'b [u8],
) -> Result<(Target, &'b [u8]), Stop>
    ensures { Gives (λ x. (target_of x.0, x.1.now)) result (monikers.item_at page bytes.now) }
{
    let (delimiter, rest) = split_counted(bytes, ENDS)?;
    let (name, rest) = split_counted(rest, ENDS)?;
    let first = bytes_text(alloc, page, delimiter)?;
    let second = bytes_text(alloc, page, name)?;
    let text = joined(first, second.as_str())?;
    Ok((
        Target {
            kind: LinkKind::File,
            text,
        },
        rest,
    ))
}

/// What follows the 16 bytes of a moniker that isn't made of others.
fn simple_of<'b>(
    alloc: Global,
    page: XlsEncoding,
    id: MonikerId,
    bytes: &'b [u8],
) -> Result<(Target, &'b [u8]), Stop>
    ensures { Gives (λ x. (target_of x.0, x.1.now)) result (monikers.simple_of page id bytes.now) }
{
    if is_id(0xE0C9_EA79_F9BA_CE11, 0x8C82_00AA_004B_A90B, id) {
        return url_at(alloc, bytes);
    }
    if is_id(0x0303_0000_0000_0000, 0xC000_0000_0000_0046, id) {
        return file_at(alloc, page, bytes);
    }
    if is_id(0x0503_0000_0000_0000, 0xC000_0000_0000_0046, id) {
        return anti_at(alloc, bytes);
    }
    if is_id(0x0403_0000_0000_0000, 0xC000_0000_0000_0046, id) {
        return item_at(alloc, page, bytes);
    }
    Err(Stop::Flawed(Flaw::UnknownKind(id.first, id.second)))
}

fn simple_at<'b>(
    alloc: Global,
    page: XlsEncoding,
    bytes: &'b [u8],
) -> Result<(Target, &'b [u8]), Stop>
    ensures { Gives (λ x. (target_of x.0, x.1.now)) result (monikers.simple_at page bytes.now) }
{
    let (id, rest) = split_id(bytes)?;
    simple_of(alloc, page, id, rest)
}

/// The 16 bytes of a moniker, and what follows.
fn split_id(bytes: &[u8]) -> Result<(MonikerId, &[u8]), Flaw>
    ensures { Exactly (λ x. (x.0, x.1.now)) result (monikers.split_id bytes.now) }
{
    let (id, rest) = split_bytes(bytes, 16, ENDS)?;
    Ok((id_of(id), rest))
}

fn joined_kind(before: Option<LinkKind>, kind: LinkKind) -> LinkKind
    ensures { result ≡ monikers.joined_kind before kind }
{
    match before {
        None => kind,
        Some(before) => match kind {
            LinkKind::Url => LinkKind::Url,
            _ => before,
        },
    }
}

fn kind_or_file(kind: Option<LinkKind>) -> LinkKind
    ensures { result ≡ monikers.kind_or_file kind }
{
    match kind {
        None => LinkKind::File,
        Some(kind) => kind,
    }
}

/// So many monikers, whose texts are joined.
fn joined_at<'b>(
    alloc: Global,
    page: XlsEncoding,
    count: usize,
    bytes: &'b [u8],
) -> Result<(Target, &'b [u8]), Stop>
    ensures { Gives (λ x. (target_of x.0, x.1.now)) result (monikers.joined_at page count None [] bytes.now) }
{
    let mut rest = bytes;
    let mut left = count;
    let mut kind = None;
    let mut text = no_text(alloc);
    'monikers: while left > 0 {
        match simple_at(alloc, page, rest) {
            Ok((next, after)) => {
                kind = Some(joined_kind(kind, next.kind));
                push_text(&mut text, next.text.as_str())?;
                rest = after;
                left -= 1;
            }
            Err(stop) => return Err(stop),
        }
    }
    Ok((
        Target {
            kind: kind_or_file(kind),
            text,
        },
        rest,
    ))
}

/// A number of monikers, whose texts are joined.
fn composite_at<'b>(
    alloc: Global,
    page: XlsEncoding,
    bytes: &'b [u8],
) -> Result<(Target, &'b [u8]), Stop>
    ensures { Gives (λ x. (target_of x.0, x.1.now)) result (monikers.composite_at page bytes.now) }
{
    let (count, rest) = split_number(bytes, ENDS)?;
    joined_at(alloc, page, count, rest)
}

/// A moniker, and what follows.
pub(crate) fn moniker_at<'b>(
    alloc: Global,
    page: XlsEncoding,
    bytes: &'b [u8],
) -> Result<(Target, &'b [u8]), Stop>
    ensures { Gives (λ x. (target_of x.0, x.1.now)) result (monikers.moniker_at page bytes.now) }
{
    let (id, rest) = split_id(bytes)?;
    if is_id(0x0903_0000_0000_0000, 0xC000_0000_0000_0046, id) {
        return composite_at(alloc, page, rest);
    }
    simple_of(alloc, page, id, rest)
}
