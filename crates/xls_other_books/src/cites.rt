//! What the tokens of a formula cite through references, [MS-XLS] 2.5.198.

ghost use Rattle.std.specs.Prelude.{◌≡◌, ◌<◌, ◌≤◌, ◌++◌, IfOk, IfSome, OnOk, length};
ghost use Rattle.std.specs.Option.{option_to_list};
ghost use Rattle.xls_other_books.specs.Cites as cites;

use std::alloc::{AllocError, Global};
use xls_ptg::{read_ptg, word_at};
use xls_record::{Biff, is_biff8};

/// What a token cites: a place or a name, through a reference.
#[derive(Clone, Copy, Debug, PartialEq, Eq)]
pub(crate) struct Cite {
    /// The number of an entry of ExternSheet, before BIFF8 that of an ExternSheet record.
    pub(crate) reference: u16,
    /// The number of the name, if it is one.
    pub(crate) name: Option<u16>,
}

/// So many bytes, where they are there.
fn more_if(size: usize, rest: &[u8]) -> Option<usize>
    ensures is { result ≡ cites.more_if size rest.now }
    ensures within { IfSome result (λ more. more ≤ length rest.now) }
{
    if rest.len() < size { None } else { Some(size) }
}

/// How many bytes stand behind the first of a token that formulas are spelled by.
fn spelled_more(version: Biff, tokens: &[u8]) -> Option<usize>
    requires { 0 < length tokens.now }
    ensures is { result ≡ cites.spelled_more version tokens.now }
    ensures within { IfSome result (λ more. more < length tokens.now) }
{
    match read_ptg(tokens, version) {
        Ok((_, more)) => Some(more),
        Err(_) => None,
    }
}

/// The size by the version.
fn by_version(version: Biff, size: usize, before: usize) -> usize
    ensures { result ≡ cites.by_version version size before }
{
    if is_biff8(version) { size } else { before }
}

/// The bytes behind the first of a classed token that only other formulas have, by its low five bits.
fn classed_size(version: Biff, low: u8) -> Option<usize>
    ensures { result ≡ cites.classed_size version low }
{
    match low {
        0x06 | 0x07 | 0x08 => Some(6),
        0x09 => Some(2),
        0x0C => Some(by_version(version, 4, 3)),
        0x0D => Some(by_version(version, 8, 6)),
        0x19 => Some(by_version(version, 6, 24)),
        _ => None,
    }
}

/// The bytes behind the first of a token whose number is given.
fn known_size(version: Biff, token: u8) -> Option<usize>
    ensures { result ≡ cites.known_size version token }
{
    if token == 0x02 {
        return Some(4);
    }
    if token == 0x1C {
        return Some(1);
    }
    if token < 0x20 || token >= 0x80 {
        return None;
    }
    classed_size(version, token % 0x20)
}

/// Whether an attribute has two bytes.
fn is_plain_attribute(rest: &[u8]) -> bool
    ensures { result ≡ cites.is_plain_attribute rest.now }
{
    !rest.is_empty() && rest[0] != 0x04
}

/// How many bytes of the first token stand behind its first; none where it isn't known or is cut.
fn token_more(version: Biff, tokens: &[u8]) -> Option<usize>
    requires { 0 < length tokens.now }
    ensures is { result ≡ cites.token_more version tokens.now }
    ensures within { IfSome result (λ more. more < length tokens.now) }
{
    let (_, rest) = tokens.split_at(1);
    if tokens[0] == 0x19 && is_plain_attribute(rest) {
        return more_if(3, rest);
    }
    match known_size(version, tokens[0]) {
        Some(size) => more_if(size, rest),
        None => spelled_more(version, tokens),
    }
}

/// What a token of this number cites, which is there whole.
fn cite_at(version: Biff, token: u8, rest: &[u8]) -> Option<Cite>
    ensures { result ≡ cites.cite_at version token rest.now }
{
    if token < 0x20 || token >= 0x80 || rest.len() < 4 {
        return None;
    }
    match token % 0x20 {
        0x19 => Some(Cite {
            reference: word_at(rest, 0),
            name: Some(word_at(rest, 2)),
        }),
        0x1A | 0x1B | 0x1C | 0x1D => Some(Cite {
            reference: word_at(rest, 0),
            name: None,
        }),
        _ => None,
    }
}

/// Puts a citation behind others, if there is one.
fn add_cite(found: &mut Vec<Cite>, cite: Option<Cite>) -> Result<(), AllocError>
    ensures { OnOk result (found.new.items ≡ found.old.items ++ option_to_list cite) }
{
    if let Some(cite) = cite {
        found.push(cite)?;
    }
    Ok(())
}

/// What a formula's tokens cite, from left to right, up to the first that isn't known or is cut.
pub(crate) fn read_cites(
    alloc: Global,
    version: Biff,
    tokens: &[u8],
) -> Result<Vec<Cite>, AllocError>
    ensures { IfOk result (λ found. found.items ≡ cites.cites_in version tokens.now) }
{
    let mut found = Vec::new(alloc);
    let mut left = tokens;
    'tokens: while !left.is_empty() {
        let Some(more) = token_more(version, left) else {
            return Ok(found);
        };
        let (head, rest) = left.split_at(1);
        add_cite(&mut found, cite_at(version, head[0], rest))?;
        let (_, others) = rest.split_at(more);
        left = others;
    }
    Ok(found)
}
