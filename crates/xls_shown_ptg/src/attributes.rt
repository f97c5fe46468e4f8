//! Labels, attributes and calls: 18, 19 and 22.

ghost use Rattle.std.specs.Prelude.{◌≡◌, ◌<◌, ◌≤◌, ◌+◌, ◌%◌, length, drop, slice_index, IfOk};
ghost use Rattle.xls_shown_ptg.specs.Reading.{Exactly, as_shown, shared, shown_of};
ghost use Rattle.xls_shown_ptg.specs.Rows.{attr_at, attr_nothing_at, attr_space_at, elf_at, func_var_at, func_var_by, place_of};

use crate::fault::Fault;
use crate::fields::short;
use crate::tokens::{ShownPtg, Space, SpacePlace};
use xls_ptg::{Ptg, read_ptg, word_at};
use xls_record::{Biff, Part, XlsError};

/// 18 (PtgElfRadical, PtgElfRadicalS).
pub(crate) fn read_elf(rest: &[u8]) -> Result<(ShownPtg<&[u8]>, usize), Fault>
    ensures exact { Exactly as_shown result (elf_at rest.now) }
    ensures within { IfOk result (λ x. x.1 ≤ length rest.now) }
{
    if rest.len() < 5 {
        return Err(short(5, rest.len()));
    }
    match rest[0] {
        0x0A => Ok((ShownPtg::Nothing, 5)),
        0x0B => Ok((ShownPtg::ElfRadicalS, 5)),
        kind => Err(Fault::Eptg(kind)),
    }
}

fn place_of(kind: u8) -> SpacePlace
    ensures { result ≡ place_of kind }
{
    if kind < 4 {
        SpacePlace::Before
    } else if kind < 6 {
        SpacePlace::Closing
    } else {
        SpacePlace::Front
    }
}

/// 19 40 and 19 41 (PtgAttrSpaceType): a kind and a count, behind the attribute byte.
fn read_attr_space(body: &[u8]) -> Result<(ShownPtg<&[u8]>, usize), Fault>
    ensures exact { Exactly as_shown result (attr_space_at body.now) }
    ensures within { IfOk result (λ x. x.1 ≤ 1 + length body.now) }
{
    if body.len() < 2 {
        return Err(short(2, body.len()));
    }
    let kind = body[0];
    if kind > 6 {
        return Err(Fault::Xls(XlsError::Unrecognized {
            typ: Part::SpaceKind,
            val: kind,
        }));
    }
    let space = Space {
        place: place_of(kind),
        is_newline: kind % 2 == 1,
        count: body[1],
    };
    Ok((ShownPtg::AttrSpace(space), 3))
}

/// 19 00, which writes nothing.
fn read_attr_nothing(body: &[u8]) -> Result<(ShownPtg<&[u8]>, usize), Fault>
    ensures exact { Exactly as_shown result (attr_nothing_at body.now) }
    ensures within { IfOk result (λ x. x.1 ≤ 1 + length body.now) }
{
    if body.len() < 2 {
        return Err(short(2, body.len()));
    }
    Ok((ShownPtg::Nothing, 3))
}

/// A token that is in every reading what it is in one.
#[tactic(auto, unfolding(crate::specs::Reading::shared))]
pub(crate) fn read_shared(bytes: &[u8], biff: Biff) -> Result<(ShownPtg<&[u8]>, usize), Fault>
    requires { 0 < length bytes.now }
    ensures exact { Exactly as_shown result (shared biff (slice_index bytes.now 0) (drop 1 bytes.now)) }
    ensures within { IfOk result (λ x. x.1 < length bytes.now) }
{
    let (ptg, more) = read_ptg(bytes, biff)?;
    Ok((ShownPtg::Known(ptg), more))
}

/// 19: an attribute byte, and the attribute.
pub(crate) fn read_attr(bytes: &[u8], biff: Biff) -> Result<(ShownPtg<&[u8]>, usize), Fault>
    requires { 0 < length bytes.now }
    ensures exact { Exactly as_shown result (attr_at biff (slice_index bytes.now 0) (drop 1 bytes.now)) }
    ensures within { IfOk result (λ x. x.1 < length bytes.now) }
{
    let (_, rest) = bytes.split_at(1);
    if rest.len() < 1 {
        return Err(short(1, rest.len()));
    }
    let (head, body) = rest.split_at(1);
    match head[0] {
        0x00 => read_attr_nothing(body),
        0x40 | 0x41 => read_attr_space(body),
        _ => read_shared(bytes, biff),
    }
}

fn func_var_by<'a>(count: u8, index: u16) -> ShownPtg<&'a [u8]>
    ensures { shown_of result ≡ func_var_by count index }
{
    if index >= 0x8000 {
        return ShownPtg::Command {
            count,
            cetab: index % 0x8000,
        };
    }
    if index == 0xFF {
        return ShownPtg::UserFunc { count };
    }
    ShownPtg::Known(Ptg::FuncVar {
        count,
        iftab: index,
    })
}

/// 22 (PtgFuncVar): a count of operands in 7 bits, and an index whose top bit says that it is a command's.
pub(crate) fn read_func_var(rest: &[u8]) -> Result<(ShownPtg<&[u8]>, usize), Fault>
    ensures exact { Exactly as_shown result (func_var_at rest.now) }
    ensures within { IfOk result (λ x. x.1 ≤ length rest.now) }
{
    if rest.len() < 3 {
        return Err(short(3, rest.len()));
    }
    Ok((func_var_by(rest[0] % 0x80, word_at(rest, 1)), 3))
}
