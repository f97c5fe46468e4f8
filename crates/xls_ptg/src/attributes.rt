//! The attributes, PtgAttrSemi to PtgAttrSpaceSemi. `body` is what stands after the attribute byte.

ghost use Rattle.std.specs.Prelude.{◌≡◌, ◌≤◌, ◌+◌, length, IfOk};
ghost use Rattle.xls_record.specs.Reading.{Exactly};
ghost use Rattle.xls_ptg.specs.Attributes.{attr_at, attr_by, attr_choose_at, attr_space, attr_space_semi, plain_attr, space_at, space_by};
ghost use Rattle.xls_ptg.specs.Readings.{as_read, ptg_of};

use crate::fields::{short, unknown, word_at};
use crate::tokens::Ptg;
use xls_biff::{Part, XlsError};

/// An attribute with two bytes that aren't read.
fn plain_attr<'a>(ptg: Ptg<&'a [u8]>, body: &'a [u8]) -> Result<(Ptg<&'a [u8]>, usize), XlsError>
    ensures exact { Exactly as_read result (plain_attr (ptg_of ptg.entry) body.now) }
    ensures within { IfOk result (λ x. x.1 ≤ 1 + length body.now) }
{
    if body.len() < 2 {
        return Err(short(2, body.len(), Part::Ptg));
    }
    Ok((ptg, 3))
}

/// 04 (PtgAttrChoose): a count of jumps (cOffset), so many words and one more.
fn read_attr_choose(body: &[u8]) -> Result<(Ptg<&[u8]>, usize), XlsError>
    ensures exact { Exactly as_read result (attr_choose_at body.now) }
    ensures within { IfOk result (λ x. x.1 ≤ 1 + length body.now) }
{
    if body.len() < 2 {
        return Err(short(2, body.len(), Part::Ptg));
    }
    let size = 4 + 2 * usize::from(word_at(body, 0));
    if body.len() < size {
        return Err(short(size, body.len(), Part::Ptg));
    }
    Ok((Ptg::AttrChoose, 1 + size))
}

/// What the kind of a space stands for: whether it is a return.
fn space_by(kind: u8, count: u8) -> Result<(bool, u8), XlsError>
    ensures { Exactly (λ x. x) result (space_by kind count) }
{
    if kind > 6 {
        return Err(unknown(Part::SpaceKind, kind));
    }
    Ok((kind % 2 == 1, count))
}

/// PtgAttrSpaceType: a kind and a count.
fn read_space(body: &[u8]) -> Result<(bool, u8), XlsError>
    ensures exact { Exactly (λ x. x) result (space_at body.now) }
    ensures within { IfOk result (λ x. 2 ≤ length body.now) }
{
    if body.len() < 2 {
        return Err(short(2, body.len(), Part::Ptg));
    }
    space_by(body[0], body[1])
}

/// 40 (PtgAttrSpace).
fn read_attr_space(body: &[u8]) -> Result<(Ptg<&[u8]>, usize), XlsError>
    ensures exact { Exactly as_read result (attr_space (space_at body.now)) }
    ensures within { IfOk result (λ x. x.1 ≤ 1 + length body.now) }
{
    let (is_return, count) = read_space(body)?;
    Ok((Ptg::AttrSpace { is_return, count }, 3))
}

/// 41 (PtgAttrSpaceSemi).
fn read_attr_space_semi(body: &[u8]) -> Result<(Ptg<&[u8]>, usize), XlsError>
    ensures exact { Exactly as_read result (attr_space_semi (space_at body.now)) }
    ensures within { IfOk result (λ x. x.1 ≤ 1 + length body.now) }
{
    let (is_return, count) = read_space(body)?;
    Ok((Ptg::AttrSpaceSemi { is_return, count }, 3))
}

fn read_attr_by(attribute: u8, body: &[u8]) -> Result<(Ptg<&[u8]>, usize), XlsError>
    ensures exact { Exactly as_read result (attr_by attribute body.now) }
    ensures within { IfOk result (λ x. x.1 ≤ 1 + length body.now) }
{
    match attribute {
        0x01 => plain_attr(Ptg::AttrSemi, body),
        0x02 => plain_attr(Ptg::AttrIf, body),
        0x04 => read_attr_choose(body),
        0x08 => plain_attr(Ptg::AttrGoto, body),
        0x10 => plain_attr(Ptg::AttrSum, body),
        0x20 | 0x21 => plain_attr(Ptg::AttrBaxcel, body),
        0x40 => read_attr_space(body),
        0x41 => read_attr_space_semi(body),
        _ => Err(XlsError::Etpg(attribute)),
    }
}

/// 19: an attribute byte, and the attribute.
pub(crate) fn read_attr(rest: &[u8]) -> Result<(Ptg<&[u8]>, usize), XlsError>
    ensures exact { Exactly as_read result (attr_at rest.now) }
    ensures within { IfOk result (λ x. x.1 ≤ length rest.now) }
{
    if rest.len() < 1 {
        return Err(short(1, rest.len(), Part::Ptg));
    }
    let (head, body) = rest.split_at(1);
    read_attr_by(head[0], body)
}
