//! One token by its first byte.

ghost use Rattle.std.specs.Prelude.{◌≡◌, ◌≤◌, ◌<◌, length, drop, slice_index, Ok, IfOk};
ghost use Rattle.xls_shown_ptg.specs.Reading.{Exactly, as_shown, shown_of, sized};
ghost use Rattle.xls_shown_ptg.specs.ShownTokens.{basic_by, by_link, classed_by, mem_by, shown_at};

use crate::areas::{read_area, read_area_n, read_ref_n};
use crate::attributes::{read_attr, read_elf, read_func_var, read_shared};
use crate::fault::Fault;
use crate::fields::{short, unknown};
use crate::links::{read_area3d, read_err3d, read_name_x, read_ref3d};
use crate::tokens::ShownPtg;
use xls_ptg::{area3d_size, ref3d_size};
use xls_record::Biff;

/// A basic token, below 20. PtgExp and PtgTbl are a cell's first token, and none here.
#[tactic(auto, unfolding(crate::specs::ShownTokens::basic_by))]
fn read_basic(bytes: &[u8], biff: Biff) -> Result<(ShownPtg<&[u8]>, usize), Fault>
    requires { 0 < length bytes.now }
    ensures exact { Exactly as_shown result (basic_by biff (slice_index bytes.now 0) (drop 1 bytes.now)) }
    ensures within { IfOk result (λ x. x.1 < length bytes.now) }
{
    let (head, rest) = bytes.split_at(1);
    match head[0] {
        0x01 | 0x02 => Err(unknown(head[0])),
        0x18 => read_elf(rest),
        0x19 => read_attr(bytes, biff),
        _ => read_shared(bytes, biff),
    }
}

/// A token of bytes that aren't read.
fn read_plain<'a>(
    ptg: ShownPtg<&'a [u8]>,
    size: usize,
    rest: &'a [u8],
) -> Result<(ShownPtg<&'a [u8]>, usize), Fault>
    ensures exact { Exactly as_shown result (sized size rest.now (Ok (shown_of ptg.entry, size))) }
    ensures within { IfOk result (λ x. x.1 ≤ length rest.now) }
{
    if rest.len() < size {
        return Err(short(size, rest.len()));
    }
    Ok((ptg, size))
}

/// A token that holds the places of others, by its low five bits.
#[tactic(auto, unfolding(crate::specs::ShownTokens::mem_by))]
fn read_mem(bytes: &[u8], biff: Biff) -> Result<(ShownPtg<&[u8]>, usize), Fault>
    requires { 0 < length bytes.now }
    ensures exact { Exactly as_shown result (mem_by biff (slice_index bytes.now 0) (drop 1 bytes.now)) }
    ensures within { IfOk result (λ x. x.1 < length bytes.now) }
{
    let (head, rest) = bytes.split_at(1);
    match head[0] % 0x20 {
        0x06 => read_plain(ShownPtg::MemArea, 6, rest),
        0x07 | 0x08 => read_plain(ShownPtg::Nothing, 6, rest),
        0x09 | 0x0E | 0x0F => read_plain(ShownPtg::Nothing, 2, rest),
        _ => read_shared(bytes, biff),
    }
}

/// A name or cells by reference, by the low five bits.
#[tactic(auto, unfolding(crate::specs::ShownTokens::by_link))]
fn read_by_link(bytes: &[u8], biff: Biff) -> Result<(ShownPtg<&[u8]>, usize), Fault>
    requires { 0 < length bytes.now }
    ensures exact { Exactly as_shown result (by_link biff (slice_index bytes.now 0) (drop 1 bytes.now)) }
    ensures within { IfOk result (λ x. x.1 < length bytes.now) }
{
    let (head, rest) = bytes.split_at(1);
    match head[0] % 0x20 {
        0x19 => read_name_x(rest, biff),
        0x1A => read_ref3d(rest, biff),
        0x1B => read_area3d(rest, biff),
        0x1C => read_err3d(rest, ref3d_size(biff), biff),
        0x1D => read_err3d(rest, area3d_size(biff), biff),
        _ => read_mem(bytes, biff),
    }
}

/// A classed token, from 20 to 7F, by its low five bits: the class (20, 40 or 60) isn't told.
#[tactic(auto, unfolding(crate::specs::ShownTokens::classed_by))]
fn read_classed(bytes: &[u8], biff: Biff) -> Result<(ShownPtg<&[u8]>, usize), Fault>
    requires { 0 < length bytes.now }
    ensures exact { Exactly as_shown result (classed_by biff (slice_index bytes.now 0) (drop 1 bytes.now)) }
    ensures within { IfOk result (λ x. x.1 < length bytes.now) }
{
    let (head, rest) = bytes.split_at(1);
    match head[0] % 0x20 {
        0x02 => read_func_var(rest),
        0x05 => read_area(rest, biff),
        0x0C => read_ref_n(rest, biff),
        0x0D => read_area_n(rest, biff),
        _ => read_by_link(bytes, biff),
    }
}

/// The first token of a formula that is shown as Excel shows it, and how many bytes of it stand after its first. What
/// other readings refuse by its bytes or a code table is refused likewise; so are PtgExp and PtgTbl, which are tokens of
/// a whole formula, and `Eptg` a label that stands for no area.
pub fn read_shown_ptg(bytes: &[u8], biff: Biff) -> Result<(ShownPtg<&[u8]>, usize), Fault>
    requires { 0 < length bytes.now }
    ensures exact { Exactly as_shown result (shown_at biff bytes.now) }
    ensures within { IfOk result (λ x. x.1 < length bytes.now) }
{
    if bytes[0] < 0x20 {
        read_basic(bytes, biff)
    } else if bytes[0] < 0x80 {
        read_classed(bytes, biff)
    } else {
        Err(unknown(bytes[0]))
    }
}
