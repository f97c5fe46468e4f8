//! Defined names.

ghost use Rattle.std.specs.Prelude.{◌≡◌, ◌≤◌, length, IfOk, codes, if◌then◌else◌};
ghost use Rattle.xls_text.specs.declared.encoding.XlsEncoding.{XlsEncoding};
ghost use Rattle.xls_record.specs.Reading.{fault_in, Exactly, Gives};
ghost use Rattle.xls_strings.specs.Texts.{text_of};
ghost use Rattle.xls_formula.specs.Defined.{area3d_place, defined_at, err3d_place, lbl_at, lbl_parts, located_of, name_tokens, name_units, named_of, name_parts_of, place_at, place_by, place_sheet, place_text, ref3d_place};
ghost use Rattle.xls_ptg.specs.Corners.{pinned};
ghost use Rattle.xls_formula.specs.Tree.{area_text, corner_text};

use crate::words::{push_area, push_corner, push_decoded, push_hex, push_text};
use std::alloc::{AllocError, Global};
use xls_biff::{Biff, Part, Record, XlsError};
use xls_ptg::{
    Corner, area3d_corners, area3d_size, is_biff8, ixti, ref3d_corner, ref3d_size, short,
    split_no_cch, word_at,
};
use xls_text::XlsEncoding;

/// What the first token of a name's formula names.
#[derive(Clone, Copy)]
enum Place {
    /// There is no token.
    Nothing,
    /// A token that is not read.
    Unsupported(u8),
    /// A cell on the sheet of a reference, whose index is ixti.
    Ref3d {
        ixti: u16,
        corner: Corner,
    },
    Area3d {
        ixti: u16,
        first: Corner,
        last: Corner,
    },
    /// Cells that are gone.
    Err3d {
        ixti: u16,
    },
}

/// 3A (PtgRef3d).
fn ref3d_place(rest: &[u8], biff: Biff) -> Result<Place, XlsError>
    ensures { Exactly (λ place. place) result (ref3d_place biff rest.now) }
{
    let size = ref3d_size(biff);
    if rest.len() < size {
        return Err(short(size, rest.len(), Part::Ptg));
    }
    let ixti = ixti(rest, biff);
    let corner = ref3d_corner(rest, biff);
    Ok(Place::Ref3d { ixti, corner })
}

/// 3B (PtgArea3d).
fn area3d_place(rest: &[u8], biff: Biff) -> Result<Place, XlsError>
    ensures { Exactly (λ place. place) result (area3d_place biff rest.now) }
{
    let size = area3d_size(biff);
    if rest.len() < size {
        return Err(short(size, rest.len(), Part::Ptg));
    }
    let ixti = ixti(rest, biff);
    let (first, last) = area3d_corners(rest, biff);
    Ok(Place::Area3d { ixti, first, last })
}

/// 3C and 3D (PtgRefErr3d, PtgAreaErr3d), of which the index alone is needed.
fn err3d_place(rest: &[u8], biff: Biff) -> Result<Place, XlsError>
    ensures { Exactly (λ place. place) result (err3d_place biff rest.now) }
{
    let size = if is_biff8(biff) { 2 } else { 12 };
    if rest.len() < size {
        return Err(short(size, rest.len(), Part::Ptg));
    }
    let ixti = ixti(rest, biff);
    Ok(Place::Err3d { ixti })
}

fn place_by(ptg: u8, rest: &[u8], biff: Biff) -> Result<Place, XlsError>
    ensures { Exactly (λ place. place) result (place_by biff ptg rest.now) }
{
    if ptg < 0x20 || ptg > 0x7F {
        return Ok(Place::Unsupported(ptg));
    }
    match ptg % 0x20 {
        0x1A => ref3d_place(rest, biff),
        0x1B => area3d_place(rest, biff),
        0x1C | 0x1D => err3d_place(rest, biff),
        _ => Ok(Place::Unsupported(ptg)),
    }
}

/// The place that the first of a name's tokens names.
fn read_place(rgce: &[u8], biff: Biff) -> Result<Place, XlsError>
    ensures { Exactly (λ place. place) result (place_at biff rgce.now) }
{
    if rgce.is_empty() {
        return Ok(Place::Nothing);
    }
    let (head, rest) = rgce.split_at(1);
    place_by(head[0], rest, biff)
}

/// The text of a token that is not read.
#[tactic(auto, unfolding(std::specs::Prelude::chars))]
fn unsupported_text(alloc: Global, ptg: u8) -> Result<String, AllocError>
    ensures { IfOk result (λ s. text_of s ≡ place_text (Place.Unsupported ptg)) }
{
    let mut text = String::new(alloc);
    push_text(&mut text, "Unsupported ptg: ")?;
    push_hex(&mut text, ptg)?;
    Ok(text)
}

#[tactic(auto, unfolding(std::specs::Prelude::chars))]
fn fixed_text(alloc: Global, is_gone: bool) -> Result<String, AllocError>
    ensures { IfOk result (λ s. text_of s
        ≡ (if is_gone then codes "#REF!" else codes "empty rgce")) }
{
    let word = if is_gone { "#REF!" } else { "empty rgce" };
    let text = String::from_str(alloc, word)?;
    Ok(text)
}

#[tactic(auto, unfolding(std::specs::Prelude::chars))]
fn cell_text(alloc: Global, corner: Corner) -> Result<String, AllocError>
    ensures { IfOk result (λ s. text_of s ≡ corner_text (pinned corner)) }
{
    let mut text = String::new(alloc);
    push_corner(&mut text, corner.pinned())?;
    Ok(text)
}

#[tactic(auto, unfolding(std::specs::Prelude::chars))]
fn area_text(alloc: Global, first: Corner, last: Corner) -> Result<String, AllocError>
    ensures { IfOk result (λ s. text_of s ≡ area_text (pinned first) (pinned last)) }
{
    let mut text = String::new(alloc);
    push_area(&mut text, first.pinned(), last.pinned())?;
    Ok(text)
}

/// The text of a place, without its sheet.
fn place_text(alloc: Global, place: Place) -> Result<String, AllocError>
    ensures { IfOk result (λ s. text_of s ≡ place_text place) }
{
    match place {
        Place::Nothing => fixed_text(alloc, false),
        Place::Unsupported(ptg) => unsupported_text(alloc, ptg),
        Place::Ref3d { corner, .. } => cell_text(alloc, corner),
        Place::Area3d { first, last, .. } => area_text(alloc, first, last),
        Place::Err3d { .. } => fixed_text(alloc, true),
    }
}

/// The index of the reference that tells the sheet.
fn place_sheet(place: Place) -> Option<usize>
    ensures { result ≡ place_sheet place }
{
    match place {
        Place::Nothing => None,
        Place::Unsupported(_) => None,
        Place::Ref3d { ixti, .. } => Some(usize::from(ixti)),
        Place::Area3d { ixti, .. } => Some(usize::from(ixti)),
        Place::Err3d { ixti } => Some(usize::from(ixti)),
    }
}

/// What a defined name names, by its tokens: the index of the reference that tells the sheet, where
/// there is one, and the text. Of the tokens the first alone is read. A cell or area on a sheet is
/// printed with `$` before each row and column; cells that are gone as `#REF!`; no tokens as
/// `empty rgce`; another token as `Unsupported ptg: ` and its byte. `Len` where a token of cells on a
/// sheet is too short; otherwise only running out of memory refuses.
pub fn parse_defined_names(
    alloc: Global,
    rgce: &[u8],
    biff: Biff,
) -> Result<(Option<usize>, String), XlsError>
    ensures { Gives located_of result (defined_at biff rgce.now) }
{
    let place = read_place(rgce, biff)?;
    let text = place_text(alloc, place)?;
    Ok((place_sheet(place), text))
}

// ---- Lbl

/// The units of a name and the place that it names.
#[derive(Clone, Copy)]
struct Lbl<'a> {
    high_byte: Option<bool>,
    count: u8,
    name: &'a [u8],
    place: Place,
}

/// The width of a name's units, where it is told, and their bytes.
fn split_name(count: u8, bytes: &[u8], biff: Biff) -> Result<(Option<bool>, &[u8]), XlsError>
    ensures { Exactly (λ x. (x.0, count, x.1.now)) result (name_units biff count bytes.now) }
{
    if !is_biff8(biff) {
        return Ok((None, bytes));
    }
    let (is_wide, units) = split_no_cch(count, bytes)?;
    Ok((Some(is_wide), units))
}

/// The tokens, which are the last bytes of the body.
fn split_tokens(body: &[u8]) -> Result<&[u8], XlsError>
    requires { 14 ≤ length body.now }
    ensures { Exactly (λ tokens. tokens.now) result (name_tokens body.now) }
{
    let size = usize::from(word_at(body, 4));
    if body.len() < size {
        return Err(short(size, body.len(), Part::NameFormula));
    }
    let (_, tokens) = body.split_at(body.len() - size);
    Ok(tokens)
}

fn split_lbl(body: &[u8], biff: Biff) -> Result<Lbl<'_>, XlsError>
    ensures { Exactly name_parts_of result (lbl_parts biff body.now) }
{
    if body.len() < 14 {
        return Err(short(14, body.len(), Part::Lbl));
    }
    let count = body[3];
    let (_, bytes) = body.split_at(14);
    let (high_byte, name) = split_name(count, bytes, biff)?;
    let tokens = split_tokens(body)?;
    let place = read_place(tokens, biff)?;
    Ok(Lbl {
        high_byte,
        count,
        name,
        place,
    })
}

/// A defined name and what it names, by its Lbl record, [MS-XLS] 2.4.150. The name has the count of
/// byte 3 and stands at byte 14: a string without a count, or before BIFF8 bytes in the page, at most
/// so many. Its tokens are the last bytes of the body, so many as the number at byte 4 says, and
/// are read as by `parse_defined_names`. `Len` in the order of head, name, tokens, first token; else
/// only running out of memory.
#[tactic(auto, unfolding(std::specs::Prelude::chars))]
pub fn parse_lbl(
    alloc: Global,
    r: &Record<'_>,
    encoding: &XlsEncoding,
    biff: Biff,
) -> Result<(String, (Option<usize>, String)), XlsError>
    ensures { Gives named_of result (lbl_at encoding.now biff r.now.body.now) }
{
    let lbl = split_lbl(r.body, biff)?;
    let mut name = String::new(alloc);
    push_decoded(
        &mut name,
        *encoding,
        lbl.high_byte,
        lbl.name,
        usize::from(lbl.count),
    )?;
    let text = place_text(alloc, lbl.place)?;
    Ok((name, (place_sheet(lbl.place), text)))
}

/// The refusal that `parse_lbl` answers for another cause than out of memory, under every page.
/// Takes no memory.
pub fn check_lbl(r: &Record<'_>, biff: Biff) -> Result<(), XlsError>
    ensures { (page : XlsEncoding)
        → Exactly (λ u. u) result (fault_in (lbl_at page biff r.now.body.now)) }
{
    split_lbl(r.body, biff)?;
    Ok(())
}
