//! What one token is: its size, and the cells that it cites.

ghost use Rattle.std.specs.Prelude.{◌≡◌, ◌<◌, length};
ghost use Rattle.xls_record.specs.Reading.{Exactly};
ghost use Rattle.xls_ptg.specs.Cites.{cite_of, measured, position_of, raw_cite};
ghost use Rattle.xls_ptg.specs.Readings.{ptg_of};
ghost use Rattle.xls_ptg.specs.Tokens.{ptg_at};

use crate::corner::Corner;
use crate::read::read_ptg;
use crate::tokens::Ptg;
use xls_biff::{Biff, XlsError};

/// Cells that a token cites: the first and the last, each by row and column from 0, and the index of
/// the reference that tells their sheet, where the token has one.
#[derive(Clone, Copy, Debug, PartialEq, Eq)]
pub struct RawCite {
    pub sheet: Option<u16>,
    pub first: (u32, u32),
    pub last: (u32, u32),
}

/// A token's size in bytes, its first one counted, and the cells that it cites, if any.
#[derive(Clone, Copy, Debug, PartialEq, Eq)]
pub struct Token {
    pub size: usize,
    pub cite: Option<RawCite>,
}

fn position(corner: Corner) -> (u32, u32)
    ensures { result ≡ position_of corner }
{
    (u32::from(corner.row), u32::from(corner.column))
}

fn raw_cite(sheet: Option<u16>, first: Corner, last: Corner) -> RawCite
    ensures { result ≡ raw_cite sheet first last }
{
    RawCite {
        sheet,
        first: position(first),
        last: position(last),
    }
}

fn cite(ptg: Ptg<&[u8]>) -> Option<RawCite>
    ensures { result ≡ cite_of (ptg_of ptg.entry) }
{
    match ptg {
        Ptg::Ref(corner) => Some(raw_cite(None, corner, corner)),
        Ptg::Area { first, last } => Some(raw_cite(None, first, last)),
        Ptg::Ref3d { ixti, corner } => Some(raw_cite(Some(ixti), corner, corner)),
        Ptg::Area3d { ixti, first, last } => Some(raw_cite(Some(ixti), first, last)),
        _ => None,
    }
}

/// The first token of a formula's tokens, [MS-XLS] 2.5.198. It cites cells exactly where it is a
/// PtgRef, PtgArea, PtgRef3d or PtgArea3d. `Len`, `Unrecognized` and `Etpg` exactly where its bytes or
/// a code table refuse it; the function table and the operands are not looked at. Takes no memory.
pub fn read_token(bytes: &[u8], biff: Biff) -> Result<Token, XlsError>
    requires { 0 < length bytes.now }
    ensures { Exactly (λ token. token) result (measured (ptg_at biff bytes.now)) }
{
    let (ptg, more) = read_ptg(bytes, biff)?;
    Ok(Token {
        size: 1 + more,
        cite: cite(ptg),
    })
}
