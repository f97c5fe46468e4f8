//! What a token is.

ghost use Rattle.std.specs.Prelude.{◌≡◌, IfOk};

use std::alloc::AllocError;
use xls_ptg::{Corner, Ptg};

/// Where white space stands (PtgAttrSpaceType).
#[derive(Clone, Copy, Debug, PartialEq, Eq)]
pub enum SpacePlace {
    /// 00 to 03: before what the next token writes.
    Before,
    /// 04 and 05: before the closing parenthesis of what it writes.
    Closing,
    /// 06: before the formula.
    Front,
}

/// White space: so many newlines or spaces.
#[derive(Clone, Copy, Debug, PartialEq, Eq)]
pub struct Space {
    pub place: SpacePlace,
    pub is_newline: bool,
    pub count: u8,
}

/// Through what a reference names sheets.
#[derive(Clone, Copy, Debug, PartialEq, Eq)]
pub enum SheetLink {
    /// An XTI of ExternSheet, by its number (ixti).
    Xti(u16),
    /// Before BIFF8: an ExternSheet record by its number, counted from 1, or below 0 this workbook, and the
    /// numbers of the first and the last sheet.
    Early { record: i16, first: u16, last: u16 },
}

/// Through what a name by reference is found.
#[derive(Clone, Copy, Debug, PartialEq, Eq)]
pub enum NameLink {
    /// An XTI of ExternSheet, by its number (ixti), and the name's number, counted from 1 (nameindex).
    Xti { ixti: u16, index: u32 },
    /// Before BIFF8: an ExternSheet record, likewise, and the name's number.
    Early { record: i16, index: u16 },
}

/// A token by its name in [MS-XLS] 2.5.198, without the `Ptg` before it. `S` is what holds the units of a string: a
/// slice in code, the list of the bytes in definitions. The class of a token (20, 40 or 60) isn't told.
#[derive(Copy)]
pub enum ShownPtg<S> {
    /// What it is in every reading: none of PtgExp, PtgElf.., PtgAttrSpace.., PtgNameX and the references to
    /// sheets. An area has its own flags in each version.
    Known(Ptg<S>),
    /// 18 0A (PtgElfRadical), 19 00, 27 (PtgMemErr), 28 (PtgMemNoMem), 29 (PtgMemFunc), 2E and 2F: nothing is
    /// written.
    Nothing,
    /// 18 0B: nothing is written, and extra bytes belong to it (PtgExtraElf).
    ElfRadicalS,
    /// 19 40 and 19 41.
    AttrSpace(Space),
    /// 22 with a command of macro sheets (Cetab) by its index, and a count of operands.
    Command {
        count: u8,
        cetab: u16,
    },
    /// 22 with the index 00FF: a call by the function's name, which is the first of so many operands.
    UserFunc {
        count: u8,
    },
    /// 26: nothing is written, and extra bytes belong to it (PtgExtraMem).
    MemArea,
    /// 2C: a cell, of which a relative row or column counts from the formula's place.
    RefN(Corner),
    /// 2D: an area, likewise.
    AreaN {
        first: Corner,
        last: Corner,
    },
    /// 39: a name by reference.
    NameX(NameLink),
    /// 3A: a cell on sheets.
    Ref3d {
        sheets: SheetLink,
        corner: Corner,
    },
    /// 3B: an area on sheets.
    Area3d {
        sheets: SheetLink,
        first: Corner,
        last: Corner,
    },
    /// 3C and 3D: cells that are gone, on sheets.
    Err3d(SheetLink),
}

impl<S: Copy> Clone for ShownPtg<S> {
    fn clone(&self) -> Result<Self, AllocError>
        ensures { IfOk result (λ copy. copy ≡ self.now) }
    {
        Ok(*self)
    }
}
