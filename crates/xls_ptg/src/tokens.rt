//! What a token is.

use crate::corner::Corner;
use crate::operators::Operator;
use std::alloc::AllocError;
use xls_data::CellErrorType;

/// A token by its name in [MS-XLS] 2.5.198, without the `Ptg` before it. `S` is what holds the units
/// of a string: a slice in code, the list of the bytes in definitions. What tokens from 20 on are is
/// told by their low five bits: 24, 44 and 64 are one.
#[derive(Copy)]
pub enum Ptg<S> {
    /// 01: the formula stands at another cell.
    Exp,
    /// 03 to 11, `Add` to `Range`.
    Binary(Operator),
    /// 12.
    Uplus,
    /// 13.
    Uminus,
    /// 14.
    Percent,
    /// 15.
    Paren,
    /// 16: an argument that is left out.
    MissArg,
    /// 17: the bytes of the units, how many units they are (cch), and whether each has two bytes
    /// (fHighByte). Before BIFF8 bytes in the page.
    Str {
        units: S,
        cch: u8,
        high_byte: Option<bool>,
    },
    /// 18, ElfLel to ElfRadicalLel and SxName: which of them isn't told.
    Elf,
    /// 19 01.
    AttrSemi,
    /// 19 02.
    AttrIf,
    /// 19 04.
    AttrChoose,
    /// 19 08.
    AttrGoto,
    /// 19 10: SUM of one operand.
    AttrSum,
    /// 19 20 and 19 21.
    AttrBaxcel,
    /// 19 40: so many (cch) spaces or returns.
    AttrSpace {
        is_return: bool,
        count: u8,
    },
    /// 19 41.
    AttrSpaceSemi {
        is_return: bool,
        count: u8,
    },
    /// 1C: an error value.
    Err(CellErrorType),
    /// 1D.
    Bool(bool),
    /// 1E.
    Int(u16),
    /// 1F: the bits of a double.
    Num(u64),
    /// 20.
    Array,
    /// 21: a function with the table's count of operands.
    Func {
        iftab: u16,
    },
    /// 22: a function with a count of operands of its own (cparams).
    FuncVar {
        count: u8,
        iftab: u16,
    },
    /// 23: the index of a defined name (nameindex), counted from 1.
    Name {
        index: u32,
    },
    /// 24.
    Ref(Corner),
    /// 25.
    Area {
        first: Corner,
        last: Corner,
    },
    /// 2A: a cell that is gone.
    RefErr,
    /// 2B: an area that is gone.
    AreaErr,
    /// 39: a name of another workbook.
    NameX,
    /// 3A: a cell on the sheet of a reference, whose index is ixti.
    Ref3d {
        ixti: u16,
        corner: Corner,
    },
    /// 3B: an area on such a sheet.
    Area3d {
        ixti: u16,
        first: Corner,
        last: Corner,
    },
    /// 3C: a cell that is gone, on such a sheet.
    RefErr3d {
        ixti: u16,
    },
    /// 3D: an area that is gone, on such a sheet.
    AreaErr3d {
        ixti: u16,
    },
}

impl<S: Copy> Clone for Ptg<S> {
    fn clone(&self) -> Result<Self, AllocError> {
        Ok(*self)
    }
}
