//! The items of the arrays, as C lays them out.

use xls_arrays::Span;

/// How long the arrays of a call are.
#[repr(C)]
#[derive(Clone, Copy, Debug, PartialEq, Eq)]
pub struct Counts {
    /// Of its first array.
    pub items: u64,
    pub damages: u64,
    pub text_bytes: u64,
}

/// A damaged record.
#[repr(C)]
#[derive(Clone, Copy, Debug, PartialEq, Eq)]
pub struct DamageItem {
    /// The place of its header in the stream, in bytes.
    pub offset: u64,
    /// A sentence that says what is wrong.
    pub why: Span,
    /// The row of its cell, from 0; 0xFFFFFFFF where it isn't known.
    pub row: u32,
    /// The column, likewise.
    pub column: u32,
    /// Its type in the stream.
    pub record_type: u32,
    /// 0.
    pub reserved: u32,
}

/// Rows or columns one after another that can't be seen, counted from 0, the last included.
#[repr(C)]
#[derive(Clone, Copy, Debug, PartialEq, Eq)]
pub struct HiddenRunItem {
    pub first: u32,
    pub last: u32,
    /// 1 hidden, 2 filtered, 4 of height or width 0.
    pub why: u32,
    /// 0 rows, 1 columns.
    pub is_column: u32,
}

/// A line of a border.
#[repr(C)]
#[derive(Clone, Copy, Debug, PartialEq, Eq)]
pub struct BorderItem {
    /// Its number in [MS-XLS] BorderStyle; 0 is none.
    pub line: u32,
    /// 00rrggbb, 0xFFFFFFFF for the system's, 0xFFFFFFFE where there is no line.
    pub colour: u32,
}

/// How a cell of an XF looks. A colour is 00rrggbb, 0xFFFFFFFF for the system's, 0xFFFFFFFE for none.
#[repr(C)]
#[derive(Clone, Copy, Debug, PartialEq, Eq)]
pub struct StyleItem {
    /// The name of its font.
    pub font: Span,
    /// The code of its number format.
    pub format: Span,
    /// Of the font, in twentieths of a point; 0xFFFFFFFF where the font isn't there.
    pub size: u32,
    /// The sum of: 1 bold, 2 italic, 4 strike, 8 underlined, 0x10 underlined twice, 0x20 superscript, 0x40 subscript, 0x80
    /// unlocked, 0x100 concealed, 0x200 wrapped, 0x400 shrunk.
    pub marks: u32,
    /// Of the font.
    pub colour: u32,
    /// Its number in [MS-XLS] FillPattern; 0 is none, 1 all of one colour.
    pub pattern: u32,
    /// Of the pattern; none where the pattern is 0.
    pub fill: u32,
    /// Behind the pattern; none where the pattern is 0 or 1.
    pub back: u32,
    /// By its number in [MS-XLS] HorizAlign.
    pub across: u32,
    /// By its number in [MS-XLS] VertAlign.
    pub down: u32,
    pub indent: u32,
    /// In degrees; above 90 clockwise, less 90, and 255 is letters below each other.
    pub turn: u32,
    pub left: BorderItem,
    pub right: BorderItem,
    pub top: BorderItem,
    pub bottom: BorderItem,
    pub diagonal: BorderItem,
    /// 0 none, 1 down to the right, 2 up to the right, 3 both.
    pub diagonals: u32,
    /// 0.
    pub reserved: u32,
}

/// The style of a cell: row and column from 0, and the index of its XF.
#[repr(C)]
#[derive(Clone, Copy, Debug, PartialEq, Eq)]
pub struct CellStyleItem {
    pub row: u32,
    pub column: u32,
    pub style: u16,
    /// 0.
    pub reserved: u16,
}

/// The comment of a cell: row and column from 0.
#[repr(C)]
#[derive(Clone, Copy, Debug, PartialEq, Eq)]
pub struct CommentItem {
    pub row: u32,
    pub column: u32,
    pub author: Span,
    /// Its text.
    pub words: Span,
    /// 1 always shown, 0 when the cell is pointed at.
    pub visible: u32,
    /// 0.
    pub reserved: u32,
}

/// The link of some cells, the last row and column included.
#[repr(C)]
#[derive(Clone, Copy, Debug, PartialEq, Eq)]
pub struct LinkItem {
    pub first_row: u32,
    pub first_column: u32,
    pub last_row: u32,
    pub last_column: u32,
    pub target: Span,
    pub place: Span,
    pub shown: Span,
    pub tip: Span,
    /// 0 a URL, 1 a file, 2 a file whose path begins with `\\`, 3 a place in this workbook.
    pub kind: u32,
    /// 0.
    pub reserved: u32,
}

/// Another workbook or a program, a sheet or a name of the last one before it, or an added function.
#[repr(C)]
#[derive(Clone, Copy, Debug, PartialEq, Eq)]
pub struct BookItem {
    /// The path of a workbook, else a name.
    pub path: Span,
    /// Of a program, else empty.
    pub topic: Span,
    /// 0 a workbook, 1 a program, 2 a sheet, 3 a name, 4 an added function.
    pub kind: u32,
    /// 0.
    pub reserved: u32,
}

/// What the formula of a cell cites of another workbook or a program: row and column from 0.
#[repr(C)]
#[derive(Clone, Copy, Debug, PartialEq, Eq)]
pub struct OutsideItem {
    pub row: u32,
    pub column: u32,
    pub book: Span,
    pub sheet: Span,
    pub name: Span,
}
