//! The types of the records that say what is hidden, by their names in [MS-XLS], and the sizes of a sheet.

pub const PANE: u16 = 0x0041;

pub const COL_INFO: u16 = 0x007D;

pub const FILTER_MODE: u16 = 0x009B;

pub const ROW: u16 = 0x0208;

pub const DEFAULT_ROW_HEIGHT: u16 = 0x0225;

pub const WINDOW_2: u16 = 0x023E;

/// How many columns a sheet has.
pub const COLUMNS: u32 = 256;

/// How many rows a sheet of BIFF8 has.
pub const ROWS: u32 = 65_536;

/// How many rows a sheet has before BIFF8.
pub const ROWS_BEFORE_BIFF8: u32 = 16_384;
