//! The types of the records that say which other workbooks there are, by their names in [MS-XLS], and counts that
//! stand in the place of a path.

pub const SUP_BOOK: u16 = 0x01AE;

pub const EXTERN_NAME: u16 = 0x0023;

/// In the place of a count: this workbook.
pub const THIS_WORKBOOK: u16 = 0x0401;

/// In the place of a count: added functions.
pub const ADDED_FUNCTIONS: u16 = 0x3A01;
