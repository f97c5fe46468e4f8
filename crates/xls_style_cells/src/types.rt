//! The types of the records of blank cells, by their names in [MS-XLS].

pub const BLANK: u16 = 0x0201;

pub const MUL_BLANK: u16 = 0x00BE;
