//! The types of the records that make a comment, by their names in [MS-XLS].

pub const NOTE: u16 = 0x001C;

pub const OBJ: u16 = 0x005D;

pub const TXO: u16 = 0x01B6;
