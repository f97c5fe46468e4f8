//! The types of the records of fonts and of the palette, by their names in [MS-XLS].

pub const FONT: u16 = 0x0031;

pub const PALETTE: u16 = 0x0092;
