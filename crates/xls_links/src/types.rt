//! The types of the records that say links, by their names in [MS-XLS].

pub const H_LINK: u16 = 0x01B8;

pub const H_LINK_TOOLTIP: u16 = 0x0800;
