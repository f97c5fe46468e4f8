//! The types of the records that hold a formula for a range of cells, by their names in [MS-XLS].

/// Before BIFF8 a ShrFmla too.
pub const EARLY_SHR_FMLA: u16 = 0x00BC;

pub const ARRAY: u16 = 0x0221;

pub const TABLE: u16 = 0x0236;

pub const SHR_FMLA: u16 = 0x04BC;
