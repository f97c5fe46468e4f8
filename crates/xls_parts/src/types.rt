//! The types of the records that begin and end a custom view, by their names in [MS-XLS].

pub const USER_S_VIEW_BEGIN: u16 = 0x01AA;

pub const USER_S_VIEW_END: u16 = 0x01AB;
