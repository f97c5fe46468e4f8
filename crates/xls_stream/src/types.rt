//! The types of the records that are read, by their names in [MS-XLS].

pub const EOF: u16 = 0x000A;

pub const CONTINUE: u16 = 0x003C;

pub const BOF: u16 = 0x0809;

pub const FILE_PASS: u16 = 0x002F;

pub const CODE_PAGE: u16 = 0x0042;

pub const DATE_MODE: u16 = 0x0022;

pub const FORMAT: u16 = 0x041E;

pub const XF: u16 = 0x00E0;

pub const BOUND_SHEET_8: u16 = 0x0085;

pub const LBL: u16 = 0x0018;

pub const EXTERN_SHEET: u16 = 0x0017;

pub const SST: u16 = 0x00FC;

pub const DIMENSIONS: u16 = 0x0200;

pub const NUMBER: u16 = 0x0203;

pub const LABEL: u16 = 0x0204;

pub const R_STRING: u16 = 0x00D6;

pub const BOOL_ERR: u16 = 0x0205;

pub const STRING: u16 = 0x0207;

pub const RK: u16 = 0x027E;

pub const LABEL_SST: u16 = 0x00FD;

pub const MUL_RK: u16 = 0x00BD;

pub const MERGE_CELLS: u16 = 0x00E5;

pub const FORMULA: u16 = 0x0006;

/// The types of a sheet's records.
pub const SHEET_TYPES: [u16; 11] = [
    NUMBER,
    DIMENSIONS,
    LABEL,
    R_STRING,
    BOOL_ERR,
    STRING,
    RK,
    LABEL_SST,
    MUL_RK,
    MERGE_CELLS,
    FORMULA,
];
