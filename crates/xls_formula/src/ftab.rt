//! The functions whose names are shipped, [MS-XLS] Ftab 2.5.198.17.

/// How many functions are shipped.
pub const FTAB_LEN: usize = 72;

/// The names of the functions, by their index.
pub const FTAB: [&str; FTAB_LEN] = [
    "COUNT", "IF", "ISNA", "ISERROR", "SUM", "AVERAGE", "MIN", "MAX", "ROW", "COLUMN", "NA", "NPV",
    "STDEV", "DOLLAR", "FIXED", "SIN", "COS", "TAN", "ATAN", "PI", "SQRT", "EXP", "LN", "LOG10",
    "ABS", "INT", "SIGN", "ROUND", "LOOKUP", "INDEX", "REPT", "MID", "LEN", "VALUE", "TRUE",
    "FALSE", "AND", "OR", "NOT", "MOD", "DCOUNT", "DSUM", "DAVERAGE", "DMIN", "DMAX", "DSTDEV",
    "VAR", "DVAR", "TEXT", "LINEST", "TREND", "LOGEST", "GROWTH", "GOTO", "HALT", "RETURN", "PV",
    "FV", "NPER", "PMT", "RATE", "MIRR", "IRR", "RAND", "MATCH", "DATE", "TIME", "DAY", "MONTH",
    "YEAR", "WEEKDAY", "HOUR",
];

/// Their counts of operands in a token without a count.
pub const FTAB_ARGC: [u8; FTAB_LEN] = [
    255, 3, 1, 1, 255, 255, 255, 255, 1, 1, 0, 254, 255, 2, 3, 1, 1, 1, 1, 0, 1, 1, 1, 1, 1, 1, 1,
    2, 3, 4, 2, 3, 1, 1, 0, 0, 255, 255, 1, 2, 3, 3, 3, 3, 3, 3, 255, 3, 2, 4, 4, 4, 4, 1, 1, 1, 5,
    5, 5, 5, 6, 3, 2, 0, 3, 3, 3, 1, 1, 1, 2, 1,
];
