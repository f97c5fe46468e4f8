//! The counts of operands of calls without a count of their own.

ghost use Rattle.std.specs.Prelude.{◌≡◌};
ghost use Rattle.xls_shown_ptg.specs.Counts.{count_in, operand_count};

/// The functions, by their index ([MS-XLS] Ftab 2.5.198.17), whose fixed count of operands the functions' table has
/// as any or as another, each with that count: functions of macro sheets, and GETPIVOTDATA.
pub(crate) const COUNTS: [(u16, u8); 38] = [
    (79, 2),
    (80, 2),
    (85, 0),
    (89, 0),
    (90, 1),
    (94, 0),
    (95, 0),
    (106, 1),
    (108, 2),
    (133, 1),
    (134, 1),
    (135, 1),
    (136, 2),
    (137, 2),
    (138, 2),
    (161, 1),
    (172, 1),
    (173, 0),
    (174, 0),
    (175, 2),
    (176, 2),
    (177, 3),
    (178, 2),
    (179, 1),
    (186, 1),
    (200, 1),
    (201, 1),
    (223, 0),
    (224, 1),
    (225, 0),
    (238, 0),
    (245, 0),
    (254, 1),
    (256, 1),
    (257, 1),
    (265, 3),
    (266, 3),
    (358, 2),
];

// The count that a table has for a function, and another where it has none.
fn count_in(table: &[(u16, u8)], iftab: u16, count: u8) -> u8
    ensures { result ≡ count_in table.now iftab count }
{
    'rows: for (function, operands) in table {
        if *function == iftab {
            return *operands;
        }
    }
    count
}

/// How many operands a call without a count of its own has (PtgFunc): `count`, which the functions' table has, but for
/// some functions of macro sheets.
pub fn operand_count(iftab: u16, count: u8) -> u8
    ensures { result ≡ operand_count iftab count }
{
    count_in(&COUNTS, iftab, count)
}
