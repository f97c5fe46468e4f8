//! Known functions by their indexes, [MS-XLS] Ftab 2.5.198.17.

use std::test::Fail;
use xls_formula::{FunctionTable, push_functions};

// The first and the last, and some between.
static KNOWN: [(usize, &str, u8); 7] = [
    (72, "MINUTE", 1),
    (82, "SEARCH", 3),
    (102, "VLOOKUP", 4),
    (220, "DAYS360", 3),
    (255, "USER.DEFINED", 255),
    (345, "SUMIF", 3),
    (380, "ISHYPERLINK", 1),
];

#[test]
fn names_functions_by_their_indexes(rt: HostRuntime) -> Result<(), Fail> {
    let mut table = FunctionTable::shipped(rt.alloc())?;
    push_functions(&mut table)?;
    assert_eq!(rt; table.len(), 381);
    for (index, name, count) in KNOWN.iter() {
        assert_eq!(rt; table.name(*index), Some(*name));
        assert_eq!(rt; table.argc(*index), Some(*count));
    }
    Ok(())
}
