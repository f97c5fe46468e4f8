use super::*;
use std::test::*;

// RK of 2 in the last row and column.
const FAR: [u8; 14] = [0x7E, 2, 10, 0, 0xFF, 0xFF, 0xFF, 0xFF, 0, 0, 10, 0, 0, 0];

pub(super) static CASES: [Case; 6] = [
    (
        "the number of the sheet",
        Opening::Plain,
        &PLAIN,
        Asked::Sheets,
        "0,0=Float(Hundredths(12345)) ||",
    ),
    (
        "the cells of a chart are not the sheet's",
        Opening::Plain,
        &[&G, &A, &E, &S, &S, &ONE, &E, &TWO_1_1, &E],
        Asked::Sheets,
        "1,1=Int(2) ||",
    ),
    (
        "nor are those of a chart without an end",
        Opening::Plain,
        &[&G, &A, &E, &S, &ONE, &S, &TWO_1_1],
        Asked::Sheets,
        "0,0=Int(1) ||",
    ),
    (
        "a name shows its last sheet",
        Opening::Plain,
        &TWINS,
        Asked::Sheets,
        "0,0=Int(2) ||0,0=Int(2) ||",
    ),
    (
        "a far cell takes little memory",
        Opening::Plain,
        &[&G, &A, &E, &S, &FAR, &ONE, &E],
        Asked::Sheets,
        "0,0=Int(1) 65535,65535=Int(2) ||",
    ),
    (
        "of one position the last value stays",
        Opening::Plain,
        &[&G, &A, &E, &S, &ONE_3_1, &TWO_2_2, &THREE_3_1, &E],
        Asked::Sheets,
        "2,2=Int(2) 3,1=Int(3) ||",
    ),
];

#[test]
fn shows_the_cells_of_each_part(rt: HostRuntime) -> Result<(), Fail> {
    for case in CASES.iter() {
        assert!(rt; is_case(rt.alloc(), case)?, "{}", case.0);
    }
    Ok(())
}
