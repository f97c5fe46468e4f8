//! Regions and bounds.

use super::readers::*;
use super::*;

/// Regions are added behind the one from (7, 7) to (8, 8), and none where the record is refused.
static REGIONS: [Row; 6] = [
    (
        "a region",
        Reader::MergeCells,
        &[1, 0, 0, 0, 0, 0, 1, 0, 2, 0],
        "Ok(()) [Dimensions { start: (7, 7), end: (8, 8) }, Dimensions { start: (0, 1), end: (0, 2) }]",
    ),
    (
        "one region is missing",
        Reader::MergeCells,
        &[1, 0],
        "Err(Len { expected: 10, found: 2, typ: MergeCells })",
    ),
    (
        "all regions of the count are missing",
        Reader::MergeCells,
        &[0xFF, 0xFF],
        "Err(Len { expected: 524282, found: 2, typ: MergeCells })",
    ),
    (
        "bounds in 14 bytes",
        Reader::Dimensions,
        &[0, 0, 0, 0, 3, 0, 0, 0, 0, 0, 3, 0, 0, 0],
        "Ok(Dimensions { start: (0, 0), end: (2, 2) })",
    ),
    (
        "bounds in 10 bytes",
        Reader::Dimensions,
        &[1, 0, 4, 0, 2, 0, 3, 0, 0, 0],
        "Ok(Dimensions { start: (1, 2), end: (3, 2) })",
    ),
    (
        "bounds in 16 bytes",
        Reader::Dimensions,
        &[0; 16],
        "Ok(Dimensions { start: (0, 0), end: (0, 0) })",
    ),
];

#[test]
fn reads_regions_and_bounds(rt: HostRuntime) -> Result<(), Fail> {
    rows_hold(&rt, rt.alloc(), &REGIONS)
}
