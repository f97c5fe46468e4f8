//! Files in memory, made by hand of the records that writers put into workbooks.

// BOF of the globals and of a sheet in BIFF8, and EOF.
const GLOBALS: [u8; 8] = [0x09, 0x08, 4, 0, 0, 6, 5, 0];

const SHEET: [u8; 8] = [0x09, 0x08, 4, 0, 0, 6, 0x10, 0];

const EOF: [u8; 4] = [0x0A, 0, 0, 0];

// BoundSheet8 of `A` and of the hidden `B/`, whose parts begin at 39 and at 69.
const A_SHEET: [u8; 13] = [0x85, 0, 9, 0, 39, 0, 0, 0, 0, 0, 1, 0, 0x41];

const B_SHEET: [u8; 14] = [0x85, 0, 10, 0, 69, 0, 0, 0, 1, 0, 2, 0, 0x42, 0x2F];

// A Number of 4.5 at (0, 0).
const NUMBER: [u8; 18] = [
    0x03, 0x02, 14, 0, 0, 0, 0, 0, 0, 0, 0, 0, 0, 0, 0, 0, 0x12, 0x40,
];

// A Label of `a;b` at (1, 2).
const LABEL: [u8; 16] = [
    0x04, 0x02, 12, 0, 1, 0, 2, 0, 0, 0, 3, 0, 0, 0x61, 0x3B, 0x62,
];

// A BoundSheet8 whose part begins beyond the end.
const NOWHERE: [u8; 13] = [0x85, 0, 9, 0, 99, 0, 0, 0, 0, 0, 1, 0, 0x41];

// A FilePass of XOR obfuscation.
const FILE_PASS: [u8; 10] = [0x2F, 0, 6, 0, 0, 0, 1, 2, 3, 4];

/// Each file by its path and the pieces of its bytes.
pub static FILES: [(&str, &[&[u8]]); 8] = [
    (
        "a.xls",
        &[
            &GLOBALS, &A_SHEET, &B_SHEET, &EOF, &SHEET, &NUMBER, &EOF, &SHEET, &LABEL, &EOF,
        ],
    ),
    ("d/b.XLS", &[&GLOBALS, &NOWHERE, &EOF]),
    ("d/c.txt", &[&GLOBALS, &EOF]),
    ("d/e/f.xlt", &[&GLOBALS, &EOF]),
    ("d/p.xla", &[&GLOBALS, &FILE_PASS, &EOF]),
    ("z.zip", &[b"PK\x03\x04"]),
    ("out/a.xls.out/sheets.txt", &[b"older"]),
    ("older/a.xls.out/01-A.csv", &[b"older"]),
];
