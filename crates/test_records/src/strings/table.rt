//! String tables in one piece, and lists of texts.

use super::*;
use xls_stream::types::SST;

/// Eight bytes, `a` and U+00E9 in units of one byte, and U+1F600 in units of two.
const BODY: [u8; 20] = [
    0, 0, 0, 0, 0, 0, 0, 0, 2, 0, 0, 0x61, 0xE9, 2, 0, 1, 0x3D, 0xD8, 0, 0xDE,
];

/// Bodies without Continue records, and what they answer.
static TABLES: [(&[u8], Table); 12] = [
    (
        &BODY,
        Table::Gives(
            "2|a\u{E9}|\u{1F600}|. Ok(2) Ok(Some([97, 233]))Ok(Some([55357, 56832]))Ok(None)Ok(None)",
        ),
    ),
    (
        &[],
        Table::Refuses("Len { expected: 8, found: 0, typ: Sst }", ""),
    ),
    (
        &[0; 1],
        Table::Refuses("Len { expected: 8, found: 1, typ: Sst }", ""),
    ),
    (
        &[0; 2],
        Table::Refuses("Len { expected: 8, found: 2, typ: Sst }", ""),
    ),
    (
        &[0; 3],
        Table::Refuses("Len { expected: 8, found: 3, typ: Sst }", ""),
    ),
    (
        &[0; 4],
        Table::Refuses("Len { expected: 8, found: 4, typ: Sst }", ""),
    ),
    (
        &[0; 5],
        Table::Refuses("Len { expected: 8, found: 5, typ: Sst }", ""),
    ),
    (
        &[0; 6],
        Table::Refuses("Len { expected: 8, found: 6, typ: Sst }", ""),
    ),
    (
        &[0; 7],
        Table::Refuses("Len { expected: 8, found: 7, typ: Sst }", ""),
    ),
    (&[0; 8], Table::Gives("0|. Ok(0) Ok(None)Ok(None)")),
    (
        &[0; 9],
        Table::Refuses("Len { expected: 3, found: 1, typ: RichString }", ""),
    ),
    (
        &[0; 10],
        Table::Refuses("Len { expected: 3, found: 2, typ: RichString }", ""),
    ),
];

#[test]
fn tables_have_eight_bytes_and_strings(rt: HostRuntime) -> Result<(), Fail> {
    for (body, wanted) in TABLES.iter() {
        let r = Record {
            typ: SST,
            body,
            pieces: Pieces::new(&[]),
        };
        assert!(rt; answers(rt.alloc(), &r, *wanted)?, "{body:?}");
    }
    Ok(())
}
