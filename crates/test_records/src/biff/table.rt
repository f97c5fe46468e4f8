//! String tables.

use super::*;

/// Tables in a first piece and others, and what they answer. An answer without units comes twice.
static TABLES: [(&str, &[u8], &[&[u8]], Table); 10] = [
    (
        "joins a pair that is cut",
        &[2, 0, 1, 0x3D, 0xD8],
        &[&[1, 0, 0xDE]],
        Table::Gives("1|\u{1F600}|. Ok(1) Ok(Some([55357, 56832]))Ok(None)Ok(None)"),
    ),
    (
        "sets the width anew inside a string",
        &[2, 0, 0, 0x41],
        &[&[1, 0x42, 0]],
        Table::Gives("1|AB|. Ok(1) Ok(Some([65, 66]))Ok(None)Ok(None)"),
    ),
    (
        "sets the width anew before a string's units",
        &[1, 0, 0],
        &[&[0, 0x41]],
        Table::Gives("1|A|. Ok(1) Ok(Some([65]))Ok(None)Ok(None)"),
    ),
    (
        "an empty piece is an empty string",
        &[1, 0, 0, 0x61],
        &[&[], &[1, 0, 0, 0x62]],
        Table::Gives("3|a||b|. Ok(3) Ok(Some([97]))Ok(Some([]))Ok(Some([98]))Ok(None)Ok(None)"),
    ),
    (
        "refuses half a unit",
        &[2, 0, 1, 0x3D, 0xD8, 0],
        &[&[1, 0, 0xDE]],
        Table::Refuses("EoStream(Dbcs)", ""),
    ),
    (
        "refuses missing units",
        &[2, 0, 0, 0x41],
        &[&[], &[0, 0x42]],
        Table::Refuses("EoStream(Dbcs)", ""),
    ),
    (
        "refuses a negative extension",
        &[0, 0, 4, 0xFF, 0xFF, 0xFF, 0xFF],
        &[],
        Table::Refuses("ContinueRecordTooShort", ""),
    ),
    (
        "refuses a cut head",
        &[0, 0, 0, 1, 0, 8, 0],
        &[],
        Table::Refuses(
            "Len { expected: 5, found: 4, typ: RichString }",
            "Ok(Some([]))",
        ),
    ),
    // one run and three bytes of an extension, cut inside both; then `z`
    (
        "reads past runs and extension",
        &[1, 0, 12, 1, 0, 3, 0, 0, 0, 0x61, 9, 9],
        &[&[9, 9, 7, 7], &[7, 1, 0, 0, 0x7A]],
        Table::Gives("2|a|z|. Ok(2) Ok(Some([97]))Ok(Some([122]))Ok(None)Ok(None)"),
    ),
    (
        "a refused step leaves one byte of a head there",
        &[2, 0, 1, 0x3D, 0xD8],
        &[&[1, 0, 0xDE, 0, 0, 0, 1]],
        Table::Refuses(
            "Len { expected: 3, found: 1, typ: RichString }",
            "Ok(Some([55357, 56832]))Ok(Some([]))",
        ),
    ),
];

#[test]
fn reads_tables_in_pieces(rt: HostRuntime) -> Result<(), Fail> {
    for (word, first, others, wanted) in TABLES.iter() {
        assert!(rt;
            pieces_answer(rt.alloc(), first, others, *wanted)?,
            "{word}"
        );
    }
    Ok(())
}

/// Bytes, and so many letters after them.
fn with_letters(alloc: Global, head: &[u8], count: usize) -> Result<Vec<u8>, AllocError> {
    let mut bytes = head.to_vec(alloc)?;
    for _ in 0..count {
        bytes.push(0x61)?;
    }
    Ok(bytes)
}

/// A table of one string of 9,000 letters: a body of 8,224 bytes, and a piece of 788.
fn long_table(alloc: Global) -> Result<Vec<u8>, AllocError> {
    let first = with_letters(alloc, &[0x28, 0x23, 0], 8_213)?;
    let second = with_letters(alloc, &[0], 787)?;
    table_of(alloc, &first, &[&second])
}

/// Whether a table has one string, of 9,000 letters.
fn steps_over_letters(alloc: Global, bytes: &[u8]) -> Result<bool, XlsError> {
    let mut reader = SstReader::new(&record_of(bytes)?)?;
    let are_letters = match reader.next_units(alloc)? {
        Some(units) => units.len() == 9_000 && units.iter().all(|unit| *unit == 0x61),
        None => false,
    };
    Ok(are_letters && reader.next_units(alloc)?.is_none())
}

#[test]
fn steps_over_a_long_string(rt: HostRuntime) -> Result<(), Fail> {
    let bytes = long_table(rt.alloc())?;
    assert!(rt; steps_over_letters(rt.alloc(), &bytes)?);
    Ok(())
}
