//! The size of each token, and what is answered for fewer bytes: [MS-XLS] 2.5.198, and the rules of
//! this project for older layouts.

use std::alloc::{AllocError, Global};
use std::test::*;
use xls_biff::{Biff, Part, XlsError};
use xls_ptg::*;

/// Tokens with their sizes in BIFF8 and before, the part that is named where they are cut, and
/// whether they cite cells.
static CLASSES: [(u8, usize, usize, Part, bool); 52] = [
    (0x01, 4, 4, Part::PtgExp, false),
    (0x03, 0, 0, Part::Ptg, false),
    (0x0A, 0, 0, Part::Ptg, false),
    (0x11, 0, 0, Part::Ptg, false),
    (0x12, 0, 0, Part::Ptg, false),
    (0x13, 0, 0, Part::Ptg, false),
    (0x14, 0, 0, Part::Ptg, false),
    (0x15, 0, 0, Part::Ptg, false),
    (0x16, 0, 0, Part::Ptg, false),
    (0x18, 5, 5, Part::Ptg, false),
    (0x1C, 1, 1, Part::Ptg, false),
    (0x1D, 1, 1, Part::Ptg, false),
    (0x1E, 2, 2, Part::Ptg, false),
    (0x1F, 8, 8, Part::Ptg, false),
    (0x20, 7, 7, Part::Ptg, false),
    (0x40, 7, 7, Part::Ptg, false),
    (0x60, 7, 7, Part::Ptg, false),
    (0x21, 2, 2, Part::Ptg, false),
    (0x41, 2, 2, Part::Ptg, false),
    (0x61, 2, 2, Part::Ptg, false),
    (0x22, 3, 3, Part::Ptg, false),
    (0x42, 3, 3, Part::Ptg, false),
    (0x62, 3, 3, Part::Ptg, false),
    (0x23, 4, 14, Part::Ptg, false),
    (0x43, 4, 14, Part::Ptg, false),
    (0x63, 4, 14, Part::Ptg, false),
    (0x24, 4, 3, Part::Ptg, true),
    (0x44, 4, 3, Part::Ptg, true),
    (0x64, 4, 3, Part::Ptg, true),
    (0x25, 8, 6, Part::Ptg, true),
    (0x45, 8, 6, Part::Ptg, true),
    (0x65, 8, 6, Part::Ptg, true),
    (0x2A, 4, 3, Part::Ptg, false),
    (0x4A, 4, 3, Part::Ptg, false),
    (0x6A, 4, 3, Part::Ptg, false),
    (0x2B, 8, 6, Part::Ptg, false),
    (0x4B, 8, 6, Part::Ptg, false),
    (0x6B, 8, 6, Part::Ptg, false),
    (0x39, 6, 24, Part::Ptg, false),
    (0x59, 6, 24, Part::Ptg, false),
    (0x3A, 6, 17, Part::Ptg, true),
    (0x5A, 6, 17, Part::Ptg, true),
    (0x7A, 6, 17, Part::Ptg, true),
    (0x3B, 10, 20, Part::Ptg, true),
    (0x5B, 10, 20, Part::Ptg, true),
    (0x7B, 10, 20, Part::Ptg, true),
    (0x3C, 6, 17, Part::Ptg, false),
    (0x5C, 6, 17, Part::Ptg, false),
    (0x7C, 6, 17, Part::Ptg, false),
    (0x3D, 10, 20, Part::Ptg, false),
    (0x5D, 10, 20, Part::Ptg, false),
    (0x7D, 10, 20, Part::Ptg, false),
];

/// Attributes with their sizes.
static ATTRIBUTES: [(u8, usize); 8] = [
    (0x01, 2),
    (0x02, 2),
    (0x08, 2),
    (0x20, 2),
    (0x21, 2),
    (0x10, 2),
    (0x40, 2),
    (0x41, 2),
];

/// The first bytes of a token, and so many zeros after them.
fn token_of(alloc: Global, first: &[u8], zeros: usize) -> Result<Vec<u8>, AllocError> {
    let mut bytes = Vec::from_slice(alloc, first)?;
    for _ in 0..zeros {
        bytes.push(0)?;
    }
    Ok(bytes)
}

/// Whether the token is refused with every number of bytes below its size, and read with that many.
fn has_size(
    alloc: Global,
    first: &[u8],
    size: usize,
    typ: Part,
    biff: Biff,
) -> Result<bool, AllocError> {
    for found in 0..size {
        let bytes = token_of(alloc, first, found)?;
        let short = XlsError::Len {
            expected: size,
            found,
            typ,
        };
        if bytes.is_empty() || read_token(&bytes, biff) != Err(short) {
            return Ok(false);
        }
    }
    let bytes = token_of(alloc, first, size)?;
    if bytes.is_empty() {
        return Ok(false);
    }
    match read_token(&bytes, biff) {
        Ok(token) => Ok(token.size == bytes.len()),
        Err(_) => Ok(false),
    }
}

#[test]
fn reads_tokens_of_their_size_alone(rt: HostRuntime) -> Result<(), Fail> {
    for (ptg, size, early, typ, _) in CLASSES.iter() {
        assert!(rt; has_size(rt.alloc(), &[*ptg], *size, *typ, Biff::Biff8)?);
        assert!(rt; has_size(rt.alloc(), &[*ptg], *early, *typ, Biff::Biff5)?);
    }
    Ok(())
}

#[test]
fn reads_attributes_of_their_size_alone(rt: HostRuntime) -> Result<(), Fail> {
    for (attribute, size) in ATTRIBUTES.iter() {
        assert!(rt;
            has_size(
                rt.alloc(),
                &[0x19, *attribute],
                *size,
                Part::Ptg,
                Biff::Biff8
            )?
        );
        assert!(rt;
            has_size(
                rt.alloc(),
                &[0x19, *attribute],
                *size,
                Part::Ptg,
                Biff::Biff5
            )?
        );
    }
    Ok(())
}

fn cites(alloc: Global, ptg: u8, size: usize, biff: Biff) -> Result<Option<bool>, AllocError> {
    let bytes = token_of(alloc, &[ptg], size)?;
    if bytes.is_empty() {
        return Ok(None);
    }
    match read_token(&bytes, biff) {
        Ok(token) => Ok(Some(token.cite.is_some())),
        Err(_) => Ok(None),
    }
}

#[test]
fn tells_which_tokens_cite_cells(rt: HostRuntime) -> Result<(), Fail> {
    for (ptg, size, early, _, is_cite) in CLASSES.iter() {
        assert!(rt; cites(rt.alloc(), *ptg, *size, Biff::Biff8)? == Some(*is_cite));
        assert!(rt; cites(rt.alloc(), *ptg, *early, Biff::Biff5)? == Some(*is_cite));
    }
    Ok(())
}

/// What a token of too few bytes answers.
fn is_short(bytes: &[u8], biff: Biff, expected: usize, found: usize, typ: Part) -> bool {
    let short = XlsError::Len {
        expected,
        found,
        typ,
    };
    !bytes.is_empty() && read_token(bytes, biff) == Err(short)
}

/// Tokens that are cut: their bytes, the version, and how many bytes of which part are expected and
/// found.
static CUT: [(&[u8], Biff, usize, usize, Part); 11] = [
    (&[0x17], Biff::Biff8, 1, 0, Part::PtgStr),
    (&[0x17, 2], Biff::Biff8, 1, 0, Part::NoCch),
    (&[0x17, 2, 0, 65], Biff::Biff8, 3, 2, Part::NoCch),
    (&[0x17, 2, 1, 65, 0, 66], Biff::Biff8, 5, 4, Part::NoCch),
    (&[0x17], Biff::Biff5, 1, 0, Part::PtgStr),
    (&[0x17, 2, 65], Biff::Biff5, 3, 2, Part::PtgStr),
    (&[0x19], Biff::Biff8, 1, 0, Part::Ptg),
    (&[0x19, 4, 1], Biff::Biff8, 2, 1, Part::Ptg),
    (&[0x19, 4, 1, 0], Biff::Biff8, 6, 2, Part::Ptg),
    (&[0x19, 4, 1, 0, 0, 0, 0], Biff::Biff5, 6, 5, Part::Ptg),
    (&[0x24, 0, 0], Biff::Biff8, 4, 2, Part::Ptg),
];

#[test]
fn reads_no_token_that_is_cut(rt: HostRuntime) {
    for (bytes, biff, expected, found, typ) in CUT.iter() {
        assert!(rt; is_short(bytes, *biff, *expected, *found, *typ));
    }
}

fn answers(bytes: &[u8], biff: Biff, answer: &Result<Token, XlsError>) -> bool {
    !bytes.is_empty() && read_token(bytes, biff) == *answer
}

/// What refuses a byte in a code table of its own.
fn unknown(typ: Part, val: u8) -> Result<Token, XlsError> {
    Err(XlsError::Unrecognized { typ, val })
}

#[test]
fn refuses_unknown_tokens(rt: HostRuntime) {
    for ptg in [0x00, 0x02, 0x1A, 0x1B, 0x26, 0x3E, 0x79, 0x80, 0xFF] {
        assert!(rt; answers(&[ptg], Biff::Biff8, &unknown(Part::Ptg, ptg)));
    }
    for code in [0x01, 0x08, 0x2C, 0xFF] {
        assert!(rt; answers(&[0x1C, code], Biff::Biff8, &unknown(Part::BErr, code)));
    }
    for kind in [0x07, 0xFF] {
        let space = [0x19, 0x40, kind, 1];
        assert!(rt; answers(&space, Biff::Biff8, &unknown(Part::SpaceKind, kind)));
    }
    assert!(rt; answers(&[0x19, 3, 0, 0], Biff::Biff8, &Err(XlsError::Etpg(3))));
}

#[test]
fn tells_the_cells_of_an_area(rt: HostRuntime) {
    let area = [0x5B, 2, 0, 0, 0, 9, 0, 1, 0xC0, 2, 0x40];
    let cite = RawCite {
        sheet: Some(2),
        first: (0, 1),
        last: (9, 2),
    };
    let token = Token {
        size: 11,
        cite: Some(cite),
    };
    assert!(rt; answers(&area, Biff::Biff8, &Ok(token)));
}
