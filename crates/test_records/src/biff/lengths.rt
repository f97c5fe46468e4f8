//! The readers on bodies of every length, all of one byte.

use super::readers::*;
use super::*;
use xls_stream::types::{
    BOOL_ERR, DIMENSIONS, FORMULA, LABEL, LABEL_SST, MERGE_CELLS, MUL_RK, NUMBER, R_STRING, RK,
    STRING,
};

/// What a reader wants of a body.
#[derive(Clone, Copy)]
enum Want {
    /// Of this part, from this byte on, so many bytes.
    Least(Part, usize, usize),
    /// Of this part, one of these lengths; others are told that so many bytes are expected.
    OneOf(Part, usize, &'static [usize]),
}

/// Readers, the byte that fills their bodies, and what they want, in order.
static WANTS: [(Reader, u8, &[Want]); 32] = [
    (Reader::Bof, 0, &[Want::Least(Part::Bof, 0, 2)]),
    (Reader::FilePass, 0, &[Want::Least(Part::FilePass, 0, 2)]),
    (Reader::DateMode, 0, &[Want::Least(Part::DateMode, 0, 2)]),
    (
        Reader::ExternSheet(Biff::Biff8),
        0,
        &[Want::Least(Part::ExternSheet, 0, 2)],
    ),
    (Reader::Xf, 0, &[Want::Least(Part::Xf, 0, 4)]),
    (
        Reader::Format(UTF16, Biff::Biff8),
        1,
        &[
            Want::Least(Part::Format, 0, 2),
            Want::Least(Part::Text, 2, 3),
        ],
    ),
    (
        Reader::Format(UTF16, Biff::Biff5),
        1,
        &[
            Want::Least(Part::Format, 0, 2),
            Want::Least(Part::ShortString, 2, 1),
        ],
    ),
    (
        Reader::Sheet(Biff::Biff8),
        0,
        &[
            Want::Least(Part::BoundSheet, 0, 6),
            Want::Least(Part::ShortString, 6, 2),
        ],
    ),
    (
        Reader::Sheet(Biff::Biff5),
        0,
        &[
            Want::Least(Part::BoundSheet, 0, 6),
            Want::Least(Part::ShortString, 6, 1),
        ],
    ),
    (
        Reader::SheetCheck(Biff::Biff8),
        0,
        &[
            Want::Least(Part::BoundSheet, 0, 6),
            Want::Least(Part::ShortString, 6, 2),
        ],
    ),
    (
        Reader::SheetCheck(Biff::Biff5),
        0,
        &[
            Want::Least(Part::BoundSheet, 0, 6),
            Want::Least(Part::ShortString, 6, 1),
        ],
    ),
    (Reader::Number, 0, &[Want::Least(Part::Number, 0, 14)]),
    (Reader::Rk(&[]), 0, &[Want::Least(Part::Rk, 0, 10)]),
    (Reader::BoolErr, 0, &[Want::Least(Part::BoolErr, 0, 8)]),
    (
        Reader::Label(Biff::Biff8),
        1,
        &[
            Want::Least(Part::Label, 0, 6),
            Want::Least(Part::Text, 6, 3),
        ],
    ),
    (
        Reader::Label(Biff::Biff5),
        1,
        &[
            Want::Least(Part::Label, 0, 6),
            Want::Least(Part::Text, 6, 2),
        ],
    ),
    (Reader::LabelSst, 0, &[Want::Least(Part::LabelSst, 0, 10)]),
    (Reader::Formula, 0, &[Want::Least(Part::Formula, 0, 20)]),
    (
        Reader::MergeCells,
        0,
        &[Want::Least(Part::MergeCells, 0, 2)],
    ),
    (
        Reader::Check(NUMBER, Biff::Biff8),
        0,
        &[Want::Least(Part::Number, 0, 14)],
    ),
    (
        Reader::Check(RK, Biff::Biff8),
        0,
        &[Want::Least(Part::Rk, 0, 10)],
    ),
    (
        Reader::Check(BOOL_ERR, Biff::Biff8),
        0,
        &[Want::Least(Part::BoolErr, 0, 8)],
    ),
    (
        Reader::Check(LABEL, Biff::Biff5),
        1,
        &[
            Want::Least(Part::Label, 0, 6),
            Want::Least(Part::Text, 6, 2),
        ],
    ),
    (
        Reader::Check(R_STRING, Biff::Biff8),
        1,
        &[
            Want::Least(Part::Label, 0, 6),
            Want::Least(Part::Text, 6, 3),
        ],
    ),
    (
        Reader::Check(LABEL_SST, Biff::Biff8),
        0,
        &[Want::Least(Part::LabelSst, 0, 10)],
    ),
    (
        Reader::Check(STRING, Biff::Biff8),
        1,
        &[Want::Least(Part::Text, 0, 3)],
    ),
    (
        Reader::Check(FORMULA, Biff::Biff8),
        0,
        &[Want::Least(Part::Formula, 0, 20)],
    ),
    (
        Reader::Check(MERGE_CELLS, Biff::Biff8),
        0,
        &[Want::Least(Part::MergeCells, 0, 2)],
    ),
    // one cell in columns 0 to 0
    (
        Reader::MulRk,
        0,
        &[
            Want::Least(Part::Rk, 0, 6),
            Want::OneOf(Part::Rk, 12, &[12]),
        ],
    ),
    (
        Reader::Check(MUL_RK, Biff::Biff8),
        0,
        &[
            Want::Least(Part::Rk, 0, 6),
            Want::OneOf(Part::Rk, 12, &[12]),
        ],
    ),
    (
        Reader::Dimensions,
        0,
        &[Want::OneOf(Part::Dimensions, 14, &[10, 14, 16])],
    ),
    (
        Reader::Check(DIMENSIONS, Biff::Biff8),
        0,
        &[Want::OneOf(Part::Dimensions, 14, &[10, 14, 16])],
    ),
];

/// The refusal of the first want that so many bytes don't serve.
fn refusal_of(wants: &[Want], found: usize) -> Option<XlsError> {
    for want in wants {
        let (typ, at, expected, serves) = match *want {
            Want::Least(typ, at, size) => (typ, at, size, found >= at.saturating_add(size)),
            Want::OneOf(typ, size, sizes) => (typ, 0, size, sizes.iter().any(|n| *n == found)),
        };
        if !serves {
            return Some(XlsError::Len {
                expected,
                found: found.saturating_sub(at),
                typ,
            });
        }
    }
    None
}

/// The first length of a body that is refused otherwise than wanted.
fn other_len(
    alloc: Global,
    reader: Reader,
    byte: u8,
    wants: &[Want],
) -> Result<Option<usize>, AllocError> {
    let whole = [byte; 23];
    for len in 0..23 {
        let (body, _) = whole.split_at(len);
        let answer = answer_of(alloc, reader, body)?;
        let is_wanted = match refusal_of(wants, len) {
            Some(e) => answer == refusal(alloc, e)?,
            None => !answer.starts_with("Err("),
        };
        if !is_wanted {
            return Ok(Some(len));
        }
    }
    Ok(None)
}

#[test]
fn bodies_have_their_sizes(rt: HostRuntime) -> Result<(), Fail> {
    for (i, (reader, byte, wants)) in WANTS.iter().enumerate() {
        let other = other_len(rt.alloc(), *reader, *byte, wants)?;
        assert!(rt; other == None, "row {i}: {other:?} bytes");
    }
    Ok(())
}
