use crate::{Book, Linked, OtherBooks, kind_word};
use std::alloc::{AllocError, Global};
use xls_parts::PartRecord;
use xls_record::Biff;
use xls_stream::types::FORMULA;
use xls_text::XlsEncoding;

// The globals of a workbook of BIFF8: a SupBook of this workbook; one of `C:\old\led.xls` with the sheets Jan, Feb and
// one with a letter above 7F, and the name Rate; one of a program, with a short ExternName; one that is cut in its
// sheets, with the name Name; two entries of ExternSheet; behind the EOF another SupBook.
static GLOBALS: [u8; 174] = [
    9, 8, 4, 0, 0, 6, 5, 0, 0xAE, 1, 4, 0, 1, 0, 1, 4, 0xAE, 1, 0x26, 0, 3, 0, 0x0E, 0, 0, 1, 1,
    b'C', b'o', b'l', b'd', 3, b'l', b'e', b'd', 0x2E, b'x', b'l', b's', 3, 0, 0, b'J', b'a', b'n',
    3, 0, 0, b'F', b'e', b'b', 4, 0, 0, b'M', 0xE4, b'r', b'z', 0x23, 0, 0x0C, 0, 0, 0, 0, 0, 0, 0,
    4, 0, b'R', b'a', b't', b'e', 0xAE, 1, 0x13, 0, 0, 0, 0x0E, 0, 0, b'E', b'x', b'c', b'e', b'l',
    3, 0x5B, b'b', 0x2E, b'x', b'l', b's', 0x5D, b'S', 0x23, 0, 6, 0, 0, 0, 0, 0, 0, 0, 0xAE, 1,
    0x11, 0, 2, 0, 6, 0, 0, 1, b'a', 0x2E, b'x', b'l', b's', 3, 0, 0, b'O', b'n', b'e', 0x23, 0,
    0x0C, 0, 0, 0, 0, 0, 0, 0, 4, 0, b'N', b'a', b'm', b'e', 0x17, 0, 0x0E, 0, 2, 0, 1, 0, 0, 0, 2,
    0, 1, 0, 1, 0, 1, 0, 0x0A, 0, 0, 0, 0xAE, 1, 4, 0, 1, 0, 1, 4,
];

// A formula in the fourth row and the third column: a place in Jan to the last sheet, the name Rate, and another place
// in the same sheets.
static FORMULA_BODY: [u8; 43] = [
    3, 0, 2, 0, 0, 0, 0, 0, 0, 0, 0, 0, 0, 0, 0, 0, 0, 0, 0, 0, 0x15, 0, b'Z', 0, 0, 0, 0, 0, 0,
    b'Y', 1, 0, 1, 0, 0, 0, b'Z', 0, 0, 4, 0, 0, 0,
];

// The globals of BIFF5: a sheet of this workbook, two sheets of one workbook, added functions, and one that is empty.
static EARLY: [u8; 63] = [
    9, 8, 4, 0, 0, 5, 5, 0, 0x17, 0, 5, 0, 3, 3, b'O', b'w', b'n', 0x17, 0, 0x0C, 0, 0x0B, 1, 1,
    b'C', b'd', 3, 0x5B, b'b', 0x5D, b'S', 0x20, 0x31, 0x17, 0, 0x0C, 0, 0x0B, 1, 1, b'C', b'd', 3,
    0x5B, b'b', 0x5D, b'S', 0x20, 0x32, 0x17, 0, 2, 0, 1, 0x3A, 0x17, 0, 0, 0, 0x0A, 0, 0, 0,
];

fn push_book(book: &Book, text: &mut String) -> Result<(), AllocError> {
    if let Some(word) = kind_word(book.linked) {
        write!(text, "{word} {} {};", book.path, book.topic)?;
    }
    for sheet in &book.sheets {
        write!(text, "sheet {sheet};")?;
    }
    for name in &book.names {
        match name {
            Ok(name) => write!(text, "name {name};")?,
            Err(damage) => write!(
                text,
                "{} {} {};",
                damage.record_name, damage.offset, damage.flaw
            )?,
        }
    }
    if let Some(damage) = book.damage {
        write!(
            text,
            "{} {} {};",
            damage.record_name, damage.offset, damage.flaw
        )?;
    }
    Ok(())
}

fn told(alloc: Global, books: &[Book]) -> Result<String, AllocError> {
    let mut text = String::new(alloc);
    for book in books {
        push_book(book, &mut text)?;
    }
    Ok(text)
}

// The expected lines follow from the bytes by [MS-XLS]; the damaged SupBook is told behind its names.
#[test]
fn tells_what_sup_books_link(rt: HostRuntime) -> Result<(), AllocError> {
    let other = OtherBooks::read(rt.alloc(), &GLOBALS, Biff::Biff8, &XlsEncoding::Windows1252)?;
    let books = other.books();
    assert!(rt; books.len() == 4 && books[0].linked == Linked::Nothing);
    let whole = told(rt.alloc(), &books[..2])?;
    let hurt = told(rt.alloc(), &books[2..])?;
    assert!(rt;
        whole.as_str() == "book C:\\old\\led.xls ;sheet Jan;sheet Feb;sheet M\u{E4}rz;name Rate;"
    );
    assert!(rt;
        hurt.as_str().starts_with(
            "dde Excel [b.xls]S;ExternName 97 shorter than 7 bytes: 6;book a.xls ;sheet One;"
        )
    );
    assert!(rt;
        hurt.as_str()
            .ends_with(";name Name;SupBook 107 it ends before its names do;")
    );
    Ok(())
}

#[test]
fn tells_what_external_sheets_link(rt: HostRuntime) -> Result<(), AllocError> {
    let other = OtherBooks::read(rt.alloc(), &EARLY, Biff::Biff5, &XlsEncoding::Windows1252)?;
    let books = other.books();
    let text = told(rt.alloc(), books)?;
    assert!(rt; text.as_str() == "book C:\\d\\b ;sheet S 1;sheet S 2;ExternSheet 55 it is empty;");
    Ok(())
}

#[test]
fn tells_what_a_formula_cites(rt: HostRuntime) -> Result<(), AllocError> {
    let other = OtherBooks::read(rt.alloc(), &GLOBALS, Biff::Biff8, &XlsEncoding::Windows1252)?;
    let formula = PartRecord {
        offset: 0,
        typ: FORMULA,
        body: &FORMULA_BODY,
    };
    let outside = other.outside(rt.alloc(), &formula)?;
    match outside {
        Some(outside) => {
            assert!(rt; outside.row == 3 && outside.column == 2 && outside.cited.len() == 2);
            let first = &outside.cited[0];
            let second = &outside.cited[1];
            assert!(rt;
                first.book == "C:\\old\\led.xls"
                    && first.sheet.as_str() == "Jan:M\u{E4}rz"
                    && first.name == ""
            );
            assert!(rt;
                second.book == first.book && second.sheet.as_str() == "" && second.name == "Rate"
            );
        }
        None => assert!(rt; false),
    }
    Ok(())
}
