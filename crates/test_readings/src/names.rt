//! Names in formulas as Excel writes them.

use std::alloc::{AllocError, Global};
use std::test::Fail;
use xls_formula_names::{
    Link, Path, Sheets, built_in_name, command_name, needs_quotes, push_book, push_file, push_link,
    push_name, push_quoted, push_sheets,
};

static QUOTES: [(&str, bool); 8] = [
    ("Data", false),
    ("My Data", true),
    ("A1", true),
    ("IW1", false),
    ("R1C1", true),
    ("2024", true),
    ("TRUE", true),
    ("Größe", false),
];

static SHEETS: [(Sheets<'static>, &str); 4] = [
    (Sheets::One("Data"), "$Data"),
    (Sheets::One("Bob's"), "$'Bob''s'"),
    (Sheets::Range("Jan", "My Dec"), "$'Jan:My Dec'"),
    (Sheets::Gone, "$#REF"),
];

fn is_prefix(alloc: Global, sheets: Sheets<'_>, expected: &str) -> Result<bool, AllocError> {
    let mut text = String::from_str(alloc, "$")?;
    push_sheets(sheets, &mut text)?;
    Ok(text.as_str() == expected)
}

#[test]
fn quotes_names_as_excel_does(rt: HostRuntime) -> Result<(), Fail> {
    for (name, is_quoted) in QUOTES.iter() {
        assert!(rt; needs_quotes(name) == *is_quoted);
    }
    for (sheets, expected) in SHEETS.iter() {
        assert!(rt; is_prefix(rt.alloc(), *sheets, expected)?);
    }
    Ok(())
}

fn book_of(alloc: Global, path: &str) -> Result<String, AllocError> {
    let path = Path::read(alloc, path)?;
    let mut text = String::new(alloc);
    push_book(
        path.dir.as_str(),
        path.file.as_str(),
        Sheets::One("Data"),
        &mut text,
    )?;
    text.push(' ')?;
    push_file(path.dir.as_str(), path.file.as_str(), &mut text)?;
    Ok(text)
}

fn link_of(alloc: Global, path: &str) -> Result<String, AllocError> {
    let mut text = String::new(alloc);
    if let Some(link) = Link::read(alloc, path)? {
        push_link(link.app.as_str(), link.topic.as_str(), &mut text)?;
    }
    push_name("My Data", &mut text)?;
    push_quoted("A", &mut text)?;
    Ok(text)
}

#[test]
fn names_other_books_and_programs(rt: HostRuntime) -> Result<(), Fail> {
    let near = book_of(rt.alloc(), "b.xls")?;
    assert!(rt; near.as_str() == "[b.xls]Data b.xls");
    let far = book_of(rt.alloc(), "\u{1}\u{1}Cold\u{3}b.xls")?;
    assert!(rt; far.as_str() == "'C:\\old\\[b.xls]Data' 'C:\\old\\b.xls'");
    let link = link_of(rt.alloc(), "Winword\u{3}a")?;
    assert!(rt; link.as_str() == "Winword|a'My Data''A'");
    assert!(rt; built_in_name('\u{6}') == Some("Print_Area"));
    assert!(rt; command_name(0) == Some("BEEP"));
    Ok(())
}
