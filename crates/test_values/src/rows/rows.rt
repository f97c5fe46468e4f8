//! Single rows, cell by cell and by their headers.

use super::{displayed, read_as, text};
use std::alloc::{AllocError, Global};
use std::test::Fail;
use xls_data::{CellErrorType, Data};
use xls_rows::{DeError, FromRow, ReadCell, RowDeserializer};

fn strings(alloc: Global, texts: &[&str]) -> Result<Vec<String>, AllocError> {
    let mut strings = Vec::new(alloc);
    for s in texts {
        strings.push(String::from_str(alloc, s)?)?;
    }
    Ok(strings)
}

// The printed cells that are left of a row, each with a bar after it.
fn cells_of<T: ReadCell>(
    alloc: Global,
    row: &mut RowDeserializer<'_, '_, T>,
) -> Result<String, AllocError> {
    let mut text = String::new(alloc);
    for _ in 0..4 {
        let Some(cell) = row.next_cell() else {
            break;
        };
        let printed = read_as(alloc, "text", cell)?;
        write!(text, "{printed}|")?;
    }
    Ok(text)
}

// Adds the next pair of a row with headers, and a bar; whether there was one.
fn push_pair<T: ReadCell>(
    alloc: Global,
    row: &mut RowDeserializer<'_, '_, T>,
    text: &mut String,
) -> Result<bool, Fail> {
    if !row.has_headers() {
        return Ok(false);
    }
    let Some(key) = row.next_key() else {
        return Ok(false);
    };
    let printed = read_as(alloc, "text", row.next_value()?)?;
    write!(text, "{key}={printed}|")?;
    Ok(true)
}

// Whether no cell is kept for its value.
fn has_no_value<T: ReadCell>(row: &mut RowDeserializer<'_, '_, T>) -> bool {
    row.next_value().is_err()
}

// Whether these are the pairs that are left of a row with headers, and no value is left after them:
// a value is forgotten once it is given.
fn gives_pairs<T: ReadCell>(
    alloc: Global,
    row: &mut RowDeserializer<'_, '_, T>,
    wanted: &str,
) -> Result<bool, Fail> {
    let mut text = String::new(alloc);
    for _ in 0..4 {
        if !push_pair(alloc, row, &mut text)? {
            break;
        }
    }
    Ok(text.as_str() == wanted && has_no_value(row))
}

// Whether these are the printed cells that are left of a row, each with a bar after it.
fn gives_cells<T: ReadCell>(
    alloc: Global,
    row: &mut RowDeserializer<'_, '_, T>,
    wanted: &str,
) -> Result<bool, AllocError> {
    Ok(cells_of(alloc, row)?.as_str() == wanted && row.next_cell().is_none())
}

// Whether a row is at this position and has no headers.
fn is_unnamed<T: ReadCell>(row: &RowDeserializer<'_, '_, T>, position: (u32, u32)) -> bool {
    row.position() == position && !row.has_headers()
}

#[test]
fn gives_the_cells_in_the_order_of_the_indexes(rt: HostRuntime) -> Result<(), Fail> {
    let cells = [Data::Int(7), Data::Empty, Data::Int(9)];
    let mut row = RowDeserializer::new(&[2, 0], None, &cells, (1, 0));
    assert!(rt; is_unnamed(&row, (1, 0)) && gives_cells(rt.alloc(), &mut row, "9|7|")?);
    let mut row = RowDeserializer::new(&[0, 1], None, &cells, (1, 0));
    assert!(rt; gives_cells(rt.alloc(), &mut row, "7||")?);
    Ok(())
}

#[test]
fn has_no_value_without_a_key(rt: HostRuntime) {
    let cells = [Data::Int(7)];
    let mut row = RowDeserializer::new(&[0], None, &cells, (1, 0));
    match row.next_value() {
        Err(DeError::UnexpectedEndOfRow { pos }) => assert_eq!(rt; pos, (1, 0)),
        _ => assert!(rt; false, "another answer"),
    }
}

#[test]
fn gives_keys_and_values_and_passes_over_empty_cells(rt: HostRuntime) -> Result<(), Fail> {
    let headers = strings(rt.alloc(), &["a", "b", "c"])?;
    let cells = [Data::Int(7), Data::Empty, Data::Int(9)];
    assert!(rt; headers.len() == 3);
    let mut row = RowDeserializer::new(&[2, 1, 0], Some(headers.as_slice()), &cells, (1, 0));
    assert!(rt; gives_pairs(rt.alloc(), &mut row, "c=9|a=7|")?);
    Ok(())
}

fn whole_row<T: ReadCell, D: FromRow>(
    alloc: Global,
    row: &mut RowDeserializer<'_, '_, T>,
) -> Result<D, DeError> {
    D::from_row(alloc, row)
}

// Whether a row is read as these texts, and nothing is left of it.
fn gives_texts<T: ReadCell>(
    alloc: Global,
    row: &mut RowDeserializer<'_, '_, T>,
    wanted: &[&str],
) -> Result<bool, Fail> {
    let texts: Vec<String> = whole_row(alloc, row)?;
    Ok(texts == strings(alloc, wanted)? && row.next_cell().is_none())
}

fn are_nothing_and_true(copies: &[Data]) -> bool {
    match copies {
        [first, second] => *first == Data::Empty && *second == Data::Bool(true),
        _ => false,
    }
}

fn gives_nothing_and_true<T: ReadCell>(
    alloc: Global,
    row: &mut RowDeserializer<'_, '_, T>,
) -> Result<bool, DeError> {
    let copies: Vec<Data> = whole_row(alloc, row)?;
    Ok(are_nothing_and_true(&copies))
}

#[test]
fn reads_a_row_as_texts_or_as_copies(rt: HostRuntime) -> Result<(), Fail> {
    let cells = [Data::Bool(true), text(rt.alloc(), "x")?, Data::Empty];
    let mut row = RowDeserializer::new(&[0, 1, 2], None, &cells, (1, 0));
    assert!(rt; gives_texts(rt.alloc(), &mut row, &["true", "x", ""])?);
    let mut row = RowDeserializer::new(&[2, 0], None, &cells, (1, 0));
    assert!(rt; gives_nothing_and_true(rt.alloc(), &mut row)?);
    Ok(())
}

// Whether a row is refused with this text.
fn is_refused<T: ReadCell>(
    alloc: Global,
    row: &mut RowDeserializer<'_, '_, T>,
    wanted: &str,
) -> Result<bool, AllocError> {
    let texts: Result<Vec<String>, DeError> = whole_row(alloc, row);
    match texts {
        Ok(_) => Ok(false),
        Err(refusal) => Ok(displayed::<u8>(alloc, Err(refusal))?.as_str() == wanted),
    }
}

#[test]
fn gives_a_refused_row_back(rt: HostRuntime) -> Result<(), Fail> {
    let cells = [Data::Int(7), Data::Error(CellErrorType::NA)];
    let mut row = RowDeserializer::new(&[0, 1], None, &cells, (4, 2));
    assert!(rt;
        is_refused(
            rt.alloc(),
            &mut row,
            "Cell error at position '(4, 2)': #N/A"
        )?
    );
    assert!(rt; row.next_cell() == Some(&Data::Int(7)));
    Ok(())
}
