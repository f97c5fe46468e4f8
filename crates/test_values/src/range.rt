use std::alloc::{AllocError, Global};
use std::fmt::Display;
use std::test::Fail;
use xls_data::{Cell, CellType, Data};
use xls_range::{Range, RangeError};

fn usize_cells(alloc: Global, cells: &[(u32, u32, usize)]) -> Result<Vec<Cell<usize>>, AllocError> {
    let mut input = Vec::new(alloc);
    for (row, column, value) in cells {
        input.push(Cell::new((*row, *column), *value))?;
    }
    Ok(input)
}

fn same(range: &Range<usize>, wanted: &[usize]) -> bool {
    let mut found = range.cells();
    for value in wanted {
        match found.next() {
            Some(cell) => {
                if *cell.2 != *value {
                    return false;
                }
            }
            None => return false,
        }
    }
    found.next().is_none()
}

// A range of blanks from (0, 0) to (5, 2) that was given these values.
fn grown(alloc: Global, values: &[((u32, u32), usize)]) -> Result<Range<usize>, RangeError> {
    let mut range = Range::new(alloc, (0, 0), (5, 2))?;
    for (position, value) in values {
        range.set_value(*position, *value)?;
    }
    Ok(range)
}

fn is_grown_down(range: &Range<usize>) -> bool {
    range.height() == 7 && range.cells().len() == 21 && range.get_value((6, 0)) == Some(&1)
}

fn is_grown_right(range: &Range<usize>) -> bool {
    range.get_size() == (7, 4)
        && range.get_value((6, 0)) == Some(&1)
        && range.get((6, 3)) == Some(&2)
        && range.used_cells().count() == 2
}

// Growing down adds the rows that are missing and no more.
#[test]
fn grows_down(rt: HostRuntime) -> Result<(), Fail> {
    assert!(rt; is_grown_down(&grown(rt.alloc(), &[((6, 0), 1)])?));
    Ok(())
}

#[test]
fn grows_right(rt: HostRuntime) -> Result<(), Fail> {
    assert!(rt; is_grown_right(&grown(rt.alloc(), &[((6, 0), 1), ((6, 3), 2)])?));
    Ok(())
}

fn is_box_of_four(range: &Range<usize>, corners: [(u32, u32); 2], values: &[usize]) -> bool {
    range.start() == Some(corners[0]) && range.end() == Some(corners[1]) && same(range, values)
}

#[test]
fn grows_from_nothing(rt: HostRuntime) -> Result<(), Fail> {
    let mut empty: Range<usize> = Range::empty(rt.alloc());
    empty.set_value((1, 1), 7)?;
    let is_grown = is_box_of_four(&empty, [(0, 0), (1, 1)], &[0, 0, 0, 7]);
    assert!(rt; is_grown && empty.get_size() == (2, 2));
    Ok(())
}

fn is_out_of_bounds<T: Drop>(built: Result<T, RangeError>) -> bool {
    matches!(built, Err(RangeError::Bounds))
}

fn is_too_large(built: Result<Range<usize>, RangeError>) -> bool {
    matches!(built, Err(RangeError::TooLarge))
}

#[test]
fn refuses_by_its_bounds(rt: HostRuntime) -> Result<(), Fail> {
    let mut range: Range<usize> = Range::new(rt.alloc(), (1, 1), (2, 2))?;
    let is_refused = is_out_of_bounds(range.set_value((0, 0), 9));
    let is_kept = is_box_of_four(&range, [(1, 1), (2, 2)], &[0, 0, 0, 0]);
    assert!(rt; is_refused && is_kept);
    Ok(())
}

#[test]
fn refuses_other_boxes(rt: HostRuntime) -> Result<(), Fail> {
    assert!(rt; is_too_large(Range::new(rt.alloc(), (0, 0), (4294967295, 4294967295))));
    let turned: Result<Range<usize>, RangeError> = Range::new(rt.alloc(), (0, 2), (1, 1));
    assert!(rt; is_out_of_bounds(turned));
    let corners = usize_cells(rt.alloc(), &[(0, 0, 1), (4294967295, 4294967295, 2)])?;
    assert!(rt; is_too_large(Range::from_sparse(rt.alloc(), corners)));
    Ok(())
}

fn prints(alloc: Global, refusal: RangeError, wanted: &str) -> Result<bool, AllocError> {
    Ok(refusal.to_string(alloc)?.as_str() == wanted)
}

#[test]
fn prints_its_refusals(rt: HostRuntime) -> Result<(), Fail> {
    assert!(rt; prints(rt.alloc(), RangeError::Bounds, "invalid range bounds")?);
    assert!(rt; prints(rt.alloc(), RangeError::TooLarge, "range too large")?);
    assert!(rt; prints(rt.alloc(), RangeError::Memory, "Out of memory")?);
    Ok(())
}

// The range of these cells.
fn spanned(alloc: Global, cells: &[(u32, u32, usize)]) -> Result<Range<usize>, Fail> {
    Ok(Range::from_sparse(alloc, usize_cells(alloc, cells)?)?)
}

fn is_column_of_three(range: &Range<usize>) -> bool {
    range.get_size() == (8, 1)
        && range.cells().len() == 8
        && range.used_cells().count() == 3
        && range.start() == Some((2, 2))
        && range.end() == Some((9, 2))
}

#[test]
fn spans_its_cells(rt: HostRuntime) -> Result<(), Fail> {
    let range = spanned(rt.alloc(), &[(2, 2, 1), (5, 2, 2), (9, 2, 3)])?;
    assert!(rt; is_column_of_three(&range));
    Ok(())
}

#[test]
fn shows_the_last_cell_of_a_position(rt: HostRuntime) -> Result<(), Fail> {
    let last = spanned(rt.alloc(), &[(3, 4, 1), (2, 5, 2), (3, 4, 3)])?;
    assert!(rt; same(&last, &[0, 2, 3, 0]));
    assert!(rt; spanned(rt.alloc(), &[])?.is_empty());
    Ok(())
}

#[test]
fn spans_sorted_cells_alike(rt: HostRuntime) -> Result<(), Fail> {
    let sorted = [
        Cell::new((2, 2), 1),
        Cell::new((5, 2), 2),
        Cell::new((9, 2), 3),
    ];
    let range = Range::from_sorted(rt.alloc(), &sorted)?;
    assert!(rt; range == spanned(rt.alloc(), &[(9, 2, 3), (2, 2, 1), (5, 2, 2)])?);
    Ok(())
}

// Int 1, 2, 3 at (1, 1), (1, 2), (3, 1).
fn three_cells(alloc: Global) -> Result<Range<Data>, Fail> {
    let mut input = Vec::new(alloc);
    input.push(Cell::new((1, 1), Data::Int(1)))?;
    input.push(Cell::new((1, 2), Data::Int(2)))?;
    input.push(Cell::new((3, 1), Data::Int(3)))?;
    Ok(Range::from_sparse(alloc, input)?)
}

// From (0, 0) to (2, 1) they are 1, 2, blank, blank, 3 and blank.
static THREE_CELLS: [(usize, usize, Option<i64>); 6] = [
    (0, 0, Some(1)),
    (0, 1, Some(2)),
    (1, 0, None),
    (1, 1, None),
    (2, 0, Some(3)),
    (2, 1, None),
];

fn is_value(data: &Data, wanted: Option<i64>) -> bool {
    match wanted {
        Some(n) => *data == Data::Int(n),
        None => *data == Data::Empty,
    }
}

fn is_cell(found: Option<(usize, usize, &Data)>, wanted: (usize, usize, Option<i64>)) -> bool {
    match found {
        Some((row, column, data)) => {
            row == wanted.0 && column == wanted.1 && is_value(data, wanted.2)
        }
        None => false,
    }
}

fn is_row(found: Option<&[Data]>, first: Option<i64>, second: Option<i64>) -> bool {
    match found {
        Some([a, b]) => is_value(a, first) && is_value(b, second),
        _ => false,
    }
}

fn goes_forward(range: &Range<Data>) -> bool {
    let mut cells = range.cells();
    for wanted in THREE_CELLS.iter() {
        if !is_cell(cells.next(), *wanted) {
            return false;
        }
    }
    cells.next().is_none()
}

fn goes_backward(range: &Range<Data>) -> bool {
    let mut cells = range.cells();
    for wanted in THREE_CELLS.iter().rev() {
        if !is_cell(cells.next_back(), *wanted) {
            return false;
        }
    }
    cells.next_back().is_none()
}

#[test]
fn goes_over_cells_from_both_ends(rt: HostRuntime) -> Result<(), Fail> {
    let range = three_cells(rt.alloc())?;
    assert!(rt; goes_forward(&range) && goes_backward(&range));
    Ok(())
}

fn gives_rows_from_both_ends(range: &Range<Data>) -> bool {
    let mut rows = range.rows();
    rows.len() == 3
        && is_row(rows.next_back(), Some(3), None)
        && is_row(rows.next(), Some(1), Some(2))
        && rows.size_hint() == (1, Some(1))
}

#[test]
fn goes_over_rows_from_both_ends(rt: HostRuntime) -> Result<(), Fail> {
    assert!(rt; gives_rows_from_both_ends(&three_cells(rt.alloc())?));
    Ok(())
}

fn gives_used_cells_from_both_ends(range: &Range<Data>) -> bool {
    let mut used = range.used_cells();
    used.size_hint() == (0, Some(6))
        && is_cell(used.next_back(), (2, 0, Some(3)))
        && used.size_hint() == (0, Some(4))
        && is_cell(used.next(), (0, 0, Some(1)))
        && used.size_hint() == (0, Some(3))
        && used.count() == 1
}

#[test]
fn goes_over_used_cells_from_both_ends(rt: HostRuntime) -> Result<(), Fail> {
    assert!(rt; gives_used_cells_from_both_ends(&three_cells(rt.alloc())?));
    Ok(())
}

#[test]
fn lends_rows_and_cells(rt: HostRuntime) -> Result<(), Fail> {
    let mut range: Range<usize> = Range::new(rt.alloc(), (1, 1), (3, 3))?;
    range.set_value((2, 2), 123)?;
    range[(0, 2)] = 7;
    let is_lent = range.row(1) == [0, 123, 0].as_slice() && range[(1, 1)] == 123;
    assert!(rt; is_lent && range.get_value((1, 3)) == Some(&7));
    Ok(())
}

// The texts, each with a bar after it.
fn listed(alloc: Global, texts: &[String]) -> Result<String, AllocError> {
    let mut all = String::new(alloc);
    for text in texts {
        write!(all, "{text}|")?;
    }
    Ok(all)
}

// Whether a range has a first row, which is printed as these texts.
fn has_headers<T: CellType + Display>(
    alloc: Global,
    range: &Range<T>,
    wanted: &str,
) -> Result<bool, AllocError> {
    match range.headers(alloc)? {
        Some(headers) => Ok(listed(alloc, &headers)?.as_str() == wanted),
        None => Ok(false),
    }
}

// A row of a text, a whole number and a truth value.
fn row_of_three(alloc: Global) -> Result<Range<Data>, Fail> {
    let mut range = Range::empty(alloc);
    range.set_value((0, 0), Data::from_text(alloc, "a")?)?;
    range.set_value((0, 1), Data::Int(1))?;
    range.set_value((0, 2), Data::Bool(true))?;
    Ok(range)
}

#[test]
fn prints_the_first_row(rt: HostRuntime) -> Result<(), Fail> {
    let empty: Range<Data> = Range::empty(rt.alloc());
    assert!(rt; empty.headers(rt.alloc())?.is_none());
    assert!(rt; has_headers(rt.alloc(), &row_of_three(rt.alloc())?, "a|1|true|")?);
    Ok(())
}

// Whether the part of a range between two corners has these values.
fn has_part(
    alloc: Global,
    range: &Range<usize>,
    corners: [(u32, u32); 2],
    values: &[usize],
) -> Result<bool, RangeError> {
    Ok(same(&range.range(alloc, corners[0], corners[1])?, values))
}

#[test]
fn copies_a_part_and_a_box_around(rt: HostRuntime) -> Result<(), Fail> {
    let none = Range::empty(rt.alloc());
    assert!(rt; has_part(rt.alloc(), &none, [(0, 0), (1, 1)], &[0, 0, 0, 0])?);
    let range = spanned(rt.alloc(), &[(1, 1, 1), (1, 2, 2), (2, 1, 3)])?;
    assert!(rt; has_part(rt.alloc(), &range, [(0, 1), (1, 2)], &[0, 0, 1, 2])?);
    assert!(rt; has_part(rt.alloc(), &range, [(2, 1), (2, 1)], &[3])?);
    Ok(())
}

// A row of a blank and this text.
fn row_of_text(alloc: Global, text: &str) -> Result<Range<String>, Fail> {
    let mut range = Range::empty(alloc);
    range.set_value((0, 1), String::from_str(alloc, text)?)?;
    Ok(range)
}

fn differs(copy: &Range<String>, range: &Range<String>) -> bool {
    copy != range && copy.used_cells().count() == 1
}

#[test]
fn holds_texts(rt: HostRuntime) -> Result<(), Fail> {
    let mut range = row_of_text(rt.alloc(), "one")?;
    let copy = range.range(rt.alloc(), (0, 0), (0, 1))?;
    let is_equal = copy == range;
    range.set_value((0, 1), String::from_str(rt.alloc(), "two")?)?;
    assert!(rt; is_equal && differs(&copy, &range));
    Ok(())
}

#[test]
fn prints_a_row_of_texts(rt: HostRuntime) -> Result<(), Fail> {
    assert!(rt; has_headers(rt.alloc(), &row_of_text(rt.alloc(), "two")?, "|two|")?);
    Ok(())
}

// Whether a range takes a value, or refuses it for want of memory and stays as it was.
fn takes_or_stays(range: &mut Range<usize>, position: (u32, u32)) -> bool {
    let size = range.get_size();
    let used = range.used_cells().count();
    match range.set_value(position, 1) {
        Ok(()) => true,
        Err(RangeError::Memory) => range.get_size() == size && range.used_cells().count() == used,
        Err(_) => false,
    }
}

// Each request for memory is refused in turn by a run with a failing allocation.
#[test]
fn stays_as_it_was_without_memory(rt: HostRuntime) {
    let built: Result<Range<usize>, RangeError> = Range::new(rt.alloc(), (0, 0), (1, 1));
    let Ok(mut range) = built else {
        return;
    };
    for position in [(1, 1), (5, 1), (5, 7), (9, 9)] {
        assert!(rt; takes_or_stays(&mut range, position));
    }
}
