//! What the records say of rows, columns and windows, by their fields.

ghost use Rattle.std.specs.Prelude.{◌≡◌, ◌≤◌, ◌+◌, length};
ghost use Rattle.xls_hidden.specs.Fields as fields;

use xls_bytes::read_u16;

/// What the records say of a row or a column.
#[derive(Clone, Copy, Debug, PartialEq, Eq)]
pub enum Mark {
    /// No record speaks of it.
    Unsaid,
    Shown,
    Hidden,
    /// It isn't hidden, and its height or width is 0.
    Flat,
}

/// What a Row record says, [MS-XLS] 2.4.221.
#[derive(Clone, Copy, Debug, PartialEq, Eq)]
pub struct RowMark {
    pub row: u16,
    pub mark: Mark,
}

/// What a ColInfo record says of its columns, from the first to the last, [MS-XLS] 2.4.53.
#[derive(Clone, Copy, Debug, PartialEq, Eq)]
pub struct ColumnMarks {
    pub first: u16,
    /// At most 255.
    pub last: u16,
    pub mark: Mark,
}

/// What a Window2 record says, [MS-XLS] 2.4.346.
#[derive(Clone, Copy, Debug, PartialEq, Eq)]
pub struct Window {
    pub is_frozen: bool,
    pub shows_zeros: bool,
}

/// Where a Pane record splits a window, [MS-XLS] 2.4.189: of frozen panes so many rows above and so many columns on
/// the left.
#[derive(Clone, Copy, Debug, PartialEq, Eq)]
pub struct Pane {
    pub rows: u16,
    pub columns: u16,
}

/// The 16-bit number at a place.
pub(crate) fn u16_at(body: &[u8], place: usize) -> u16
    requires { place + 2 ≤ length body.now }
    ensures { result ≡ fields.u16_at place body.now }
{
    read_u16(&body[place..])
}

fn mark_of(is_hidden: bool, size: u16) -> Mark
    ensures { result ≡ fields.mark_of is_hidden size }
{
    if is_hidden {
        Mark::Hidden
    } else if size == 0 {
        Mark::Flat
    } else {
        Mark::Shown
    }
}

/// The row of a Row record and what is said of it; none where it is shorter than 16 bytes.
pub(crate) fn row_at(body: &[u8]) -> Option<RowMark>
    ensures { result ≡ fields.row_at body.now }
{
    if body.len() < 16 {
        return None;
    }
    let is_hidden = u16_at(body, 12) / 0x0020 % 2 == 1;
    Some(RowMark {
        row: u16_at(body, 0),
        mark: mark_of(is_hidden, u16_at(body, 6)),
    })
}

/// The columns of a ColInfo record and what is said of them; none where it is shorter than 10 bytes.
pub(crate) fn columns_at(body: &[u8]) -> Option<ColumnMarks>
    ensures { result ≡ fields.columns_at body.now }
{
    if body.len() < 10 {
        return None;
    }
    let is_hidden = u16_at(body, 8) % 2 == 1;
    Some(ColumnMarks {
        first: u16_at(body, 0),
        last: u16_at(body, 2).min(255),
        mark: mark_of(is_hidden, u16_at(body, 4)),
    })
}

/// Whether rows without a Row record are hidden, by a DefaultRowHeight record; none where it is shorter than 4 bytes.
pub(crate) fn default_hides_at(body: &[u8]) -> Option<bool>
    ensures { result ≡ fields.default_hides_at body.now }
{
    if body.len() < 4 {
        return None;
    }
    Some(u16_at(body, 0) / 0x0002 % 2 == 1)
}

/// What a Window2 record says; none where it is shorter than 2 bytes.
pub(crate) fn window_at(body: &[u8]) -> Option<Window>
    ensures { result ≡ fields.window_at body.now }
{
    if body.len() < 2 {
        return None;
    }
    let bits = u16_at(body, 0);
    Some(Window {
        is_frozen: bits / 0x0008 % 2 == 1,
        shows_zeros: bits / 0x0010 % 2 == 1,
    })
}

/// Where a Pane record splits a window; none where it is shorter than 4 bytes.
pub(crate) fn pane_at(body: &[u8]) -> Option<Pane>
    ensures { result ≡ fields.pane_at body.now }
{
    if body.len() < 4 {
        return None;
    }
    Some(Pane {
        rows: u16_at(body, 2),
        columns: u16_at(body, 0),
    })
}
