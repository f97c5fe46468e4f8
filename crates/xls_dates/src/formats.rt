//! Classes of number formats.

/// What a number format shows.
#[derive(Clone, Copy, Debug, PartialEq, Eq)]
pub enum CellFormat {
    /// Neither a date nor a duration.
    Other,
    /// A day or a time of day.
    DateTime,
    /// A duration.
    TimeDelta,
}
