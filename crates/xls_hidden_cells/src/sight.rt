//! How much of a sheet is asked for.

/// Which rows and columns of a sheet are asked for.
#[derive(Clone, Copy, Debug, PartialEq, Eq)]
pub enum Sight {
    All,
    /// Those that can be seen.
    Seen,
}
