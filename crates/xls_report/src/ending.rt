//! How a command ends.

/// How a command ends whose text was written.
#[derive(Clone, Copy, Debug, PartialEq, Eq)]
pub enum Ending {
    /// It is done.
    Done,
    /// Its input is refused.
    Refused,
}
