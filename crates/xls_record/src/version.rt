//! Versions of the record format.

ghost use Rattle.std.specs.Prelude.{◌≡◌};
ghost use Rattle.xls_record.specs.Version.{is_biff8};

/// A version of the record format.
#[derive(Clone, Copy, Debug, PartialEq, Eq)]
pub enum Biff {
    Biff2,
    Biff3,
    Biff4,
    Biff5,
    Biff8,
}

/// Whether records have the layouts of BIFF8.
pub fn is_biff8(biff: Biff) -> bool
    ensures { result ≡ is_biff8 biff }
{
    matches!(biff, Biff::Biff8)
}
