//! Links, and what stands in the place of one that is damaged.

use crate::damage::Damage;
use std::fmt;

/// What a link leads to.
#[derive(Clone, Copy, Debug, PartialEq, Eq)]
pub enum LinkKind {
    Url,
    File,
    /// A file whose path begins with `\\`.
    Unc,
    /// A place in this workbook.
    Place,
}

/// The link of some cells.
#[derive(Debug, Drop, PartialEq, Eq)]
pub struct Link {
    pub first_row: u16,
    pub last_row: u16,
    pub first_column: u16,
    pub last_column: u16,
    pub kind: LinkKind,
    /// Empty for a place in this workbook.
    pub target: String,
    /// A place in the target.
    pub place: String,
    /// The text that is shown for the link.
    pub shown: String,
    /// The text that is shown when the link is pointed at.
    pub tip: String,
}

/// A link, or an HLink that is damaged.
#[derive(Debug, Drop, PartialEq, Eq)]
pub enum LinkItem {
    Link(Link),
    Damaged(Damage),
}

/// `url`, `file`, `unc` or `place`.
impl fmt::Display for LinkKind {
    ghost use Rattle.std.specs.Prelude.{Some};
    ghost use Rattle.xls_links.specs.Texts.{kind_text};

    ghost output = { λ kind. Some (kind_text kind) };

    fn fmt<W: fmt::Write>(&self, f: &mut fmt::Formatter<W>) -> fmt::Result {
        f.write_str(match self {
            LinkKind::Url => "url",
            LinkKind::File => "file",
            LinkKind::Unc => "unc",
            LinkKind::Place => "place",
        })
    }
}
