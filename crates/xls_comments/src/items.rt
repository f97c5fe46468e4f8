//! Comments, and what stands in the place of one that is damaged.

use crate::damage::Damage;
use std::fmt;

/// Whether a comment is always shown, or when its cell is pointed at.
#[derive(Clone, Copy, Debug, PartialEq, Eq)]
pub enum Visibility {
    Visible,
    Hidden,
}

/// The comment of a cell.
#[derive(Debug, Drop, PartialEq, Eq)]
pub struct Comment {
    pub row: u16,
    pub column: u16,
    pub visibility: Visibility,
    /// Empty before BIFF8, where no author is kept.
    pub author: String,
    pub text: String,
}

/// A comment, or a Note that is damaged.
#[derive(Debug, Drop, PartialEq, Eq)]
pub enum CommentItem {
    Comment(Comment),
    Damaged(Damage),
}

/// `visible` or `hidden`.
impl fmt::Display for Visibility {
    ghost use Rattle.std.specs.Prelude.{Some};
    ghost use Rattle.xls_comments.specs.Texts.{visibility_text};

    ghost output = { λ visibility. Some (visibility_text visibility) };

    fn fmt<W: fmt::Write>(&self, f: &mut fmt::Formatter<W>) -> fmt::Result {
        f.write_str(match self {
            Visibility::Visible => "visible",
            Visibility::Hidden => "hidden",
        })
    }
}
