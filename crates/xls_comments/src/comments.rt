//! The comments of a sheet.

ghost use Rattle.std.specs.Prelude.{◌≡◌, ◌+◌, ◌<◌, ◌^◌, IfOk, length};
ghost use Rattle.xls_parts.specs.PartRecords.{own_records};
ghost use Rattle.xls_comments.specs.Comments.{comment_items};

use crate::items::CommentItem;
use crate::{biff5, biff8};
use std::alloc::{AllocError, Global};
use std::marker::Model;
use xls_record::{Biff, is_biff8};
use xls_text::XlsEncoding;

/// The Notes of either layout.
#[derive(Drop)]
enum Notes<'a> {
    Biff8(biff8::Notes<'a>),
    Biff5(biff5::Notes<'a>),
}

/// The comments of a sheet and its damaged Notes, one after another in the order of the Note records. Of BIFF8 the place
/// of the text of each object identifier is kept, of which there are no more than Obj records; and then the text of one
/// comment at a time. Only want of memory refuses an item, and then no more come.
///
/// Contracts see the list of the items that are left.
#[derive(Drop)]
pub struct Comments<'a> {
    notes: Notes<'a>,
}

impl<'a> Model for Comments<'a> {
    ghost use Rattle.std.specs.Prelude.{List};
    ghost use Rattle.xls_comments.specs.Items.{Item};
    ghost use Rattle.xls_comments.specs.Notes.{left_in};

    ghost Value = { List Item };

    ghost view = { λ s. left_in s.notes };
}

impl<'a> Comments<'a> {
    /// Those of the sheet whose part begins with the first byte, which stands at this offset of the stream; under a
    /// version, and before BIFF8 with texts in a page. [MS-XLS] Note, Obj and TxO. Refused where memory runs out.
    pub fn read(
        alloc: Global,
        part: &'a [u8],
        offset: u64,
        version: Biff,
        page: XlsEncoding,
    ) -> Result<Comments<'a>, AllocError>
        requires { offset + length part.now < 2 ^ 64 }
        ensures { IfOk result (λ comments. comments ≡ comment_items version page (own_records offset part.now)) }
    {
        if is_biff8(version) {
            let notes = biff8::Notes::read(alloc, part, offset)?;
            return Ok(Comments {
                notes: Notes::Biff8(notes),
            });
        }
        let notes = biff5::Notes::new(alloc, part, offset, page);
        Ok(Comments {
            notes: Notes::Biff5(notes),
        })
    }
}

impl<'a> Iterator for Comments<'a> {
    ghost use Rattle.std.specs.Prelude.{length};
    ghost use Rattle.std.specs.Iterator.{at_most};
    ghost use Rattle.xls_comments.specs.Items.{ItemSteps};

    type Item = Result<CommentItem, AllocError>;

    ghost next_gives = { ItemSteps };

    ghost remaining = { λ items. at_most (length items) };

    fn next(&mut self) -> Option<Result<CommentItem, AllocError>> {
        match &mut self.notes {
            Notes::Biff8(notes) => notes.next(),
            Notes::Biff5(notes) => notes.next(),
        }
    }
}
