//! The fields of the records that make a comment.

ghost use Rattle.std.specs.Prelude.{◌≡◌, ◌≤◌, ◌+◌, length};
ghost use Rattle.xls_parts.specs.PartRecords.{placed_of};
ghost use Rattle.xls_comments.specs.Biff8.{damaged_note};
ghost use Rattle.xls_comments.specs.Fields as fields;
ghost use Rattle.xls_comments.specs.Items.{item_of};

use crate::damage::{Damage, DamagedRecord, Flaw};
use crate::items::{CommentItem, Visibility};
use xls_bytes::read_u16;
use xls_parts::PartRecord;

/// The 16-bit number at a place.
pub(crate) fn u16_at(body: &[u8], place: usize) -> u16
    requires { place + 2 ≤ length body.now }
    ensures { result ≡ fields.u16_at place body.now }
{
    read_u16(&body[place..])
}

/// A number of the cell of a Note, where the four bytes of the cell are there.
fn cell_number(body: &[u8], place: usize) -> Option<u16>
    requires { place ≤ 2 }
    ensures { result ≡ fields.cell_number place body.now }
{
    if body.len() < 4 {
        return None;
    }
    Some(u16_at(body, place))
}

/// A Note that is damaged.
pub(crate) fn damaged(r: &PartRecord<'_>, flaw: Flaw) -> CommentItem
    ensures { item_of result ≡ damaged_note (placed_of r.now) flaw }
{
    CommentItem::Damaged(Damage {
        record_name: DamagedRecord::Note,
        offset: r.offset,
        row: cell_number(r.body, 0),
        column: cell_number(r.body, 2),
        flaw,
    })
}

/// Whether a comment with these bits is always shown.
pub(crate) fn visibility_of(bits: u16) -> Visibility
    ensures { result ≡ fields.visibility_of bits }
{
    if bits / 0x0002 % 2 == 1 {
        Visibility::Visible
    } else {
        Visibility::Hidden
    }
}

/// The identifier of the object of an Obj; none where it is shorter than 8 bytes or doesn't begin with 0015.
pub(crate) fn identifier_at(body: &[u8]) -> Option<u16>
    ensures { result ≡ fields.identifier_at body.now }
{
    if body.len() < 8 || u16_at(body, 0) != 0x0015 {
        return None;
    }
    Some(u16_at(body, 6))
}
