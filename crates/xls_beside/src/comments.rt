//! The lines of comments.

ghost use Rattle.std.specs.Prelude.{◌≡◌, ◌∷◌, [], IfOk, map};
ghost use Rattle.xls_comments.specs.Items.{item_of};
ghost use Rattle.xls_comments.specs.Texts.{visibility_text};
ghost use Rattle.xls_comments.specs.declared.items.CommentItem.TheVariants as items;
ghost use Rattle.xls_output.specs.Each.{DeliversEach, text_output};
ghost use Rattle.xls_beside.specs.Comments as specs;
ghost use Rattle.xls_beside.specs.Comments.{comments_lines};
ghost use Rattle.xls_beside.specs.Damaged.{at_most_counted, damaged_among};
ghost use Rattle.xls_beside.specs.Lines.{IsLineText, PutsLines};

use crate::counting::{Damages, counted, damaged_in_sheets};
use crate::lines::{DamagePlace, count_member, put_damaged, put_line, text_member, word_member};
use crate::parts::{SheetPart, part_at};
use crate::sheets::{Tells, write_sheets};
use std::alloc::{AllocError, Global};
use xls_comments::{Comment, CommentItem, Comments, Damage, Visibility};
use xls_open::Globals;
use xls_output::{OutputText, Sink, Stop, Writer};
use xls_readable::Form;
use xls_record::Biff;
use xls_text::XlsEncoding;

/// The word for whether a comment is always shown.
fn visibility_word(visibility: Visibility) -> &'static str
    ensures { result.now ≡ visibility_text visibility }
{
    match visibility {
        Visibility::Visible => "visible",
        Visibility::Hidden => "hidden",
    }
}

/// Puts the line of a comment.
fn put_comment<K: Sink>(
    form: Form,
    out: &mut Writer<'_, K, OutputText>,
    comment: &Comment,
) -> Result<(), Stop>
    ensures { PutsLines form (specs.comment (item_of (items.Comment comment.now)) ∷ [])
        (text_output K.state out.old) (text_output K.state out.new) result }
{
    let members = [
        count_member("row", u64::from(comment.row)),
        count_member("column", u64::from(comment.column)),
        word_member("visibility", visibility_word(comment.visibility)),
        text_member("author", &comment.author),
        text_member("text", &comment.text),
    ];
    put_line(form, out, "comment", &members)
}

/// Puts the line of a damaged Note.
fn put_damage<K: Sink>(
    form: Form,
    alloc: Global,
    out: &mut Writer<'_, K, OutputText>,
    damage: &Damage,
) -> Result<(), Stop>
    ensures { PutsLines form (specs.comment (item_of (items.Damaged damage.now)) ∷ [])
        (text_output K.state out.old) (text_output K.state out.new) result }
{
    let name = format!(in alloc; "{}", damage.record_name)?;
    let why = format!(in alloc; "{}", damage.flaw)?;
    let place = DamagePlace {
        offset: damage.offset,
        row: damage.row,
        column: damage.column,
    };
    put_damaged(form, out, name.as_str(), place, why.as_str())
}

/// Puts the line of a comment, or of a damaged Note.
fn put_item<K: Sink>(
    form: Form,
    alloc: Global,
    out: &mut Writer<'_, K, OutputText>,
    item: &CommentItem,
) -> Result<(), Stop>
    ensures { PutsLines form (specs.comment (item_of item.now) ∷ []) (text_output K.state out.old) (text_output K.state out.new) result }
{
    match item {
        CommentItem::Comment(comment) => put_comment(form, out, comment),
        CommentItem::Damaged(damage) => put_damage(form, alloc, out, damage),
    }
}

/// Puts the lines of all comments, in order.
fn put_items<K: Sink>(
    form: Form,
    alloc: Global,
    out: &mut Writer<'_, K, OutputText>,
    comments: Comments<'_>,
) -> Result<(), Stop>
    ensures { PutsLines form (map specs.comment comments.entry) (text_output K.state out.old) (text_output K.state out.new) result }
{
    for next in comments {
        let item = next?;
        put_item(form, alloc, out, &item)?;
    }
    Ok(())
}

/// The comments of the sheets of a stream, before BIFF8 with texts in a page.
#[derive(Clone, Copy, Drop)]
struct SheetComments<'a> {
    stream: &'a [u8],
    version: Biff,
    page: XlsEncoding,
}

impl<'a> Tells for SheetComments<'a> {
    ghost use Rattle.xls_beside.specs.Comments.{comments_in};

    ghost lines = { λ s. comments_in s.version s.page s.stream.now };

    fn put<K: Sink>(
        &self,
        form: Form,
        alloc: Global,
        out: &mut Writer<'_, K, OutputText>,
        part: SheetPart,
    ) -> Result<(), Stop> {
        let bytes = part_at(self.stream, part.offset);
        let comments = Comments::read(alloc, bytes, part.offset as u64, self.version, self.page)?;
        put_items(form, alloc, out, comments)
    }
}

/// Writes the comments of the sheets of a workbook, by its stream and its globals: for each sheet in workbook order its
/// line `sheet`, and behind it those of the comments in the last sheet of its name, in the order of their Note records:
/// row, column, visibility, author and text (`comment`), or what is damaged (`damaged`). At a refusal of the sink, or
/// where memory runs out, a prefix of these lines was written. Beside the globals a part's place is held for each sheet,
/// and of one sheet the place of each object's text and the text of one comment.
pub fn write_comments<K: Sink>(
    alloc: Global,
    sink: &mut K,
    form: Form,
    stream: &[u8],
    globals: &Globals,
) -> Result<(), Stop>
    ensures { DeliversEach (IsLineText form)
        (comments_lines globals.now.version globals.now.page globals.now.sheets stream.now)
        (K.state sink.old) (K.state sink.new) result }
{
    let comments = SheetComments {
        stream,
        version: globals.version,
        page: globals.page,
    };
    write_sheets(alloc, sink, form, &comments, stream, globals)
}

/// How many lines `damaged` a comment or a damaged Note has: 1 or 0.
fn item_damaged(item: &CommentItem) -> u64
    ensures { result ≡ damaged_among (specs.comment (item_of item.now) ∷ []) }
{
    match item {
        CommentItem::Damaged(_) => 1,
        CommentItem::Comment(_) => 0,
    }
}

/// How many of these items are damaged.
fn items_damaged(comments: Comments<'_>) -> Result<u64, AllocError>
    ensures { IfOk result (λ n. n ≡ at_most_counted (damaged_among (map specs.comment comments.entry))) }
{
    let mut count: u64 = 0;
    for next in comments {
        let item = next?;
        count = counted(count, item_damaged(&item));
    }
    Ok(count)
}

impl<'a> Damages for SheetComments<'a> {
    ghost use Rattle.xls_beside.specs.Comments.{comments_in};

    ghost lines = { λ s. comments_in s.version s.page s.stream.now };

    fn damaged(&self, alloc: Global, part: SheetPart) -> Result<u64, AllocError> {
        let bytes = part_at(self.stream, part.offset);
        let comments = Comments::read(alloc, bytes, part.offset as u64, self.version, self.page)?;
        items_damaged(comments)
    }
}

/// How many Notes are damaged in the sheets of a workbook; 2^64 - 1 where they are more.
pub(crate) fn damaged_comments(
    alloc: Global,
    stream: &[u8],
    globals: &Globals,
) -> Result<u64, AllocError>
    ensures { IfOk result (λ n. n
        ≡ at_most_counted (damaged_among (comments_lines globals.now.version globals.now.page globals.now.sheets stream.now))) }
{
    let comments = SheetComments {
        stream,
        version: globals.version,
        page: globals.page,
    };
    damaged_in_sheets(alloc, &comments, stream, globals)
}
