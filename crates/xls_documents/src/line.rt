//! A line of a word and fields.

ghost use Rattle.std.specs.Prelude.{◌≡◌, ◌∷◌, [], map};
ghost use Rattle.xls_documents.specs.Lines.{PutsLines};
ghost use Rattle.xls_output.specs.Each.{text_output};
ghost use Rattle.xls_readable.specs.Items as items;
ghost use Rattle.xls_readable.specs.Items.{named_of};

use xls_output::{OutputText, Sink, Stop, Writer};
use xls_readable::{Field, Form, Member, push_line};

/// A text under a name.
pub(crate) fn text_member<'a>(name: &'a str, text: &'a str) -> Member<'a>
    ensures { named_of result ≡ (name.now, items.text text.now) }
{
    Member {
        name,
        field: Field::Text(text),
    }
}

/// A count under a name.
pub(crate) fn count_member<'a>(name: &'a str, n: u64) -> Member<'a>
    ensures { named_of result ≡ (name.now, items.count n) }
{
    Member {
        name,
        field: Field::Count(n),
    }
}

/// Puts a line.
pub(crate) fn put_line<K: Sink>(
    form: Form,
    out: &mut Writer<'_, K, OutputText>,
    word: &str,
    members: &[Member<'_>],
) -> Result<(), Stop>
    ensures { PutsLines form ((word.now, map named_of members.now) ∷ [])
        (text_output K.state out.old) (text_output K.state out.new) result }
{
    let buffer = &mut *out.buffer;
    push_line(form, word, members, &mut buffer.scratch, &mut buffer.text)?;
    out.pass()
}
