//! How a line is written.

ghost use Rattle.std.specs.Prelude.{◌≡◌, map, OnOk, OnErr};
ghost use Rattle.std.specs.String.{string_bytes};
ghost use Rattle.xls_output.specs.Added.{AddsText};
ghost use Rattle.xls_readable.specs.Items.{named_of};
ghost use Rattle.xls_readable.specs.Lines.{IsLine};

use crate::exact_lines::push_exact_line;
use crate::items::{Member, push_text_line};
use crate::json_lines::push_json_line;
use std::alloc::AllocError;

/// How a line is written.
#[derive(Clone, Copy, Debug, PartialEq, Eq)]
pub enum Form {
    /// A word and fields, each after a tab.
    Text,
    /// A JSON object on a line.
    Json,
    /// A word and fields, each after a tab, with numbers as the workbook has them.
    Exact,
}

/// Appends a line of a word and of fields in a form. What has to be printed first is printed into `room`,
/// whose text is lost. Only running out of memory refuses, and then `buf` is as it was.
pub fn push_line(
    form: Form,
    word: &str,
    members: &[Member<'_>],
    room: &mut String,
    buf: &mut String,
) -> Result<(), AllocError>
    ensures ok { OnOk result (AddsText (IsLine form word.now (map named_of members.now))
        (string_bytes buf.old) (string_bytes buf.new)) }
    ensures err { OnErr result (string_bytes buf.new ≡ string_bytes buf.old) }
{
    match form {
        Form::Text => push_text_line(word, members, room, buf),
        Form::Json => push_json_line(word, members, room, buf),
        Form::Exact => push_exact_line(word, members, buf),
    }
}
