//! The value of a cell as it is shown.

ghost use Rattle.std.specs.Prelude.{◌≡◌, ◌≤◌, IfSome, Some, length, option_map};
ghost use Rattle.std.specs.Str.{chars};
ghost use Rattle.xls_data.specs.Content as content;
ghost use Rattle.xls_data.specs.Refs.{ref_content_of};
ghost use Rattle.xls_readable.specs.Items.{item_of};
ghost use Rattle.xls_listing.specs.Listing.{kind_and_value};

use xls_data::{DataRef, ExcelDateTime};
use xls_readable::Field;

/// The kind of a text, and the field that shows it.
#[inline(always)]
fn text_shown(text: &str) -> (&'static str, Field<'_>)
    ensures shown { Some (result.0.now, item_of result.1) ≡ kind_and_value (content.text (chars text.now)) }
    ensures short { length result.0.now ≤ 5 }
{
    ("text", Field::Text(text))
}

/// Those of a date or a duration.
#[inline(always)]
fn moment_shown(moment: ExcelDateTime) -> (&'static str, Field<'static>)
    ensures shown { Some (result.0.now, item_of result.1) ≡ kind_and_value (content.date moment) }
    ensures short { length result.0.now ≤ 5 }
{
    let kind = if moment.is_duration() { "span" } else { "date" };
    (kind, Field::Moment(moment))
}

/// Those of a cell's value; a blank has none.
#[inline(always)]
pub(crate) fn shown<'v>(value: &'v DataRef<'v>) -> Option<(&'static str, Field<'v>)>
    ensures shown { option_map (λ k. (k.0.now, item_of k.1)) result ≡ kind_and_value (ref_content_of value.now) }
    ensures short { IfSome result (λ k. length k.0.now ≤ 5) }
{
    match value {
        DataRef::Int(n) => Some(("int", Field::Int(*n))),
        DataRef::Float(n) => Some(("float", Field::Number(*n))),
        DataRef::String(s) => Some(text_shown(s.as_str())),
        DataRef::SharedString(s) => Some(text_shown(s)),
        DataRef::Bool(b) => Some(("bool", Field::Truth(*b))),
        DataRef::DateTime(d) => Some(moment_shown(*d)),
        DataRef::DateTimeIso(s) => Some(("date", Field::Text(s.as_str()))),
        DataRef::DurationIso(s) => Some(("span", Field::Text(s.as_str()))),
        DataRef::Error(e) => Some(("error", Field::Failure(*e))),
        DataRef::Empty => None,
    }
}
