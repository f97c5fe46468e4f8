//! The lines of a document's properties.

ghost use Rattle.std.specs.Prelude.{◌≡◌, OnOk, OnErr, codes};
ghost use Rattle.std.specs.String.{string_bytes};
ghost use Rattle.xls_output.specs.Added.{AddsText};
ghost use Rattle.xls_readable.specs.Lines.{IsLine, custom_members, property_word, text_members};

use crate::forms::{Form, push_line};
use crate::lines::{push_one_text, text_member};
use std::alloc::AllocError;

/// A property of the document that has a name of its own.
#[derive(Clone, Copy, Debug, PartialEq, Eq)]
pub enum Property {
    Title,
    Subject,
    Creator,
    Keywords,
    Description,
    Template,
    LastModifiedBy,
    Revision,
    Created,
    Modified,
    Application,
    Category,
    Manager,
    Company,
    ContentStatus,
    Version,
    AppVersion,
}

// The word of a property.
fn property_word(property: Property) -> &'static str
    ensures { result.now ≡ property_word property }
{
    match property {
        Property::Title => "title",
        Property::Subject => "subject",
        Property::Creator => "creator",
        Property::Keywords => "keywords",
        Property::Description => "description",
        Property::Template => "template",
        Property::LastModifiedBy => "last_modified_by",
        Property::Revision => "revision",
        Property::Created => "created",
        Property::Modified => "modified",
        Property::Application => "application",
        Property::Category => "category",
        Property::Manager => "manager",
        Property::Company => "company",
        Property::ContentStatus => "content_status",
        Property::Version => "version",
        Property::AppVersion => "app_version",
    }
}

/// Appends the line of a property's text, whose word is the property's: `title`, `last_modified_by`. Of this
/// call and the next: only running out of memory refuses, and then `buf` is as it was; what is printed first
/// is printed into `room`, whose text is lost.
pub fn push_property(
    form: Form,
    property: Property,
    text: &str,
    room: &mut String,
    buf: &mut String,
) -> Result<(), AllocError>
    ensures ok { OnOk result (AddsText (IsLine form (property_word property) (text_members text.now))
        (string_bytes buf.old) (string_bytes buf.new)) }
    ensures err { OnErr result (string_bytes buf.new ≡ string_bytes buf.old) }
{
    push_one_text(form, property_word(property), text, room, buf)
}

/// Appends the line of a custom property's name and value, `custom`.
pub fn push_custom(
    form: Form,
    name: &str,
    value: &str,
    room: &mut String,
    buf: &mut String,
) -> Result<(), AllocError>
    ensures ok { OnOk result (AddsText (IsLine form (codes "custom") (custom_members name.now value.now))
        (string_bytes buf.old) (string_bytes buf.new)) }
    ensures err { OnErr result (string_bytes buf.new ≡ string_bytes buf.old) }
{
    let members = [text_member("name", name), text_member("value", value)];
    push_line(form, "custom", &members, room, buf)
}
