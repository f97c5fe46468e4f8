//! The lines of a workbook's properties.

ghost use Rattle.std.specs.Prelude.{◌≡◌, ◌∷◌, []};
ghost use Rattle.std.specs.BTreeMap.{IsOrdered};
ghost use Rattle.std.specs.List.{flat_map};
ghost use Rattle.std.specs.String.{string_bytes, string_cmp};
ghost use Rattle.xls_documents.specs.Lines.{IsLineText, PutsLines};
ghost use Rattle.xls_documents.specs.Properties.{property_line, custom_lines, displayed_field, known_lines, property_lines};
ghost use Rattle.xls_output.specs.Each.{DeliversEach, text_output};

use std::alloc::Global;
use std::collections::btree_map::Iter;
use xls_output::{OutputText, Sink, Stop, Writer};
use xls_props::WorkbookProperties;
use xls_readable::{Form, Property, push_custom, push_property};

// Puts the line of a property.
fn put_text<K: Sink>(
    form: Form,
    out: &mut Writer<'_, K, OutputText>,
    property: Property,
    text: &str,
) -> Result<(), Stop>
    ensures { PutsLines form (property_line property text.now ∷ [])
        (text_output K.state out.old) (text_output K.state out.new) result }
{
    let buffer = &mut *out.buffer;
    push_property(form, property, text, &mut buffer.scratch, &mut buffer.text)?;
    out.pass()
}

// Puts the line of a property, if it is there.
fn put_property<K: Sink>(
    form: Form,
    out: &mut Writer<'_, K, OutputText>,
    field: (Property, &Option<String>),
) -> Result<(), Stop>
    ensures { PutsLines form (displayed_field field.entry)
        (text_output K.state out.old) (text_output K.state out.new) result }
{
    match field.1 {
        Some(text) => put_text(form, out, field.0, text.as_str()),
        None => Ok(()),
    }
}

// Puts the lines of those that are there.
fn put_fields<K: Sink>(
    form: Form,
    out: &mut Writer<'_, K, OutputText>,
    fields: &[(Property, &Option<String>)],
) -> Result<(), Stop>
    ensures { PutsLines form (flat_map displayed_field fields.now)
        (text_output K.state out.old) (text_output K.state out.new) result }
{
    for field in fields {
        put_property(form, out, *field)?;
    }
    Ok(())
}

// Puts the lines of the properties that have names of their own, in their order.
fn put_known<K: Sink>(
    form: Form,
    out: &mut Writer<'_, K, OutputText>,
    properties: &WorkbookProperties,
) -> Result<(), Stop>
    ensures { PutsLines form (known_lines properties.now)
        (text_output K.state out.old) (text_output K.state out.new) result }
{
    let fields = [
        (Property::Title, &properties.title),
        (Property::Subject, &properties.subject),
        (Property::Creator, &properties.creator),
        (Property::Keywords, &properties.keywords),
        (Property::Description, &properties.description),
        (Property::Template, &properties.template),
        (Property::LastModifiedBy, &properties.last_modified_by),
        (Property::Revision, &properties.revision),
        (Property::Created, &properties.created),
        (Property::Modified, &properties.modified),
        (Property::Application, &properties.application),
        (Property::Category, &properties.category),
        (Property::Manager, &properties.manager),
        (Property::Company, &properties.company),
        (Property::ContentStatus, &properties.content_status),
        (Property::Version, &properties.version),
        (Property::AppVersion, &properties.app_version),
    ];
    put_fields(form, out, &fields)
}

// Puts the line of a custom property.
fn put_custom<K: Sink>(
    form: Form,
    out: &mut Writer<'_, K, OutputText>,
    name: &String,
    value: &String,
) -> Result<(), Stop>
    ensures { PutsLines form (custom_lines (name.now, value.now))
        (text_output K.state out.old) (text_output K.state out.new) result }
{
    let buffer = &mut *out.buffer;
    push_custom(
        form,
        name.as_str(),
        value.as_str(),
        &mut buffer.scratch,
        &mut buffer.text,
    )?;
    out.pass()
}

// Puts the lines of custom properties.
fn put_customs<K: Sink>(
    form: Form,
    out: &mut Writer<'_, K, OutputText>,
    customs: Iter<'_, String, String>,
) -> Result<(), Stop>
    ensures { PutsLines form (flat_map custom_lines customs.entry)
        (text_output K.state out.old) (text_output K.state out.new) result }
{
    for (name, value) in customs {
        put_custom(form, out, name, value)?;
    }
    Ok(())
}

// Puts the lines of the properties with names of their own, and then of the custom ones.
fn put_properties<K: Sink>(
    form: Form,
    out: &mut Writer<'_, K, OutputText>,
    properties: &WorkbookProperties,
) -> Result<(), Stop>
    ensures puts { PutsLines form (property_lines properties.now)
        (text_output K.state out.old) (text_output K.state out.new) result }
    ensures ordered { IsOrdered string_cmp properties.now.custom_properties }
{
    let customs = properties.custom_properties.iter();
    put_known(form, out, properties)?;
    put_customs(form, out, customs)
}

/// Writes the properties of a workbook: a line for each that is there, in the order of `Property`, and then a
/// line `custom` for each custom property, in the byte order of their names. At a refusal of the sink, or where
/// memory runs out, a prefix of these lines was written.
pub fn write_properties<K: Sink>(
    alloc: Global,
    sink: &mut K,
    form: Form,
    properties: &WorkbookProperties,
) -> Result<(), Stop>
    ensures delivers { DeliversEach (IsLineText form) (property_lines properties.now)
        (K.state sink.old) (K.state sink.new) result }
    ensures ordered { IsOrdered string_cmp properties.now.custom_properties }
{
    let mut buffer = OutputText::new(alloc);
    let mut out = Writer::new(&mut buffer, sink);
    put_properties(form, &mut out, properties)?;
    out.finish()
}
