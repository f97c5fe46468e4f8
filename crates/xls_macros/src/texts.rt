//! The text of a module, and the line of what is damaged.

ghost use Rattle.std.specs.Prelude.{◌≡◌, codes, OnOk};
ghost use Rattle.std.specs.String.{string_bytes};
ghost use Rattle.xls_output.specs.Added.{AddsText};
ghost use Rattle.xls_readable.specs.Lines.{IsLine};
ghost use Rattle.xls_readable.specs.declared.forms.Form.TheVariants.{Json};
ghost use Rattle.xls_macros.specs.ModuleTexts.{IsDamagedText, IsSourceText, name_members};

use crate::kind::ModuleKind;
use std::alloc::AllocError;
use xls_readable::{Field, Form, Member, push_line};

// Appends an object of a module.
fn push_object(
    kind: ModuleKind,
    name: &str,
    source: &str,
    room: &mut String,
    buf: &mut String,
) -> Result<(), AllocError>
    ensures { OnOk result (AddsText (IsSourceText Json kind name.now source.now) (string_bytes buf.old) (string_bytes buf.new)) }
{
    let name = Member {
        name: "name",
        field: Field::Text(name),
    };
    let kind = Member {
        name: "kind",
        field: Field::Word(kind.word()),
    };
    let source = Member {
        name: "source",
        field: Field::Text(source),
    };
    push_line(Form::Json, "module", &[name, kind, source], room, buf)
}

// Appends the line of a module's name.
fn push_name(form: Form, name: &str, room: &mut String, buf: &mut String) -> Result<(), AllocError>
    ensures { OnOk result (AddsText (IsLine form (codes "module") (name_members name.now)) (string_bytes buf.old) (string_bytes buf.new)) }
{
    let name = Member {
        name: "name",
        field: Field::Text(name),
    };
    push_line(form, "module", &[name], room, buf)
}

/// Appends a module with its source. Only running out of memory refuses.
pub(crate) fn push_source(
    form: Form,
    kind: ModuleKind,
    name: &str,
    source: &str,
    room: &mut String,
    buf: &mut String,
) -> Result<(), AllocError>
    ensures { OnOk result (AddsText (IsSourceText form kind name.now source.now) (string_bytes buf.old) (string_bytes buf.new)) }
{
    match form {
        Form::Json => push_object(kind, name, source, room, buf),
        Form::Text => {
            push_name(Form::Text, name, room, buf)?;
            Ok(buf.push_str(source)?)
        }
        Form::Exact => {
            push_name(Form::Exact, name, room, buf)?;
            Ok(buf.push_str(source)?)
        }
    }
}

/// Appends the line of what is damaged: what it is, its name, and what is wrong. Only running out of memory refuses.
pub(crate) fn push_damaged(
    form: Form,
    what: &str,
    name: &str,
    why: &str,
    room: &mut String,
    buf: &mut String,
) -> Result<(), AllocError>
    ensures { OnOk result (AddsText (IsDamagedText form what.now name.now why.now) (string_bytes buf.old) (string_bytes buf.new)) }
{
    let what = Member {
        name: "what",
        field: Field::Word(what),
    };
    let name = Member {
        name: "name",
        field: Field::Text(name),
    };
    let why = Member {
        name: "why",
        field: Field::Text(why),
    };
    push_line(form, "damaged", &[what, name, why], room, buf)
}
