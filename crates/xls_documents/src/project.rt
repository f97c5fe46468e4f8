//! The lines of a macro project.

ghost use Rattle.std.specs.Prelude.{◌≡◌, ◌++◌, ◌∷◌, [], map};
ghost use Rattle.std.specs.List.{flat_map};
ghost use Rattle.xls_vba.specs.References.{reference_view, reference_views};
ghost use Rattle.xls_vba.specs.Modules.{module_view};
ghost use Rattle.xls_documents.specs.Lines.{IsLineText, PutsLines};
ghost use Rattle.xls_documents.specs.Projects.{reference_line, module_line, named_lines, lines_by, DeliversProject};
ghost use Rattle.xls_output.specs.Each.{text_output};

use crate::line::{count_member, put_line, text_member};
use std::alloc::Global;
use xls_output::{OutputText, Sink, Stop, Writer};
use xls_readable::Form;
use xls_vba::{Module, Reference, VbaProject};

// Puts the line of a reference.
fn put_reference<K: Sink>(
    form: Form,
    out: &mut Writer<'_, K, OutputText>,
    reference: &Reference,
) -> Result<(), Stop>
    ensures { PutsLines form (reference_line (reference_view reference.now) ∷ [])
        (text_output K.state out.old) (text_output K.state out.new) result }
{
    let members = [
        text_member("name", reference.name.as_str()),
        text_member("description", reference.description.as_str()),
        text_member("path", reference.path.as_str()),
    ];
    put_line(form, out, "reference", &members)
}

// Puts the lines of references, in their order.
fn put_references<K: Sink>(
    form: Form,
    out: &mut Writer<'_, K, OutputText>,
    references: &[Reference],
) -> Result<(), Stop>
    ensures { PutsLines form (map reference_line (reference_views references.now))
        (text_output K.state out.old) (text_output K.state out.new) result }
{
    for reference in references {
        put_reference(form, out, reference)?;
    }
    Ok(())
}

// Puts the line of a module.
fn put_module<K: Sink>(
    form: Form,
    out: &mut Writer<'_, K, OutputText>,
    source: &Module,
) -> Result<(), Stop>
    ensures { PutsLines form (module_line (module_view source.now) ∷ [])
        (text_output K.state out.old) (text_output K.state out.new) result }
{
    let members = [
        text_member("name", source.name.as_str()),
        text_member("stream", source.stream_name.as_str()),
        count_member("offset", u64::from(source.text_offset)),
    ];
    put_line(form, out, "module", &members)
}

// Puts the line of the last module of a name.
fn put_named<K: Sink>(
    form: Form,
    alloc: Global,
    out: &mut Writer<'_, K, OutputText>,
    project: &VbaProject,
    name: &str,
) -> Result<(), Stop>
    ensures { PutsLines form (named_lines project.now.modules name.now)
        (text_output K.state out.old) (text_output K.state out.new) result }
{
    // The name is that of a module, so only memory can be missing.
    match project.module(alloc, name) {
        Ok(source) => put_module(form, out, &source),
        Err(_) => Err(Stop::Memory),
    }
}

// Puts the lines of the modules of these names, in their order.
fn put_modules<K: Sink>(
    form: Form,
    alloc: Global,
    out: &mut Writer<'_, K, OutputText>,
    project: &VbaProject,
    names: &[&str],
) -> Result<(), Stop>
    ensures { PutsLines form (flat_map (named_lines project.now.modules) (map (λ x. x.now) names.now))
        (text_output K.state out.old) (text_output K.state out.new) result }
{
    for name in names {
        put_named(form, alloc, out, project, name)?;
    }
    Ok(())
}

// Puts the lines of the references, and then of the modules of these names.
fn put_project<K: Sink>(
    form: Form,
    alloc: Global,
    out: &mut Writer<'_, K, OutputText>,
    project: &VbaProject,
    names: &[&str],
) -> Result<(), Stop>
    ensures { PutsLines form (lines_by project.now (map (λ x. x.now) names.now))
        (text_output K.state out.old) (text_output K.state out.new) result }
{
    put_references(form, out, project.get_references())?;
    put_modules(form, alloc, out, project, names)
}

/// Writes a macro project: a line `reference` for each reference, in the order of the directory, with its name,
/// description and path; then a line `module` for each name of a module, in the order of their bytes, with the
/// name, the name of the stream and where the source begins in it, in bytes, of the last module of that name. At a
/// refusal of the sink, or where memory runs out, a prefix of these lines was written.
pub fn write_project<K: Sink>(
    alloc: Global,
    sink: &mut K,
    form: Form,
    project: &VbaProject,
) -> Result<(), Stop>
    ensures { DeliversProject form project.now (K.state sink.old) (K.state sink.new) result }
{
    let names = project.get_module_names(alloc)?;
    let mut buffer = OutputText::new(alloc);
    let mut out = Writer::new(&mut buffer, sink);
    put_project(form, alloc, &mut out, project, &names)?;
    out.finish()
}
