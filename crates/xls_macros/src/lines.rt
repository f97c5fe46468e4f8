//! The text of a macro project.

ghost use Rattle.std.specs.Prelude.{◌≡◌, ◌∷◌, [], false, map, codes, OnOk};
ghost use Rattle.std.specs.String.{string_bytes};
ghost use Rattle.xls_output.specs.Added.{AddsText};
ghost use Rattle.xls_output.specs.Each.{PutsEach, text_output};
ghost use Rattle.xls_macros.specs.Lines as lines;
ghost use Rattle.xls_macros.specs.Lines.{DeliversMacros, IsPartText, IsReadText, listing_parts, macro_lines};
ghost use Rattle.xls_macros.specs.Macros.{is_memory};
ghost use Rattle.xls_macros.specs.ModuleTexts.{IsDamagedText};
ghost use Rattle.xls_macros.specs.Texts.{fault_text};
ghost use Rattle.xls_vba.specs.Modules.{module_view};

use crate::fault::ModuleFault;
use crate::macros::Macros;
use crate::texts::{push_damaged, push_source};
use std::alloc::{AllocError, Global};
use xls_compound::CompoundError;
use xls_output::{OutputText, Sink, Stop, Writer};
use xls_readable::Form;
use xls_vba::Module;

// Appends the line of a module whose source isn't read.
fn push_fault(
    form: Form,
    alloc: Global,
    name: &str,
    fault: &ModuleFault,
    room: &mut String,
    buf: &mut String,
) -> Result<(), AllocError>
    ensures fault { OnOk result (is_memory fault.now ≡ false) }
    ensures line { OnOk result (AddsText (IsDamagedText form (codes "module") name.now (fault_text fault.now))
        (string_bytes buf.old) (string_bytes buf.new)) }
{
    if fault.is_memory() {
        return Err(AllocError);
    }
    let why = fault.to_string(alloc)?;
    push_damaged(form, "module", name, why.as_str(), room, buf)
}

// Appends a module, or the line of one whose source isn't read.
fn push_module(
    form: Form,
    alloc: Global,
    macros: &Macros<'_, '_>,
    m: &Module,
    room: &mut String,
    buf: &mut String,
) -> Result<(), AllocError>
    ensures { OnOk result (AddsText (IsReadText form macros.now (module_view m.now)) (string_bytes buf.old) (string_bytes buf.new)) }
{
    let name = m.name.as_str();
    match macros.source(alloc, m) {
        Ok(source) => push_source(form, macros.kind(name), name, source.as_str(), room, buf),
        Err(fault) => push_fault(form, alloc, name, &fault, room, buf),
    }
}

// Appends the last module of a name.
fn push_named(
    form: Form,
    alloc: Global,
    macros: &Macros<'_, '_>,
    name: &str,
    room: &mut String,
    buf: &mut String,
) -> Result<(), AllocError>
    ensures { OnOk result (AddsText (IsPartText form macros.now (lines.module_named name.now))
        (string_bytes buf.old) (string_bytes buf.new)) }
{
    // The name is that of a module, so only memory can be missing.
    match macros.module(alloc, name) {
        Ok(m) => push_module(form, alloc, macros, &m, room, buf),
        Err(_) => Err(AllocError),
    }
}

// Puts the last module of a name.
fn put_named<K: Sink>(
    form: Form,
    alloc: Global,
    out: &mut Writer<'_, K, OutputText>,
    macros: &Macros<'_, '_>,
    name: &str,
) -> Result<(), Stop>
    ensures { PutsEach (IsPartText form macros.now) (lines.module_named name.now ∷ [])
        (text_output K.state out.old) (text_output K.state out.new) result }
{
    let buffer = &mut *out.buffer;
    push_named(
        form,
        alloc,
        macros,
        name,
        &mut buffer.scratch,
        &mut buffer.text,
    )?;
    out.pass()
}

// Puts the last modules of these names, in their order.
fn put_modules<K: Sink>(
    form: Form,
    alloc: Global,
    out: &mut Writer<'_, K, OutputText>,
    macros: &Macros<'_, '_>,
    names: &[&str],
) -> Result<(), Stop>
    ensures { PutsEach (IsPartText form macros.now) (map lines.module_named (map (λ x. x.now) names.now))
        (text_output K.state out.old) (text_output K.state out.new) result }
{
    for name in names {
        put_named(form, alloc, out, macros, name)?;
    }
    Ok(())
}

// Puts the line of a stream `PROJECT` that isn't read, with its fault.
fn put_listing<K: Sink>(
    form: Form,
    alloc: Global,
    out: &mut Writer<'_, K, OutputText>,
    macros: &Macros<'_, '_>,
    error: &CompoundError,
) -> Result<(), Stop>
    ensures { PutsEach (IsPartText form macros.now) (lines.unread_listing error.now ∷ [])
        (text_output K.state out.old) (text_output K.state out.new) result }
{
    let why = error.to_string(alloc)?;
    let buffer = &mut *out.buffer;
    push_damaged(
        form,
        "stream",
        "PROJECT",
        why.as_str(),
        &mut buffer.scratch,
        &mut buffer.text,
    )?;
    out.pass()
}

// Puts the line of a stream `PROJECT` that isn't read, if it isn't.
fn put_damage<K: Sink>(
    form: Form,
    alloc: Global,
    out: &mut Writer<'_, K, OutputText>,
    macros: &Macros<'_, '_>,
) -> Result<(), Stop>
    ensures { PutsEach (IsPartText form macros.now) (listing_parts macros.now.damage)
        (text_output K.state out.old) (text_output K.state out.new) result }
{
    match macros.damage() {
        Some(error) => put_listing(form, alloc, out, macros, error),
        None => Ok(()),
    }
}

// Puts a project whose modules have these names.
fn put_macros<K: Sink>(
    form: Form,
    alloc: Global,
    out: &mut Writer<'_, K, OutputText>,
    macros: &Macros<'_, '_>,
    names: &[&str],
) -> Result<(), Stop>
    ensures { PutsEach (IsPartText form macros.now) (macro_lines macros.now (map (λ x. x.now) names.now))
        (text_output K.state out.old) (text_output K.state out.new) result }
{
    put_damage(form, alloc, out, macros)?;
    put_modules(form, alloc, out, macros, names)
}

/// Writes the modules of a macro project, one for each name, in the order of the names' bytes, of two of one name the
/// last. As text a line `module` with the name, and behind it the source, each of its lines ended by LF; as JSON an
/// object a module, with its kind. In the place of a module whose source isn't read stands a line `damaged` that tells
/// why, and before the first module one for a stream `PROJECT` that isn't read. At a refusal of the sink, or where
/// memory runs out, a prefix of these lines was written.
pub fn write_macros<K: Sink>(
    alloc: Global,
    sink: &mut K,
    form: Form,
    macros: &Macros<'_, '_>,
) -> Result<(), Stop>
    ensures { DeliversMacros form macros.now (K.state sink.old) (K.state sink.new) result }
{
    let names = macros.names(alloc)?;
    let mut buffer = OutputText::new(alloc);
    let mut out = Writer::new(&mut buffer, sink);
    put_macros(form, alloc, &mut out, macros, &names)?;
    out.finish()
}
