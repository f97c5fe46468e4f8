//! The kinds of modules.

ghost use Rattle.std.specs.Prelude.{◌≡◌, ◌==◌, ◌++◌, IfOk, OnOk, map};
ghost use Rattle.std.specs.List.{before_first, slice_split};
ghost use Rattle.std.specs.Option.{option_map, option_to_list};
ghost use Rattle.std.specs.Str.{str_eq_ignore_ascii_case};
ghost use Rattle.std.specs.String.{string_bytes};
ghost use Rattle.xls_macros.specs.Kinds.{entries_by, entry_by, entry_views, entries_in, is_slash, kind_in, kind_of_word, kind_text, ending_text, name_in, of_value};

use std::alloc::{AllocError, Global};

/// What kind of module a project says that one is.
#[derive(Clone, Copy, Debug, PartialEq, Eq)]
pub enum ModuleKind {
    /// Procedures.
    Module,
    /// A class.
    Class,
    /// The code of the workbook or of a sheet.
    Document,
    /// The code of a form.
    Form,
}

impl ModuleKind {
    /// The word of a kind: `module`, `class`, `document` or `form`.
    pub fn word(self) -> &'static str
        ensures { result.now ≡ kind_text self }
    {
        match self {
            ModuleKind::Module => "module",
            ModuleKind::Class => "class",
            ModuleKind::Document => "document",
            ModuleKind::Form => "form",
        }
    }

    /// The ending of the name of a source's file: `bas`, `cls`, or `frm` of a form.
    pub fn ending(self) -> &'static str
        ensures { result.now ≡ ending_text self }
    {
        match self {
            ModuleKind::Module => "bas",
            ModuleKind::Class | ModuleKind::Document => "cls",
            ModuleKind::Form => "frm",
        }
    }
}

/// A module that a project names.
#[derive(Debug, Drop)]
pub(crate) struct NamedModule {
    pub(crate) name: String,
    pub(crate) kind: ModuleKind,
}

// The kind of the modules that lines of this word name.
fn kind_of_word(word: &str) -> Option<ModuleKind>
    ensures { result ≡ kind_of_word word.now }
{
    if word.eq_ignore_ascii_case("Module") {
        Some(ModuleKind::Module)
    } else if word.eq_ignore_ascii_case("Class") {
        Some(ModuleKind::Class)
    } else if word.eq_ignore_ascii_case("Document") {
        Some(ModuleKind::Document)
    } else if word.eq_ignore_ascii_case("BaseClass") {
        Some(ModuleKind::Form)
    } else {
        None
    }
}

// What stands before the first slash.
fn before_slash(value: &str) -> &str
    ensures { result.now ≡ before_first is_slash value.now }
{
    match value.split_once('/') {
        Some((name, _)) => name,
        None => value,
    }
}

// The name in what a line says.
fn name_in(kind: ModuleKind, value: &str) -> &str
    ensures { result.now ≡ name_in kind value.now }
{
    match kind {
        ModuleKind::Document => before_slash(value),
        ModuleKind::Module | ModuleKind::Class | ModuleKind::Form => value,
    }
}

// The module that a word and a value name.
fn module_of_value<'t>(word: &str, value: &'t str) -> Option<(ModuleKind, &'t str)>
    ensures { option_map (λ x. (x.0, x.1.now)) result ≡ of_value (kind_of_word word.now) value.now }
{
    let kind = kind_of_word(word)?;
    Some((kind, name_in(kind, value)))
}

// The module that a line names.
fn module_of_line(line: &str) -> Option<(ModuleKind, &str)>
    ensures { option_map (λ x. (x.0, x.1.now)) result ≡ entry_by line.now }
{
    let (word, value) = line.split_once('=')?;
    module_of_value(word, value)
}

// Appends the module that a line names.
fn push_named(alloc: Global, line: &str, modules: &mut Vec<NamedModule>) -> Result<(), AllocError>
    ensures { OnOk result (entry_views modules.new.items
        ≡ entry_views modules.old.items ++ option_to_list (entry_by line.now)) }
{
    if let Some((kind, name)) = module_of_line(line) {
        let name = String::from_str(alloc, name)?;
        modules.push(NamedModule { name, kind })?;
    }
    Ok(())
}

// The lines of a text.
fn lines_of(alloc: Global, text: &str) -> Result<Vec<&str>, AllocError>
    ensures { IfOk result (λ lines. map (λ x. x.now) lines.items ≡ slice_split (λ b. b == 0x0A) text.now) }
{
    text.split('\n').collect(alloc)
}

// The modules that lines name.
fn named_in(alloc: Global, lines: &[&str]) -> Result<Vec<NamedModule>, AllocError>
    ensures { IfOk result (λ modules. entry_views modules.items ≡ entries_by (map (λ x. x.now) lines.now)) }
{
    let mut modules = Vec::new(alloc);
    'lines: for line in lines {
        push_named(alloc, line, &mut modules)?;
    }
    Ok(modules)
}

/// The modules that the lines of a text name, in their order.
pub(crate) fn named_modules(alloc: Global, text: &str) -> Result<Vec<NamedModule>, AllocError>
    ensures { IfOk result (λ modules. entry_views modules.items ≡ entries_in text.now) }
{
    let lines = lines_of(alloc, text)?;
    named_in(alloc, &lines)
}

// Whether a module has this name.
fn is_named(entry: &NamedModule, name: &str) -> bool
    ensures { result ≡ str_eq_ignore_ascii_case (string_bytes entry.now.name) name.now }
{
    entry.name.as_str().eq_ignore_ascii_case(name)
}

/// The kind of the first module of a name.
pub(crate) fn kind_in(modules: &[NamedModule], name: &str) -> ModuleKind
    ensures { result ≡ kind_in (entry_views modules.now) name.now }
{
    'modules: for module in modules {
        if is_named(module, name) {
            return module.kind;
        }
    }
    ModuleKind::Module
}
