//! A macro project with what its storage holds.

ghost use Rattle.std.specs.Prelude.{◌≡◌, List, ℕ, map, Some, IfOk, IfErr};
ghost use Rattle.std.specs.Cow.{cow_slice_items};
ghost use Rattle.std.specs.Option.{option_map};
ghost use Rattle.std.specs.String.{string_bytes};
ghost use Rattle.xls_compound.specs.Entries.{entry_at};
ghost use Rattle.xls_compound.specs.Items.{IsPath};
ghost use Rattle.xls_documents.specs.MacroDirectory.{IsFirstDirectory, MacroDirectoryBytes, RefusesProject, RefusesProjectFrom, RefusesProjectOf};
ghost use Rattle.xls_vba.specs.Modules.{module_view};
ghost use Rattle.xls_vba.specs.Project.{AreNames, IsProjectRefusal, last_module};
ghost use Rattle.xls_macros.specs.Kinds.{entry_views, kind_in};
ghost use Rattle.xls_macros.specs.Macros.{AreMacros, AreMacrosOf, HasMacros, IsModuleSource, ReadsListing, RefusesModule, RefusesSource, SaysProject, all_but_last, listing_path};
ghost use Rattle.xls_macros.specs.Sources.{IsLinedSource};
ghost use Rattle.xls_macros.specs.Streams.{HasStreamAt, RefusesStreamIn};

use crate::fault::ModuleFault;
use crate::kind::{ModuleKind, NamedModule, kind_in};
use crate::page::page_of;
use crate::source::{listed_in, source_in};
use crate::streams::stream_in;
use std::alloc::{AllocError, Global};
use std::borrow::CowSlice;
use std::marker::Model;
use xls_compound::{Compound, CompoundError, Entry};
use xls_container::Container;
use xls_documents::{ProjectFault, directory_bytes, directory_entry};
use xls_text::XlsEncoding;
use xls_vba::{Module, VbaError, VbaProject, decompress};

/// A macro project in a compound file, whose modules have their sources in the storage of its directory. The file is
/// borrowed.
#[derive(Drop)]
pub struct Macros<'c, 'f> {
    compound: &'c Compound<'f>,
    storages: Vec<&'c str>,
    project: VbaProject,
    page: XlsEncoding,
    listing: Listing,
}

/// What a project's stream names.
#[derive(Debug, Drop)]
pub(crate) struct Listing {
    named: Vec<NamedModule>,
    /// Why it isn't read.
    damage: Option<CompoundError>,
}

impl<'c, 'f> Model for Macros<'c, 'f> {
    ghost use Rattle.std.specs.Prelude.{map};
    ghost use Rattle.xls_macros.specs.Kinds.{entry_views};
    ghost use Rattle.xls_macros.specs.Macros as specs;

    ghost Value = { specs.Macros };

    ghost view = { λ m. record {
      compound = m.compound.now;
      storages = map (λ x. x.now) m.storages.items;
      project = m.project;
      page = m.page;
      named = entry_views m.listing.named.items;
      damage = m.listing.damage;
    } };
}

// The names of the storages that hold an entry, the outermost first.
fn storages_of<'c>(alloc: Global, entry: &Entry<'c>) -> Result<Vec<&'c str>, AllocError>
    ensures { IfOk result (λ storages. (path : List (List ℕ)) × IsPath entry.now.listing.items entry.now.place path
        × (map (λ x. x.now) storages.items ≡ all_but_last path)) }
{
    let mut names = entry.path(alloc)?;
    names.pop();
    Ok(names)
}

// What the compressed bytes of a directory say.
fn read_directory(alloc: Global, bytes: &[u8]) -> Result<(VbaProject, XlsEncoding), ProjectFault>
    ensures ok { IfOk result (λ x. SaysProject bytes.now x.0 x.1) }
    ensures err { IfErr result (RefusesProjectFrom bytes.now) }
{
    let plain = decompress(alloc, bytes)?;
    let project = VbaProject::from_dir(alloc, &plain)?;
    let page = page_of(&plain);
    Ok((project, page))
}

// All names but the last.
fn all_but_last<'s, 'n>(names: &'s [&'n str]) -> &'s [&'n str]
    ensures { map (λ x. x.now) result.now ≡ all_but_last (map (λ x. x.now) names.now) }
{
    &names[..names.len().saturating_sub(1)]
}

// The bytes of the stream of a project, by the storages of its directory.
fn listing_stream<'c>(
    alloc: Global,
    compound: &'c Compound<'_>,
    storages: &[&str],
) -> Result<Option<CowSlice<'c, u8>>, CompoundError>
    ensures ok { IfOk result (λ found. HasStreamAt compound.now (listing_path (map (λ x. x.now) storages.now))
        (option_map cow_slice_items found)) }
    ensures err { IfErr result (RefusesStreamIn compound.now (listing_path (map (λ x. x.now) storages.now))) }
{
    stream_in(alloc, compound, all_but_last(storages), "PROJECT")
}

// What the stream of a project names, by the storages of its directory.
fn read_listing(
    alloc: Global,
    compound: &Compound<'_>,
    storages: &[&str],
    page: XlsEncoding,
) -> Result<Listing, AllocError>
    ensures { IfOk result (λ listing. ReadsListing compound.now (listing_path (map (λ x. x.now) storages.now)) page
        (entry_views listing.named.items) listing.damage) }
{
    match listing_stream(alloc, compound, storages) {
        Ok(Some(bytes)) => Ok(Listing {
            named: listed_in(alloc, bytes.as_slice(), page)?,
            damage: None,
        }),
        Ok(None) => Ok(Listing {
            named: Vec::new(alloc),
            damage: None,
        }),
        Err(CompoundError::Memory) => Err(AllocError),
        Err(error) => Ok(Listing {
            named: Vec::new(alloc),
            damage: Some(error),
        }),
    }
}

// The project of the directory at an entry.
fn macros_at<'c, 'f>(
    alloc: Global,
    compound: &'c Compound<'f>,
    entry: &Entry<'c>,
    bytes: &[u8],
) -> Result<Macros<'c, 'f>, ProjectFault>
    requires directory { (place : ℕ) × (entry.now ≡ entry_at compound.now.listing place) × IsFirstDirectory compound.now.listing place }
    requires bytes { MacroDirectoryBytes compound.now bytes.now }
    ensures ok { IfOk result (AreMacros compound.now) }
    ensures err { IfErr result (RefusesProjectFrom bytes.now) }
{
    let storages = storages_of(alloc, entry)?;
    let (project, page) = read_directory(alloc, bytes)?;
    let listing = read_listing(alloc, compound, &storages, page)?;
    Ok(Macros {
        compound,
        storages,
        project,
        page,
        listing,
    })
}

// The project of a compound file.
fn macros_in<'c, 'f>(
    alloc: Global,
    compound: &'c Compound<'f>,
) -> Result<Option<Macros<'c, 'f>>, ProjectFault>
    ensures ok { IfOk result (AreMacrosOf compound.now) }
    ensures err { IfErr result (RefusesProjectOf compound.now) }
{
    let Some(entry) = directory_entry(alloc, compound)? else {
        return Ok(None);
    };
    match directory_bytes(alloc, compound)? {
        Some(bytes) => Ok(Some(macros_at(alloc, compound, &entry, bytes.as_slice())?)),
        None => Ok(None),
    }
}

/// The macro project of a compound file, by the directory that `project_of` of xls_documents finds; None where there
/// is none, and for a workbook's stream alone. Refused as `project_of` refuses. The stream `PROJECT` is looked for
/// beside the storage of the directory; where it isn't there, or its chain has a fault, it names no module.
pub fn macros_of<'c, 'f>(
    alloc: Global,
    container: &'c Container<'f>,
) -> Result<Option<Macros<'c, 'f>>, ProjectFault>
    ensures ok { IfOk result (HasMacros container.now) }
    ensures err { IfErr result (RefusesProject container.now) }
{
    match container.compound() {
        Some(compound) => macros_in(alloc, compound),
        None => Ok(None),
    }
}

// The source in the bytes of a module's stream.
fn source_from(
    alloc: Global,
    stream: &[u8],
    offset: u32,
    page: XlsEncoding,
) -> Result<String, ModuleFault>
    ensures ok { IfOk result (λ source. IsLinedSource stream.now offset page (string_bytes source)) }
    ensures err { IfErr result (RefusesSource stream.now offset) }
{
    let source = source_in(alloc, stream, offset, page)?;
    Ok(source)
}

// The source of a module of a project.
fn source_of(alloc: Global, macros: &Macros<'_, '_>, m: &Module) -> Result<String, ModuleFault>
    ensures ok { IfOk result (λ source. IsModuleSource macros.now (module_view m.now) (string_bytes source)) }
    ensures err { IfErr result (RefusesModule macros.now (module_view m.now)) }
{
    let name = m.stream_name.as_str();
    match stream_in(alloc, macros.compound, &macros.storages, name) {
        Ok(Some(stream)) => source_from(alloc, stream.as_slice(), m.text_offset, macros.page),
        Ok(None) => Err(ModuleFault::NoStream(String::from_str(alloc, name)?)),
        Err(CompoundError::Memory) => Err(ModuleFault::Memory),
        Err(error) => Err(ModuleFault::Stream(error)),
    }
}

impl Macros<'_, '_> {
    /// The names of the modules, each once, in the order of their bytes.
    pub fn names(&self, alloc: Global) -> Result<Vec<&str>, AllocError>
        ensures { IfOk result (λ names. AreNames self.now.project.modules (map (λ x. x.now) names.items)) }
    {
        self.project.get_module_names(alloc)
    }

    /// A copy of the last module of a name. `ModuleNotFound` with the name exactly where no module has it, else only
    /// running out of memory refuses.
    pub fn module(&self, alloc: Global, name: &str) -> Result<Module, VbaError>
        ensures found { IfOk result (λ m. last_module name.now self.now.project.modules ≡ Some (module_view m)) }
        ensures cause { IfErr result (IsProjectRefusal name.now self.now.project.modules) }
    {
        self.project.module(alloc, name)
    }

    /// What kind of module the project says that the one of a name is.
    pub fn kind(&self, name: &str) -> ModuleKind
        ensures { result ≡ kind_in self.now.named name.now }
    {
        kind_in(&self.listing.named, name)
    }

    /// The source of a module, in UTF-8, each of its lines ended by LF. Refused where its stream isn't there, or the
    /// chain of the stream or the compression in it has a fault.
    pub fn source(&self, alloc: Global, m: &Module) -> Result<String, ModuleFault>
        ensures ok { IfOk result (λ source. IsModuleSource self.now (module_view m.now) (string_bytes source)) }
        ensures err { IfErr result (RefusesModule self.now (module_view m.now)) }
    {
        source_of(alloc, self, m)
    }

    /// Why the stream `PROJECT` isn't read, where its chain has a fault.
    pub fn damage(&self) -> Option<&CompoundError>
        ensures { option_map (λ x. x.now) result ≡ self.now.damage }
    {
        self.listing.damage.as_ref()
    }
}
