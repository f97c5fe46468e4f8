//! The macro project of a file.

ghost use Rattle.std.specs.Prelude.{◌≡◌, ◌∷◌, [], ℕ, map, IfOk, IfErr, MatchOption};
ghost use Rattle.std.specs.Cow.{cow_slice_items};
ghost use Rattle.xls_compound.specs.Entries.{entry_at};
ghost use Rattle.xls_documents.specs.MacroDirectory.{are_directory_names, is_directory_path, TestsAs, IsFirstDirectory, HasNoDirectory, MacroDirectoryBytes, IsProjectOf, HasProject, IsProjectFrom, RefusesDirectory, RefusesProjectFrom, RefusesProjectOf, RefusesProject};

use crate::fault::ProjectFault;
use std::alloc::{AllocError, Global};
use std::borrow::CowSlice;
use xls_compound::{Compound, Entry};
use xls_container::{Container, FileFault};
use xls_vba::{VbaProject, decompress};

// Whether a storage and a stream of these names are those of a directory.
fn is_directory_in(storage: &str, name: &str) -> bool
    ensures { result ≡ are_directory_names (storage.now ∷ name.now ∷ []) }
{
    storage.eq_ignore_ascii_case("VBA") && name.eq_ignore_ascii_case("dir")
}

// Whether these are the names of a directory's storage and of the directory.
fn are_directory_names(names: &[&str]) -> bool
    ensures { result ≡ are_directory_names (map (λ x. x.now) names.now) }
{
    match names {
        [storage, name] => is_directory_in(storage, name),
        _ => false,
    }
}

// Whether a path ends in a directory's storage and the directory.
fn is_directory_path(names: &[&str]) -> bool
    ensures { result ≡ is_directory_path (map (λ x. x.now) names.now) }
{
    are_directory_names(&names[names.len().saturating_sub(2)..])
}

// Whether an entry is the directory of a project.
fn is_directory(alloc: Global, entry: &Entry<'_>) -> Result<bool, AllocError>
    ensures { IfOk result (TestsAs entry.now) }
{
    if !entry.is_stream() {
        return Ok(false);
    }
    let names = entry.path(alloc)?;
    Ok(is_directory_path(&names))
}

/// The first directory of a project, by its place in what a compound file lists.
pub fn directory_entry<'c>(
    alloc: Global,
    compound: &'c Compound<'_>,
) -> Result<Option<Entry<'c>>, AllocError>
    ensures { IfOk result (λ found. MatchOption found (HasNoDirectory compound.now.listing)
        (λ entry. (place : ℕ) × (entry ≡ entry_at compound.now.listing place) × IsFirstDirectory compound.now.listing place)) }
{
    'entries: for entry in compound.streams() {
        if is_directory(alloc, &entry)? {
            return Ok(Some(entry));
        }
    }
    Ok(None)
}

/// The bytes of the first directory of a project, compressed as they stand in the file. Refused with the first fault
/// of its chain.
pub fn directory_bytes<'c>(
    alloc: Global,
    compound: &'c Compound<'_>,
) -> Result<Option<CowSlice<'c, u8>>, ProjectFault>
    ensures ok { IfOk result (λ found. MatchOption found (HasNoDirectory compound.now.listing)
        (λ bytes. MacroDirectoryBytes compound.now (cow_slice_items bytes))) }
    ensures err { IfErr result (RefusesDirectory compound.now) }
{
    let Some(entry) = directory_entry(alloc, compound)? else {
        return Ok(None);
    };
    match compound.stream(alloc, &entry) {
        Ok(bytes) => Ok(Some(bytes)),
        Err(error) => Err(ProjectFault::from(FileFault::from(error))),
    }
}

// The project of compressed bytes.
fn project_from(alloc: Global, bytes: &[u8]) -> Result<VbaProject, ProjectFault>
    ensures ok { IfOk result (IsProjectFrom bytes.now) }
    ensures err { IfErr result (RefusesProjectFrom bytes.now) }
{
    let plain = decompress(alloc, bytes)?;
    let project = VbaProject::from_dir(alloc, &plain)?;
    Ok(project)
}

// The project of a compound file.
fn project_in(alloc: Global, compound: &Compound<'_>) -> Result<Option<VbaProject>, ProjectFault>
    ensures ok { IfOk result (IsProjectOf compound.now) }
    ensures err { IfErr result (RefusesProjectOf compound.now) }
{
    match directory_bytes(alloc, compound)? {
        Some(bytes) => Ok(Some(project_from(alloc, bytes.as_slice())?)),
        None => Ok(None),
    }
}

/// The macro project of a compound file, by the first stream named `dir` in a storage named `VBA`, whatever the
/// case, in the order of the directory's tree; None where there is none, and for a workbook's stream alone. Refused
/// with the first fault: of that stream's chain (`File`), of its compression (`Compression`), of what it says
/// (`Directory`).
pub fn project_of(
    alloc: Global,
    container: &Container<'_>,
) -> Result<Option<VbaProject>, ProjectFault>
    ensures ok { IfOk result (HasProject container.now) }
    ensures err { IfErr result (RefusesProject container.now) }
{
    match container.compound() {
        Some(compound) => project_in(alloc, compound),
        None => Ok(None),
    }
}
