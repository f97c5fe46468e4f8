//! A file, opened.

ghost use Rattle.std.specs.Prelude.{◌≡◌, IfOk, IfErr, true};
ghost use Rattle.std.specs.Cow.{cow_slice_items, IsBorrowedSlice};
ghost use Rattle.std.specs.Option.{option_map};
ghost use Rattle.xls_container.specs.Kinds.{is_compound};
ghost use Rattle.xls_container.specs.Contents.{container_of};
ghost use Rattle.xls_container.specs.Files.{compound_file, OpensContainer, RefusesToOpen, compound_in, HasWorkbook, RefusesWorkbook, LiesTogether};

use crate::fault::FileFault;
use crate::kind::{is_bare, is_compound, kind_of};
use std::alloc::Global;
use std::borrow::CowSlice;
use std::marker::Model;
use xls_compound::Compound;

/// What a container holds.
#[derive(Drop)]
enum Content<'a> {
    CompoundFile(Compound<'a>),
    BareStream(&'a [u8]),
}

/// A file that may hold a workbook: a compound file, or the workbook's stream alone. The bytes of the
/// file are borrowed.
#[derive(Drop)]
pub struct Container<'a> {
    content: Content<'a>,
}

impl<'a> Model for Container<'a> {
    ghost use Rattle.xls_container.specs.Files as specs;
    ghost use Rattle.xls_container.specs.Contents.{container_of};

    ghost Value = { specs.Container };

    ghost view = { λ container. container_of container.content };
}

// Opens a compound file.
fn open_compound(alloc: Global, file: &[u8]) -> Result<Content<'_>, FileFault>
    requires { is_compound file.now ≡ true }
    ensures ok { IfOk result (λ content. OpensContainer file.now (container_of content)) }
    ensures err { IfErr result (RefusesToOpen file.now) }
{
    Ok(Content::CompoundFile(Compound::open(alloc, file)?))
}

// What a file holds.
fn content_of(alloc: Global, file: &[u8]) -> Result<Content<'_>, FileFault>
    ensures ok { IfOk result (λ content. OpensContainer file.now (container_of content)) }
    ensures err { IfErr result (RefusesToOpen file.now) }
{
    if is_compound(file) {
        return open_compound(alloc, file);
    }
    if is_bare(file) {
        return Ok(Content::BareStream(file));
    }
    Err(FileFault::Kind(kind_of(file)))
}

// The bytes of the workbook in a compound file.
fn workbook_in<'c>(alloc: Global, compound: &'c Compound<'_>) -> Result<CowSlice<'c, u8>, FileFault>
    ensures ok { IfOk result (λ bytes. HasWorkbook (compound_file compound.now) (cow_slice_items bytes)) }
    ensures err { IfErr result (RefusesWorkbook (compound_file compound.now)) }
    ensures borrowed { LiesTogether (compound_file compound.now) → IfOk result IsBorrowedSlice }
{
    let Some(entry) = compound.workbook() else {
        return Err(FileFault::NoWorkbook);
    };
    Ok(compound.stream(alloc, &entry)?)
}

impl<'a> Container<'a> {
    /// Opens a file: a compound file where it begins with D0 CF 11 E0 A1 B1 1A E1, a workbook's stream
    /// where it begins with a BOF 0809; every other file is refused with its kind (`Kind`), and a damaged
    /// compound file with its first fault (`Compound`). A workbook's stream takes no memory.
    pub fn open(alloc: Global, file: &'a [u8]) -> Result<Container<'a>, FileFault>
        ensures ok { IfOk result (OpensContainer file.now) }
        ensures err { IfErr result (RefusesToOpen file.now) }
    {
        let content = content_of(alloc, file)?;
        Ok(Container { content })
    }

    /// The bytes of the workbook's stream: of `Workbook`, or else `Book`, in the root of a compound file
    /// (`NoWorkbook` where neither is there, `Compound` where its chain has a fault), or the whole of a
    /// workbook's stream. They are borrowed where they stand together in the file, else gathered once.
    pub fn workbook(&self, alloc: Global) -> Result<CowSlice<'_, u8>, FileFault>
        ensures ok { IfOk result (λ bytes. HasWorkbook self.now (cow_slice_items bytes)) }
        ensures err { IfErr result (RefusesWorkbook self.now) }

        // Nothing is copied where the bytes stand together.
        ensures borrowed { LiesTogether self.now → IfOk result IsBorrowedSlice }
    {
        match &self.content {
            Content::CompoundFile(compound) => workbook_in(alloc, compound),
            Content::BareStream(bytes) => Ok(CowSlice::Borrowed(bytes)),
        }
    }

    /// The compound file; None for a workbook's stream.
    pub fn compound(&self) -> Option<&Compound<'a>>
        ensures { option_map (λ compound. compound.now) result ≡ compound_in self.now }
    {
        match &self.content {
            Content::CompoundFile(compound) => Some(compound),
            Content::BareStream(_) => None,
        }
    }
}
