//! What is hidden in the sheets that are written.

ghost use Rattle.std.specs.Prelude.{◌≡◌, ◌<◌, ◌+◌, ◌^◌, IfErr, IfOk, drop, length};
ghost use Rattle.xls_hidden.specs.FilterAreas.{first_area};
ghost use Rattle.xls_parts.specs.PartRecords.{globals_records};
ghost use Rattle.xls_answers.specs.HiddenParts.{AreSkipped, IsHiddenAt, IsHiddenOf, IsHiddenPart, IsLastOf, IsSkippedAt};
ghost use Rattle.std.specs.Option.{option_copied};
ghost use Rattle.xls_open.specs.Globals.{AreGlobals};
ghost use Rattle.xls_open.specs.Workbook.{rules_of};
ghost use Rattle.xls_view.specs.Viewing.{ViewCause};

use crate::tables::last_named;
use std::alloc::{AllocError, Global};
use std::marker::Model;
use xls_beside::read_globals_of;
use xls_biff::XlsError;
use xls_hidden::{FilterArea, HiddenSheet, read_filter_areas, read_hidden};
use xls_hidden_cells::Sight;
use xls_open::{Globals, XlsOptions};
use xls_view::{View, part_at};

/// Where the records stand that say what is hidden in the sheets of a workbook. Contracts see the stream, and what its
/// globals give.
#[derive(Drop)]
pub struct HiddenParts<'s> {
    stream: &'s [u8],
    globals: Globals,
    /// The area of each sheet's filter.
    areas: Vec<Option<FilterArea>>,
}

impl<'s> Model for HiddenParts<'s> {
    ghost use Rattle.std.specs.Prelude.{length};
    ghost use Rattle.xls_hidden.specs.FilterAreas.{AreAreas};
    ghost use Rattle.xls_parts.specs.PartRecords.{globals_records};
    ghost use Rattle.xls_answers.specs.HiddenParts.{Parts};

    ghost Value = { Parts };

    ghost view = { λ s. record { stream = s.stream.now; globals = s.globals } };

    ghost invariant = { λ s. AreAreas s.globals.version (globals_records s.stream.now) (length s.globals.sheets) s.areas.items };
}

/// The bytes from an offset on; none past the end.
fn bytes_from(stream: &[u8], offset: usize) -> &[u8]
    ensures bytes { result.now ≡ drop offset stream.now }
    ensures fits { offset + length result.now < 2 ^ 64 }
{
    part_at(stream, offset)
}

/// The index of the last sheet that has the name of the sheet of an index.
fn last_of(view: &View<'_>, index: usize) -> Option<usize>
    requires { index < length view.now.book.sheets }
    ensures { IsLastOf view.now index result }
{
    let sheets = view.sheets();
    last_named(sheets, sheets[index].name.as_str())
}

impl<'s> HiddenParts<'s> {
    /// Those of a workbook's stream. Memory may run out; without that only a fault of the globals refuses.
    pub fn new(
        alloc: Global,
        options: &XlsOptions,
        stream: &'s [u8],
    ) -> Result<HiddenParts<'s>, XlsError>
        ensures stream { IfOk result (λ parts. parts.stream ≡ stream.entry.now) }
        ensures globals { IfOk result (λ parts. AreGlobals (rules_of options.now) stream.entry.now parts.globals) }
        ensures err { IfErr result (ViewCause (rules_of options.now) stream.entry.now) }
    {
        let globals = read_globals_of(alloc, options, stream)?;
        let areas = read_filter_areas(alloc, stream, globals.version, globals.listed.len())?;
        Ok(HiddenParts {
            stream,
            globals,
            areas,
        })
    }

    /// How many sheets the globals list.
    pub fn count(&self) -> usize
        ensures { result ≡ length self.now.globals.sheets }
    {
        self.globals.listed.len()
    }

    /// The area of the filter of a sheet.
    fn area(&self, index: usize) -> Option<FilterArea>
        requires { index < length self.now.globals.sheets }
        ensures { result ≡ first_area self.now.globals.version index (globals_records self.now.stream) }
    {
        match self.areas.get(index) {
            Some(area) => *area,
            None => None,
        }
    }

    /// What is hidden in the sheet of an index, whose part begins at an offset.
    fn read(
        &self,
        alloc: Global,
        index: usize,
        offset: usize,
    ) -> Result<HiddenSheet<'s>, AllocError>
        requires { index < length self.now.globals.sheets }
        ensures { IfOk result (IsHiddenPart self.now index offset) }
    {
        read_hidden(
            alloc,
            bytes_from(self.stream, offset),
            offset as u64,
            self.globals.version,
            self.area(index),
        )
    }

    /// What is hidden in the sheet that the globals list at an index, if they list one.
    pub fn listed(&self, alloc: Global, index: usize) -> Result<Option<HiddenSheet<'s>>, AllocError>
        ensures { IfOk result (IsHiddenOf self.now (Some index)) }
    {
        match self.globals.listed.get(index) {
            Some(listed) => Ok(Some(self.read(alloc, index, listed.offset)?)),
            None => Ok(None),
        }
    }

    /// What is hidden in the sheet of an index: that of the last sheet of its name, whose cells it shows.
    pub fn at(
        &self,
        alloc: Global,
        view: &View<'_>,
        index: usize,
    ) -> Result<Option<HiddenSheet<'s>>, AllocError>
        requires { index < length view.now.book.sheets }
        ensures { IfOk result (IsHiddenAt self.now view.now index) }
    {
        match last_of(view, index) {
            Some(last) => self.listed(alloc, last),
            None => Ok(None),
        }
    }
}

/// What is needed to leave out what is hidden, where that is asked for.
pub fn skipped_parts<'s>(
    alloc: Global,
    sight: Sight,
    options: &XlsOptions,
    stream: &'s [u8],
) -> Result<Option<HiddenParts<'s>>, XlsError>
    ensures ok { IfOk result (AreSkipped sight options.now stream.entry.now) }
    ensures err { IfErr result (ViewCause (rules_of options.now) stream.entry.now) }
{
    match sight {
        Sight::All => Ok(None),
        Sight::Seen => Ok(Some(HiddenParts::new(alloc, options, stream)?)),
    }
}

/// What is left out of the sheet of an index.
pub fn skipped_at<'s>(
    alloc: Global,
    parts: Option<&HiddenParts<'s>>,
    view: &View<'_>,
    index: usize,
) -> Result<Option<HiddenSheet<'s>>, AllocError>
    requires { index < length view.now.book.sheets }
    ensures { IfOk result (IsSkippedAt (option_copied parts.entry) view.now index) }
{
    match parts {
        Some(parts) => parts.at(alloc, view, index),
        None => Ok(None),
    }
}
