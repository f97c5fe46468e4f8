//! How the cells of a listing are read.

ghost use Rattle.std.specs.Prelude.{◌≡◌, IfOk};
ghost use Rattle.xls_data.specs.Refs.{ref_content_of};
ghost use Rattle.xls_view.specs.Values.{formatted_entry};
ghost use Rattle.xls_listing.specs.Listing.{TellsShown, cell_as, reader_of, shown_of};

use std::alloc::{AllocError, Global};
use xls_cell_formats::CellFormats;
use xls_data::DataRef;
use xls_view::{SheetCell, View};

/// How the cells of a listing are read.
#[derive(Clone, Copy, Debug, PartialEq, Eq)]
pub enum CellReading {
    /// As their records have them: the identifiers of formats decide which numbers are dates.
    Recorded,
    /// Each number is a date, a duration or a number by the code of its format.
    ByCode,
    /// Likewise, and with what Excel shows.
    Shown,
}

/// What reads cells so.
#[derive(Drop)]
pub(crate) enum CellReader<'f> {
    Recorded,
    ByCode(CellFormats<'f>),
    Shown(CellFormats<'f>),
}

impl<'f> CellReader<'f> {
    pub(crate) fn new(
        alloc: Global,
        reading: CellReading,
        view: &'f View<'f>,
    ) -> Result<CellReader<'f>, AllocError>
        ensures { IfOk result (λ reader. reader ≡ reader_of reading view.now) }
    {
        match reading {
            CellReading::Recorded => Ok(CellReader::Recorded),
            CellReading::ByCode => Ok(CellReader::ByCode(CellFormats::new(alloc, view)?)),
            CellReading::Shown => Ok(CellReader::Shown(CellFormats::new(alloc, view)?)),
        }
    }

    /// A cell as it is read.
    #[inline(always)]
    pub(crate) fn cell<'c>(&self, cell: SheetCell<'c>) -> SheetCell<'c>
        ensures { formatted_entry result ≡ cell_as self.now (formatted_entry cell.entry) }
    {
        match self {
            CellReader::Recorded => cell,
            CellReader::ByCode(formats) => formats.classed(cell),
            CellReader::Shown(formats) => formats.classed(cell),
        }
    }

    /// What Excel shows of a value in a cell of this XF index, where that is told. It is made in `room`.
    #[inline(always)]
    pub(crate) fn shown<'r>(
        &self,
        xf: u16,
        value: &DataRef<'_>,
        room: &'r mut String,
    ) -> Result<Option<&'r str>, AllocError>
        ensures { IfOk result (TellsShown (shown_of self.now (ref_content_of value.now) xf)) }
    {
        let CellReader::Shown(formats) = self else {
            return Ok(None);
        };
        room.clear();
        formats.push_shown(xf, value, room)?;
        Ok(Some(room.as_str()))
    }
}
