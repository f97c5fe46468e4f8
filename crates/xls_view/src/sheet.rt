//! A sheet of a view.

ghost use Rattle.std.specs.Prelude.{◌≡◌, IfOk, map};
ghost use Rattle.xls_biff.specs.Cells.{CellEntry};
ghost use Rattle.xls_range.specs.Bounds.{bounds_of};
ghost use Rattle.xls_range.specs.Positions.{IsAscending};
ghost use Rattle.xls_view.specs.Formats.{FormattedCell, plain};
ghost use Rattle.xls_view.specs.SheetContents.{kept_in, shows};
ghost use Rattle.xls_view.specs.Walking.{IsSoundPart};

use crate::cells::SheetCells;
use crate::formatted::FormattedSheet;
use crate::formulas::SheetFormulas;
use crate::merges::Merges;
use crate::survey::{Survey, survey_of};
use std::alloc::{AllocError, Global};
use std::marker::Model;
use xls_data::Dimensions;
use xls_open::Settings;

/// A sheet of a view. One walk over the positions of its records has found whether its cells and its formulas
/// stand in order, so that what it shows is walked where it stands. Contracts see what it shows.
#[derive(Drop)]
pub struct ViewSheet<'v> {
    alloc: Global,
    settings: Settings<'v>,
    part: &'v [u8],
    survey: Survey,
}

impl<'v> Model for ViewSheet<'v> {
    ghost use Rattle.xls_view.specs.SheetContents.{cells_after, kept_in, regions_of, shows};
    ghost use Rattle.xls_view.specs.Formulas.{formulas_kept};
    ghost use Rattle.xls_view.specs.Surveying.{IsSurvey};
    ghost use Rattle.xls_view.specs.Displayed.{DisplayedSheet};
    ghost use Rattle.xls_view.specs.Walking.{IsSoundPart};

    ghost Value = { DisplayedSheet };

    ghost view = { λ s. shows s.settings (kept_in s.part.now 0) };

    ghost invariant = { λ s. IsSoundPart s.settings (s.part.now, 0)
        × IsSurvey s.survey (cells_after s.settings (0, 0) (kept_in s.part.now 0))
        (formulas_kept (kept_in s.part.now 0)) (regions_of (kept_in s.part.now 0)) };
}

impl<'v> ViewSheet<'v> {
    /// The sheet of a part whose records have no fault.
    pub fn new(alloc: Global, settings: Settings<'v>, part: &'v [u8]) -> ViewSheet<'v>
        requires { IsSoundPart settings (part.now, 0) }
        ensures { result ≡ shows settings.entry (kept_in part.entry.now 0) }
    {
        let survey = survey_of(part, &settings);
        ViewSheet {
            alloc,
            settings,
            part,
            survey,
        }
    }

    /// The smallest box that holds the cells, from its first row and column to its last; `None` exactly where
    /// there is no cell. Takes no memory.
    pub fn bounds(&self) -> Option<Dimensions>
        ensures { result ≡ bounds_of self.now.cells }
    {
        self.survey.cells().bounds()
    }

    /// The cells, of which contracts see the XF indices too. Takes memory, 32 bytes a cell, only where they don't
    /// stand in order; running out of it is the one refusal.
    pub fn formatted(&self) -> Result<FormattedSheet<'v>, AllocError>
        ensures cells { IfOk result (λ cells. cells ≡ self.now.formatted) }
        ensures plain { IfOk result (λ cells. map plain cells ≡ self.now.cells) }
        ensures ordered { IfOk result (λ cells. IsAscending (map (λ (c : FormattedCell). c.0) cells)) }
    {
        FormattedSheet::new(
            self.alloc,
            self.settings.again(),
            self.part,
            self.survey.cells(),
        )
    }

    /// The cells. Takes memory, 32 bytes a cell, only where they don't stand in order; running out of it is the
    /// one refusal.
    pub fn cells(&self) -> Result<SheetCells<'v>, AllocError>
        ensures cells { IfOk result (λ cells. cells ≡ self.now.cells) }
        ensures ordered { IfOk result (λ cells. IsAscending (map (λ (c : CellEntry). c.0) cells)) }
    {
        Ok(SheetCells::new(self.formatted()?))
    }

    /// The formulas. Takes memory, 24 bytes a formula, only where they don't stand in order; running out of it is
    /// the one refusal.
    pub fn formulas(&self) -> Result<SheetFormulas<'v>, AllocError>
        ensures { IfOk result (λ formulas. formulas ≡ record { context = self.now.context; left = self.now.formulas }) }
    {
        SheetFormulas::new(
            self.alloc,
            self.settings.again(),
            self.part,
            self.survey.formulas(),
        )
    }

    /// The merged regions, in the order of the stream. Takes no memory.
    pub fn merges(&self) -> Merges<'v>
        ensures { result ≡ self.now.merges }
    {
        if self.survey.has_merges() {
            return Merges::new(self.part);
        }
        Merges::new(&[])
    }
}
