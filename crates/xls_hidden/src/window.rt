//! The first window of a sheet.

ghost use Rattle.std.specs.Prelude.{◌≡◌, List, ◌∷◌};
ghost use Rattle.xls_hidden.specs.Windows as windows;
ghost use Rattle.xls_hidden.specs.Walking.{completed, at_the_end};

use crate::fields::{Pane, Window};
use crate::said::Said;

/// What is known of the first window while records are read.
#[derive(Clone, Copy)]
pub(crate) enum WindowSoFar {
    /// No Window2 stood yet.
    Before,
    /// The first Window2 stood, and neither its Pane nor another Window2.
    Begun(Window),
    /// All of it.
    Whole(Window, Option<Pane>),
}

fn begun(said: Said) -> WindowSoFar
    ensures { (more : List Said) → completed result more ≡ completed WindowSoFar.Before (said ∷ more) }
{
    match said {
        Said::Window(window) => WindowSoFar::Begun(window),
        _ => WindowSoFar::Before,
    }
}

fn went_on(window: Window, said: Said) -> WindowSoFar
    ensures { (more : List Said) → completed result more ≡ completed (WindowSoFar.Begun window) (said ∷ more) }
{
    match said {
        Said::Window(_) => WindowSoFar::Whole(window, None),
        Said::Pane(pane) => WindowSoFar::Whole(window, Some(pane)),
        _ => WindowSoFar::Begun(window),
    }
}

impl WindowSoFar {
    /// What is known after one more record.
    pub(crate) fn after(self, said: Said) -> WindowSoFar
        ensures { (more : List Said) → completed result more ≡ completed self (said ∷ more) }
    {
        match self {
            WindowSoFar::Before => begun(said),
            WindowSoFar::Begun(window) => went_on(window, said),
            WindowSoFar::Whole(window, pane) => WindowSoFar::Whole(window, pane),
        }
    }

    /// The panes that are frozen, where there are any: so many rows and columns, not both 0.
    pub(crate) fn frozen(self) -> Option<Pane>
        ensures { result ≡ windows.frozen_by (at_the_end self) }
    {
        match self {
            WindowSoFar::Whole(window, Some(pane)) => {
                if window.is_frozen && !(pane.rows == 0 && pane.columns == 0) {
                    Some(pane)
                } else {
                    None
                }
            }
            _ => None,
        }
    }

    /// Whether cells that are zero are shown as empty.
    pub(crate) fn hides_zeros(self) -> bool
        ensures { result ≡ windows.hides_zeros_by (at_the_end self) }
    {
        match self {
            WindowSoFar::Before => false,
            WindowSoFar::Begun(window) => !window.shows_zeros,
            WindowSoFar::Whole(window, _) => !window.shows_zeros,
        }
    }
}
