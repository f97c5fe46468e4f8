//! Laws over the definitions, each the contract of a call that does nothing.

ghost use Rattle.std.specs.Prelude.{◌≡◌, ◌↔◌, IsTrue};
ghost use Rattle.std.specs.Cmp.Lexicographic.{slice_cmp};
ghost use Rattle.std.specs.Ordering.{nat_cmp};
ghost use Rattle.xls_data.specs.Data.{content_of};
ghost use Rattle.xls_data.specs.Refs.{ref_content_of, is_shared, HasText};
ghost use Rattle.xls_data.specs.Regions.{corners};
ghost use Rattle.xls_data.specs.Sheets.{sheet_content};
ghost use Rattle.xls_dates.specs.declared.numbers.Number.{Number};
ghost use Rattle.xls_data.specs.declared.refs.DataRef.{DataRef};
ghost use Rattle.xls_data.specs.declared.regions.Dimensions.{Dimensions};
ghost use Rattle.xls_data.specs.declared.sheets.Sheet.{Sheet};
ghost use Rattle.xls_data.specs.declared.values.Data.{Data};

use crate::{Data, DataRef, Dimensions, Number, Sheet};

/// Two numbers are equal exactly where form and value are, two values where their contents are, two
/// values with borrowed texts where besides both texts are shared or neither is, and two sheets
/// where name, kind and visibility are.
pub fn equality_by_content()
    ensures numbers { (a b : Number) → IsTrue (⟦<Number as PartialEq>⟧.eq a b) ↔ (a ≡ b) }
    ensures values { (a b : Data)
        → IsTrue (⟦<Data as PartialEq>⟧.eq a b) ↔ (content_of a ≡ content_of b) }
    ensures borrowed { (a b : DataRef) → HasText a → HasText b
        → IsTrue (⟦<DataRef<'static> as PartialEq>⟧.eq a b)
        ↔ ((ref_content_of a ≡ ref_content_of b) × (is_shared a ≡ is_shared b)) }
    ensures sheets { (a b : Sheet)
        → IsTrue (⟦<Sheet as PartialEq>⟧.eq a b) ↔ (sheet_content a ≡ sheet_content b) }
{}

/// Regions are ordered by first row, first column, last row and last column, in this order.
pub fn order_of_regions()
    ensures { (a b : Dimensions)
        → ⟦<Dimensions as Ord>⟧.cmp a b ≡ slice_cmp nat_cmp (corners a) (corners b) }
{}
