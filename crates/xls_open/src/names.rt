//! What formulas may name: the sheets, the references and the defined names of a workbook.

ghost use Rattle.std.specs.Prelude.{◌≡◌, ◌≤◌, ◌++◌, ℕ, codes, map, IfOk};
ghost use Rattle.std.specs.Str.{chars};
ghost use Rattle.xls_strings.specs.Texts.{text_of};
ghost use Rattle.xls_data.specs.Sheets.{SheetContent};
ghost use Rattle.xls_formula.specs.Defined.{located_of, named_of};
ghost use Rattle.xls_meaning.specs.Settings.{known_refs, own_refs, placed_text, resolved_name};
ghost use Rattle.xls_open.specs.Globals.{IsNaming, listed_of};
ghost use Rattle.xls_open.specs.Workbook.{name_texts};

use crate::listed::{Lbl, Listed};
use std::alloc::{AllocError, Global};
use xls_biff::{Biff, Refs, Strings};
use xls_formula::{Names, sheet_of_reference};

/// What formulas may name, and the defined names once more as the workbook tells them.
#[derive(Drop)]
pub struct Naming {
    pub sheets: Strings,
    pub refs: Refs,
    pub names: Names,
    pub reported: Vec<(String, String)>,
}

/// The names of the sheets that the globals list.
fn sheet_names(alloc: Global, listed: &[Listed]) -> Result<Strings, AllocError>
    ensures { IfOk result (λ names. names ≡ map (λ (q : ℕ × SheetContent). q.1.name) (map listed_of listed.now)) }
{
    let mut names = Strings::new(alloc);
    for next in listed {
        names.push(next.sheet.name.as_str())?;
    }
    Ok(names)
}

/// References of which number i has the sheet i.
#[tactic(auto, using(crate::proofs::NamingLemmas::refs_next))]
fn own_refs(alloc: Global, count: usize) -> Result<Refs, AllocError>
    requires { count ≤ 32768 }
    ensures { IfOk result (λ refs. refs ≡ own_refs count) }
{
    let mut refs = Refs::new(alloc);
    for i in 0..count {
        refs.push(i as i16)?;
    }
    Ok(refs)
}

/// The references of a workbook of so many sheets: those of its ExternSheets, or before BIFF8, where
/// there are none, one for each sheet.
fn known_refs(alloc: Global, version: Biff, count: usize, refs: Refs) -> Result<Refs, AllocError>
    ensures { IfOk result (λ known. known ≡ known_refs version count refs) }
{
    match version {
        Biff::Biff8 => Ok(refs),
        _ if refs.len() > 0 => Ok(refs),
        _ => own_refs(alloc, count.min(32_768)),
    }
}

/// A text after the name of its sheet and `!`.
#[tactic(auto, using(crate::proofs::NamingLemmas::after_mark))]
fn on_sheet(alloc: Global, sheet: &str, text: &str) -> Result<String, AllocError>
    ensures { IfOk result (λ s. text_of s ≡ chars sheet.now ++ (codes "!" ++ chars text.now)) }
{
    let mut whole = String::from_str(alloc, sheet)?;
    whole.push_str("!")?;
    whole.push_str(text)?;
    Ok(whole)
}

/// The text of a name, after its sheet where it has a reference.
fn placed_text(
    alloc: Global,
    located: (Option<usize>, String),
    sheets: &Strings,
    refs: &Refs,
) -> Result<String, AllocError>
    ensures { IfOk result (λ s. text_of s ≡ placed_text sheets.now refs.now (located_of located)) }
{
    let (reference, text) = located;
    match reference {
        None => Ok(text),
        Some(index) => on_sheet(
            alloc,
            sheet_of_reference(sheets, refs, index),
            text.as_str(),
        ),
    }
}

/// Each name with its text.
fn resolved_names(
    alloc: Global,
    lbls: Vec<Lbl>,
    sheets: &Strings,
    refs: &Refs,
) -> Result<Vec<(String, String)>, AllocError>
    ensures { IfOk result (λ reported. map name_texts reported.items ≡ map (resolved_name sheets.now refs.now) (map named_of lbls.items)) }
{
    let mut reported = Vec::new(alloc);
    for lbl in lbls {
        let (name, located) = lbl;
        let text = placed_text(alloc, located, sheets, refs)?;
        reported.push((name, text))?;
    }
    Ok(reported)
}

/// The names as formulas find them.
fn names_of(alloc: Global, reported: &[(String, String)]) -> Result<Names, AllocError>
    ensures { IfOk result (λ names. names ≡ map name_texts reported.now) }
{
    let mut names = Names::new(alloc);
    for name in reported {
        names.push(name.0.as_str(), name.1.as_str())?;
    }
    Ok(names)
}

/// What formulas may name in a workbook of these sheets, whose globals gave these references and
/// names, under this version.
pub fn naming_of(
    alloc: Global,
    version: Biff,
    listed: &[Listed],
    refs: Refs,
    lbls: Vec<Lbl>,
) -> Result<Naming, AllocError>
    ensures { IfOk result (λ n. IsNaming version (map listed_of listed.now) refs (map named_of lbls.items) n) }
{
    let sheets = sheet_names(alloc, listed)?;
    let refs = known_refs(alloc, version, listed.len(), refs)?;
    let reported = resolved_names(alloc, lbls, &sheets, &refs)?;
    let names = names_of(alloc, &reported)?;
    Ok(Naming {
        sheets,
        refs,
        names,
        reported,
    })
}
