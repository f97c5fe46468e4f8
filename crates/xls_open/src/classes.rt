//! The classes of the XF records.

ghost use Rattle.std.specs.Prelude.{◌≡◌, ◌==◌, ◌++◌, ◌∷◌, [], ℕ, List, Some, cond, unwrap_or, IfOk, OnOk, map};
ghost use Rattle.std.specs.Ordering.{nat_cmp};
ghost use Rattle.std.specs.BTreeMap.{get};
ghost use Rattle.xls_dates.specs.Builtin.{class_of_code};
ghost use Rattle.xls_dates.specs.declared.formats.CellFormat.{CellFormat};
ghost use Rattle.xls_meaning.specs.Settings.{last_class, class_in, classed};
ghost use Rattle.xls_open.specs.Workbook.{code_texts};

use std::alloc::{AllocError, Global};
use std::collections::BTreeMap;
use xls_biff::is_format_id;
use xls_data::{CellFormat, builtin_format_by_code, detect_custom_number_format};

/// Gives a class to an identifier.
fn put(
    classes: &mut BTreeMap<u16, CellFormat>,
    identifier: u16,
    class: CellFormat,
) -> Result<(), AllocError>
    ensures { OnOk result ((q : ℕ) → get nat_cmp classes.new q
        ≡ cond (identifier == q) (Some class) (get nat_cmp classes.old q)) }
{
    classes.insert(identifier, class)?;
    Ok(())
}

/// Gives the class of a format's code to its identifier, if a class hangs on that.
fn put_code(
    classes: &mut BTreeMap<u16, CellFormat>,
    format: &(u16, String),
) -> Result<(), AllocError>
    ensures { OnOk result ((fs : List (ℕ × CellFormat)) → ((q : ℕ) → get nat_cmp classes.old q ≡ last_class fs q)
        → (q : ℕ) → get nat_cmp classes.new q ≡ last_class (fs ++ classed (code_texts format.now ∷ [])) q) }
{
    if !is_format_id(format.0) {
        return Ok(());
    }
    let class = detect_custom_number_format(format.1.as_str());
    put(classes, format.0, class)?;
    Ok(())
}

/// The class of the last format of each identifier that a class hangs on.
fn last_classes(
    alloc: Global,
    codes: &[(u16, String)],
) -> Result<BTreeMap<u16, CellFormat>, AllocError>
    ensures { IfOk result (λ m. (ifmt : ℕ) → get nat_cmp m ifmt ≡ last_class (classed (map code_texts codes.now)) ifmt) }
{
    let mut classes = BTreeMap::new(alloc);
    for format in codes {
        put_code(&mut classes, format)?;
    }
    Ok(classes)
}

/// The class of an identifier: that of its last format, or else the built-in one.
fn class_of(last: &BTreeMap<u16, CellFormat>, identifier: u16) -> CellFormat
    ensures { result ≡ unwrap_or (get nat_cmp last.now identifier) (class_of_code identifier) }
{
    match last.get(&identifier) {
        Some(class) => *class,
        None => builtin_format_by_code(identifier),
    }
}

/// The class of each identifier: that of its last format, by the codes of the formats, or else the built-in
/// one.
pub fn classes_of(
    alloc: Global,
    codes: &[(u16, String)],
    identifiers: &[u16],
) -> Result<Vec<CellFormat>, AllocError>
    ensures { IfOk result (λ v. v.items ≡ map (class_in (classed (map code_texts codes.now))) identifiers.now) }
{
    let last = last_classes(alloc, codes)?;
    let mut classes = Vec::new(alloc);
    for identifier in identifiers {
        classes.push(class_of(&last, *identifier))?;
    }
    Ok(classes)
}
