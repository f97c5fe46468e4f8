//! Laws over the definitions, each the contract of a call that does nothing.

ghost use Rattle.std.specs.Prelude.{ℕ, List};
ghost use Rattle.xls_number_formats.specs.Laws.{SpellsCode};

/// The characters of a section's items, one item after the other, and then the `;` behind the section
/// and what follows it, are the code.
pub fn items_spell_the_code()
    ensures { (cs : List ℕ) → SpellsCode cs }
{}
