//! Laws over layouts, each on a function with an empty body.

ghost use Rattle.xls_layouts.specs.Laws.{CanonicalLayout, LaidAlone, LaidCount, LaidFits, LaidStream, LaidStrings, LaidTexts, SameElements, SameTables};

/// What is read as the next string of a table is an element of its grammar, and each element is read so.
pub fn same_elements()
    ensures { SameElements }
{}

/// So both tell the same tables.
pub fn same_tables()
    ensures { SameTables }
{}

/// Laid strings are a table of their unit lists.
pub fn laid_strings()
    ensures { LaidStrings }
{}

/// What `parse_sst` answers over a laid table is the texts of its strings, unless memory runs out.
pub fn laid_texts()
    ensures { LaidTexts }
{}

/// What `skip_sst` answers over a laid table is the number of its strings.
pub fn laid_count()
    ensures { LaidCount }
{}

/// The bytes of a valid layout carry its list.
pub fn laid_stream()
    ensures { LaidStream }
{}

/// And no other.
pub fn laid_alone()
    ensures { LaidAlone }
{}

/// A list that has a valid layout fits.
pub fn laid_fits()
    ensures { LaidFits }
{}

/// The canonical layout of a list that fits is a valid layout of that list.
pub fn canonical_layout()
    ensures { CanonicalLayout }
{}
