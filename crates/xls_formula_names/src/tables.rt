//! Names by numbers.

ghost use Rattle.std.specs.Prelude.{◌≡◌, map};
ghost use Rattle.xls_formula_names.specs.Tables.{lent_text, row_of, name_in, built_in_names, built_in_name};

// The built-in names, by the character that stands for each.
static BUILT_IN: [(u32, &str); 14] = [
    (0x00, "Consolidate_Area"),
    (0x01, "Auto_Open"),
    (0x02, "Auto_Close"),
    (0x03, "Extract"),
    (0x04, "Database"),
    (0x05, "Criteria"),
    (0x06, "Print_Area"),
    (0x07, "Print_Titles"),
    (0x08, "Recorder"),
    (0x09, "Data_Form"),
    (0x0A, "Auto_Activate"),
    (0x0B, "Auto_Deactivate"),
    (0x0C, "Sheet_Title"),
    (0x0D, "_FilterDatabase"),
];

// The name that a table has for a number.
pub(crate) fn name_in(table: &[(u32, &'static str)], number: u32) -> Option<&'static str>
    ensures { lent_text result ≡ name_in (map row_of table.now) number }
{
    'rows: for (found, name) in table {
        if *found == number {
            return Some(*name);
        }
    }
    None
}

/// The text of a built-in name ([MS-XLS] 2.4.150 Lbl, fBuiltin) by the first character of the name, `None` for a character that stands for
/// none. Takes no memory.
pub fn built_in_name(first: char) -> Option<&'static str>
    ensures exact { lent_text result ≡ built_in_name first }
{
    name_in(&BUILT_IN, first as u32)
}
