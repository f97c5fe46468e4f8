//! The parts of a stream by their numbers.

ghost use Rattle.std.specs.Prelude.{◌≡◌, slice_get};
ghost use Rattle.xls_arrays.specs.Parts.{part_number, part_numbered};

use xls_record::Part;

/// The parts in the order of their numbers, from 1.
const PARTS: [Part; 38] = [
    Part::RecordHeader,
    Part::RecordLength,
    Part::ContinueLength,
    Part::SheetOffset,
    Part::Dbcs,
    Part::Bof,
    Part::FilePass,
    Part::CodePage,
    Part::DateMode,
    Part::Xf,
    Part::BoundSheet,
    Part::HsState,
    Part::SheetKind,
    Part::Lbl,
    Part::NameFormula,
    Part::ExternSheet,
    Part::Sst,
    Part::RichString,
    Part::ShortString,
    Part::Text,
    Part::NoCch,
    Part::Dimensions,
    Part::Number,
    Part::Label,
    Part::BoolErr,
    Part::FError,
    Part::CellError,
    Part::Rk,
    Part::LabelSst,
    Part::MergeCells,
    Part::Formula,
    Part::Format,
    Part::Rgce,
    Part::Ptg,
    Part::PtgExp,
    Part::PtgStr,
    Part::SpaceKind,
    Part::BErr,
];

/// The number of a part, from 1.
pub(crate) fn part_number(part: Part) -> u32
    ensures { result ≡ part_number part }
{
    match part {
        Part::RecordHeader => 1,
        Part::RecordLength => 2,
        Part::ContinueLength => 3,
        Part::SheetOffset => 4,
        Part::Dbcs => 5,
        Part::Bof => 6,
        Part::FilePass => 7,
        Part::CodePage => 8,
        Part::DateMode => 9,
        Part::Xf => 10,
        Part::BoundSheet => 11,
        Part::HsState => 12,
        Part::SheetKind => 13,
        Part::Lbl => 14,
        Part::NameFormula => 15,
        Part::ExternSheet => 16,
        Part::Sst => 17,
        Part::RichString => 18,
        Part::ShortString => 19,
        Part::Text => 20,
        Part::NoCch => 21,
        Part::Dimensions => 22,
        Part::Number => 23,
        Part::Label => 24,
        Part::BoolErr => 25,
        Part::FError => 26,
        Part::CellError => 27,
        Part::Rk => 28,
        Part::LabelSst => 29,
        Part::MergeCells => 30,
        Part::Formula => 31,
        Part::Format => 32,
        Part::Rgce => 33,
        Part::Ptg => 34,
        Part::PtgExp => 35,
        Part::PtgStr => 36,
        Part::SpaceKind => 37,
        Part::BErr => 38,
    }
}

/// The part at a place of a list.
fn part_at(parts: &[Part], place: usize) -> Option<Part>
    ensures { result ≡ slice_get parts.now place }
{
    parts.get(place).copied()
}

/// The part of a number, if there is one.
pub(crate) fn part_of(number: u32) -> Option<Part>
    ensures { result ≡ part_numbered number }
{
    if number == 0 {
        return None;
    }
    part_at(&PARTS, number as usize - 1)
}
