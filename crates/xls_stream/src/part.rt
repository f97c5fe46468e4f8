//! The parts of a stream that a refusal names.

ghost use Rattle.xls_stream.specs.PartText.{part_text};

use std::fmt;

/// The part of a stream that was wanted.
#[derive(Clone, Copy, Debug, PartialEq, Eq)]
pub enum Part {
    /// The type and the length of a record.
    RecordHeader,
    /// The body of a record.
    RecordLength,
    /// The body of a Continue record that belongs to the record before it.
    ContinueLength,
    /// The place where a sheet's part begins.
    SheetOffset,
    /// The units of a string.
    Dbcs,
    Bof,
    FilePass,
    CodePage,
    DateMode,
    Xf,
    BoundSheet,
    /// The state of a sheet in its BoundSheet8 record.
    HsState,
    /// The kind of a sheet in its BoundSheet8 record.
    SheetKind,
    Lbl,
    /// The tokens of a defined name.
    NameFormula,
    ExternSheet,
    Sst,
    /// The head of a string of the string table.
    RichString,
    /// A string with an 8-bit count.
    ShortString,
    /// A string with a 16-bit count.
    Text,
    /// A string without a count.
    NoCch,
    Dimensions,
    Number,
    Label,
    BoolErr,
    /// The byte that says whether a BoolErr record holds an error.
    FError,
    /// The code of an error value.
    CellError,
    Rk,
    LabelSst,
    MergeCells,
    Formula,
    Format,
    /// The tokens of a formula.
    Rgce,
    /// A token of a formula.
    Ptg,
    PtgExp,
    PtgStr,
    /// The kind of a space attribute.
    SpaceKind,
    /// The code of an error token.
    BErr,
}

impl fmt::Display for Part {
    ghost use Rattle.std.specs.Prelude.{Some};

    ghost output = { λ p. Some (part_text p) };

    fn fmt<W: fmt::Write>(&self, f: &mut fmt::Formatter<W>) -> fmt::Result {
        f.write_str(match self {
            Part::RecordHeader => "record type and length",
            Part::RecordLength => "record length",
            Part::ContinueLength => "continue record length",
            Part::SheetOffset => "sheet offset",
            Part::Dbcs => "dbcs",
            Part::Bof => "BOF",
            Part::FilePass => "FilePass",
            Part::CodePage => "CodePage",
            Part::DateMode => "DateMode",
            Part::Xf => "xf",
            Part::BoundSheet => "BoundSheet8",
            Part::HsState => "BoundSheet8:hsState",
            Part::SheetKind => "BoundSheet8:dt",
            Part::Lbl => "Lbl",
            Part::NameFormula => "name formula",
            Part::ExternSheet => "ExternSheet",
            Part::Sst => "sst",
            Part::RichString => "rich extended string",
            Part::ShortString => "short string",
            Part::Text => "string",
            Part::NoCch => "XLUnicodeStringNoCch",
            Part::Dimensions => "dimensions",
            Part::Number => "number",
            Part::Label => "label",
            Part::BoolErr => "BoolErr",
            Part::FError => "fError",
            Part::CellError => "error",
            Part::Rk => "rk",
            Part::LabelSst => "label sst",
            Part::MergeCells => "merge cells",
            Part::Formula => "Formula",
            Part::Format => "format",
            Part::Rgce => "rgce",
            Part::Ptg => "ptg",
            Part::PtgExp => "PtgExp",
            Part::PtgStr => "PtgStr",
            Part::SpaceKind => "PtgAttrSpaceType",
            Part::BErr => "BErr",
        })
    }
}
