//! What a cell is asked for.

ghost use Rattle.std.specs.Prelude.{◌≡◌, ◌↔◌, codes, Some, None, IsTrue, if◌then◌else◌};
ghost use Rattle.std.specs.Option.{option_copied};
ghost use Rattle.std.specs.String.{string_bytes};
ghost use Rattle.xls_data.specs.Content.{Content, nothing};
ghost use Rattle.xls_data.specs.Data.{content_of};
ghost use Rattle.xls_rows.specs.Refusals.{Gives};
ghost use Rattle.xls_rows.specs.Wholes.{ReadsSigned, ReadsUnsigned};
ghost use Rattle.xls_rows.specs.Readers.{is_empty_cell, bool_in, char_in, text_read, bytes_in, unit_in, enum_name_in, data_in};

use crate::DeError;
use crate::refusals::{unexpected_kind, unexpected_text};
use crate::values::{is_zero_number, only_char, truth_named};
use crate::wholes::{IntegerType, whole_of};
use std::alloc::Global;
use xls_data::{CellType, Data, DataType};

/// A cell that is read as a value of a type. Each reader but the first two is given the position of
/// the cell's row, and answers `CellError` exactly for an error cell, `Custom` exactly for another
/// cell that is no such value, and `Memory` where memory runs out.
pub trait ReadCell: CellType {
    /// The content of the `Data` that the cell stands for.
    ghost content: { Self → Content };

    /// Whether it is empty.
    fn is_empty(&self) -> bool
        ensures { result ≡ is_empty_cell (content self.now) };

    /// The cell, unless it is empty.
    fn read_option(&self) -> Option<&Self>
        ensures { option_copied result
            ≡ (if is_empty_cell (content self.now) then None else Some self.now) };

    /// A number of the type, a number cut toward zero, or a text that is parsed as one.
    fn read_i8(&self, alloc: Global, pos: (u32, u32)) -> Result<i8, DeError>
        ensures { ReadsSigned (codes "i8") 8 (content self.now) pos result };

    /// A number of the type, a number cut toward zero, or a text that is parsed as one.
    fn read_i16(&self, alloc: Global, pos: (u32, u32)) -> Result<i16, DeError>
        ensures { ReadsSigned (codes "i16") 16 (content self.now) pos result };

    /// A number of the type, a number cut toward zero, or a text that is parsed as one.
    fn read_i32(&self, alloc: Global, pos: (u32, u32)) -> Result<i32, DeError>
        ensures { ReadsSigned (codes "i32") 32 (content self.now) pos result };

    /// A number of the type, a number cut toward zero, or a text that is parsed as one.
    fn read_i64(&self, alloc: Global, pos: (u32, u32)) -> Result<i64, DeError>
        ensures { ReadsSigned (codes "i64") 64 (content self.now) pos result };

    /// A number of the type, a number cut toward zero, or a text that is parsed as one.
    fn read_u8(&self, alloc: Global, pos: (u32, u32)) -> Result<u8, DeError>
        ensures { ReadsUnsigned (codes "u8") 8 (content self.now) pos result };

    /// A number of the type, a number cut toward zero, or a text that is parsed as one.
    fn read_u16(&self, alloc: Global, pos: (u32, u32)) -> Result<u16, DeError>
        ensures { ReadsUnsigned (codes "u16") 16 (content self.now) pos result };

    /// A number of the type, a number cut toward zero, or a text that is parsed as one.
    fn read_u32(&self, alloc: Global, pos: (u32, u32)) -> Result<u32, DeError>
        ensures { ReadsUnsigned (codes "u32") 32 (content self.now) pos result };

    /// A number of the type, a number cut toward zero, or a text that is parsed as one.
    fn read_u64(&self, alloc: Global, pos: (u32, u32)) -> Result<u64, DeError>
        ensures { ReadsUnsigned (codes "u64") 64 (content self.now) pos result };

    /// A truth value, its name as `TRUE`, `true` or `True`, whether a number or a date is not zero;
    /// false for an empty cell, true for an ISO text.
    fn read_bool(&self, alloc: Global, pos: (u32, u32)) -> Result<bool, DeError>
        ensures { Gives (λ b. b) result (bool_in pos (content self.now)) };

    /// The character of a text of one byte.
    fn read_char(&self, alloc: Global, pos: (u32, u32)) -> Result<char, DeError>
        ensures { Gives (λ c. c) result (char_in pos (content self.now)) };

    /// The printed text.
    fn read_text(&self, alloc: Global, pos: (u32, u32)) -> Result<String, DeError>
        ensures { Gives string_bytes result (text_read pos (content self.now)) };

    /// The bytes of a text; none for an empty cell.
    fn read_bytes(&self, alloc: Global, pos: (u32, u32)) -> Result<Vec<u8>, DeError>
        ensures { Gives (λ v. v.items) result (bytes_in pos (content self.now)) };

    /// Nothing, of an empty cell.
    fn read_unit(&self, alloc: Global, pos: (u32, u32)) -> Result<(), DeError>
        ensures { Gives (λ u. u) result (unit_in pos (content self.now)) };

    /// A text, as the name of a variant.
    fn read_enum_name(&self, alloc: Global, pos: (u32, u32)) -> Result<String, DeError>
        ensures { Gives string_bytes result (enum_name_in pos (content self.now)) };

    /// A copy. A date becomes its number, an ISO text a text.
    fn read_data(&self, alloc: Global, pos: (u32, u32)) -> Result<Data, DeError>
        ensures { Gives content_of result (data_in pos (content self.now)) };
}

impl ReadCell for Data {
    ghost content = { content_of };

    fn is_empty(&self) -> bool {
        matches!(self, Data::Empty)
    }

    fn read_option(&self) -> Option<&Data> {
        match self {
            Data::Empty => None,
            _ => Some(self),
        }
    }

    fn read_i8(&self, alloc: Global, pos: (u32, u32)) -> Result<i8, DeError> {
        match whole_of(alloc, IntegerType::I8, self, pos) {
            Ok(n) => Ok(n as i8),
            Err(e) => Err(e),
        }
    }

    fn read_i16(&self, alloc: Global, pos: (u32, u32)) -> Result<i16, DeError> {
        match whole_of(alloc, IntegerType::I16, self, pos) {
            Ok(n) => Ok(n as i16),
            Err(e) => Err(e),
        }
    }

    fn read_i32(&self, alloc: Global, pos: (u32, u32)) -> Result<i32, DeError> {
        match whole_of(alloc, IntegerType::I32, self, pos) {
            Ok(n) => Ok(n as i32),
            Err(e) => Err(e),
        }
    }

    fn read_i64(&self, alloc: Global, pos: (u32, u32)) -> Result<i64, DeError> {
        match whole_of(alloc, IntegerType::I64, self, pos) {
            Ok(n) => Ok(n as i64),
            Err(e) => Err(e),
        }
    }

    fn read_u8(&self, alloc: Global, pos: (u32, u32)) -> Result<u8, DeError> {
        match whole_of(alloc, IntegerType::U8, self, pos) {
            Ok(n) => Ok(n as u8),
            Err(e) => Err(e),
        }
    }

    fn read_u16(&self, alloc: Global, pos: (u32, u32)) -> Result<u16, DeError> {
        match whole_of(alloc, IntegerType::U16, self, pos) {
            Ok(n) => Ok(n as u16),
            Err(e) => Err(e),
        }
    }

    fn read_u32(&self, alloc: Global, pos: (u32, u32)) -> Result<u32, DeError> {
        match whole_of(alloc, IntegerType::U32, self, pos) {
            Ok(n) => Ok(n as u32),
            Err(e) => Err(e),
        }
    }

    fn read_u64(&self, alloc: Global, pos: (u32, u32)) -> Result<u64, DeError> {
        match whole_of(alloc, IntegerType::U64, self, pos) {
            Ok(n) => Ok(n as u64),
            Err(e) => Err(e),
        }
    }

    #[tactic(auto, using(crate::proofs::TextLemmas::text_bytes))]
    fn read_bool(&self, alloc: Global, pos: (u32, u32)) -> Result<bool, DeError> {
        match self {
            Data::Bool(b) => Ok(*b),
            Data::Empty => Ok(false),
            Data::Int(n) => Ok(n.unsigned_abs() != 0),
            Data::Float(x) => Ok(!is_zero_number(*x)),
            Data::DateTime(d) => Ok(!is_zero_number(d.number())),
            Data::DateTimeIso(_) => Ok(true),
            Data::DurationIso(_) => Ok(true),
            Data::String(s) => match truth_named(s.as_str()) {
                Some(b) => Ok(b),
                None => Err(unexpected_text(alloc, "bool", s.as_str())),
            },
            Data::Error(e) => Err(DeError::CellError { err: *e, pos }),
        }
    }

    #[tactic(auto, using(crate::proofs::TextLemmas::text_bytes))]
    fn read_char(&self, alloc: Global, pos: (u32, u32)) -> Result<char, DeError> {
        match self {
            Data::String(s) => match only_char(s.as_str()) {
                Some(c) => Ok(c),
                None => Err(unexpected_kind(alloc, "char", self, pos)),
            },
            _ => Err(unexpected_kind(alloc, "char", self, pos)),
        }
    }

    #[tactic(auto, using(crate::proofs::TextLemmas::text_in_printed, crate::proofs::TextLemmas::text_in_failure, crate::proofs::TextLemmas::printed_is))]
    fn read_text(&self, alloc: Global, pos: (u32, u32)) -> Result<String, DeError> {
        if let Some(e) = self.get_error() {
            return Err(DeError::CellError { err: *e, pos });
        }
        match self.to_string(alloc) {
            Ok(text) => Ok(text),
            Err(_) => Err(DeError::Memory),
        }
    }

    #[tactic(auto, using(crate::proofs::TextLemmas::text_bytes))]
    fn read_bytes(&self, alloc: Global, pos: (u32, u32)) -> Result<Vec<u8>, DeError> {
        match self {
            Data::String(s) => match String::from_str(alloc, s.as_str()) {
                Ok(text) => Ok(text.into_bytes()),
                Err(_) => Err(DeError::Memory),
            },
            Data::Empty => Ok(Vec::new(alloc)),
            _ => Err(unexpected_kind(alloc, "bytes", self, pos)),
        }
    }

    fn read_unit(&self, alloc: Global, pos: (u32, u32)) -> Result<(), DeError> {
        match self {
            Data::Empty => Ok(()),
            _ => Err(unexpected_kind(alloc, "unit", self, pos)),
        }
    }

    #[tactic(auto, using(crate::proofs::TextLemmas::text_bytes))]
    fn read_enum_name(&self, alloc: Global, pos: (u32, u32)) -> Result<String, DeError> {
        match self {
            Data::String(s) => match String::from_str(alloc, s.as_str()) {
                Ok(name) => Ok(name),
                Err(_) => Err(DeError::Memory),
            },
            _ => Err(unexpected_kind(alloc, "enum", self, pos)),
        }
    }

    fn read_data(&self, alloc: Global, pos: (u32, u32)) -> Result<Data, DeError> {
        let copy = match self {
            Data::Int(n) => Ok(Data::Int(*n)),
            Data::Float(x) => Ok(Data::Float(*x)),
            Data::String(s) => Data::from_text(alloc, s.as_str()),
            Data::Bool(b) => Ok(Data::Bool(*b)),
            Data::DateTime(d) => Ok(Data::Float(d.number())),
            Data::DateTimeIso(s) => Data::from_text(alloc, s.as_str()),
            Data::DurationIso(s) => Data::from_text(alloc, s.as_str()),
            Data::Error(e) => return Err(DeError::CellError { err: *e, pos }),
            Data::Empty => Ok(Data::Empty),
        };
        match copy {
            Ok(copy) => Ok(copy),
            Err(_) => Err(DeError::Memory),
        }
    }
}
