//! Values of cells out of texts, numbers and borrowed values.

ghost use Rattle.std.specs.Prelude.{◌≡◌, IfOk};
ghost use Rattle.std.specs.Str.{chars};
ghost use Rattle.xls_data.specs.Content as content;
ghost use Rattle.xls_data.specs.Data.{content_of};
ghost use Rattle.xls_data.specs.Refs.{ref_content_of};

use crate::{CellErrorType, Data, DataRef, Number};
use std::alloc::{AllocError, Global};

impl Data {
    /// The value of a text.
    pub fn from_text(alloc: Global, text: &str) -> Result<Data, AllocError>
        ensures { IfOk result (λ d. content_of d ≡ content.text (chars text.now)) }
    {
        Ok(Data::String(String::from_str(alloc, text)?))
    }

    /// The value with the content of a borrowed one: a shared text becomes a text of its own.
    pub fn from_ref(alloc: Global, value: DataRef<'_>) -> Result<Data, AllocError>
        ensures { IfOk result (λ d. content_of d ≡ ref_content_of value.entry) }
    {
        match value {
            DataRef::Int(n) => Ok(Data::Int(n)),
            DataRef::Float(n) => Ok(Data::Float(n)),
            DataRef::String(s) => Ok(Data::String(s)),
            DataRef::SharedString(s) => Ok(Data::String(String::from_str(alloc, s)?)),
            DataRef::Bool(b) => Ok(Data::Bool(b)),
            DataRef::DateTime(d) => Ok(Data::DateTime(d)),
            DataRef::DateTimeIso(s) => Ok(Data::DateTimeIso(s)),
            DataRef::DurationIso(s) => Ok(Data::DurationIso(s)),
            DataRef::Error(e) => Ok(Data::Error(e)),
            DataRef::Empty => Ok(Data::Empty),
        }
    }
}

impl From<i64> for Data {
    ghost use Rattle.std.specs.Prelude.{◌≡◌};
    ghost use Rattle.xls_data.specs.declared.values.Data.TheVariants.{Int};

    ghost from_gives = { λ n d. d ≡ Int n };

    fn from(value: i64) -> Data {
        Data::Int(value)
    }
}

impl From<bool> for Data {
    ghost use Rattle.std.specs.Prelude.{◌≡◌};
    ghost use Rattle.xls_data.specs.declared.values.Data.TheVariants.{Bool};

    ghost from_gives = { λ b d. d ≡ Bool b };

    fn from(value: bool) -> Data {
        Data::Bool(value)
    }
}

impl From<String> for Data {
    ghost use Rattle.std.specs.Prelude.{◌≡◌};
    ghost use Rattle.xls_data.specs.declared.values.Data.TheVariants.{String};

    ghost from_gives = { λ s d. d ≡ String s };

    fn from(value: String) -> Data {
        Data::String(value)
    }
}

impl From<Number> for Data {
    ghost use Rattle.std.specs.Prelude.{◌≡◌};
    ghost use Rattle.xls_data.specs.declared.values.Data.TheVariants.{Float};

    ghost from_gives = { λ n d. d ≡ Float n };

    fn from(value: Number) -> Data {
        Data::Float(value)
    }
}

impl From<CellErrorType> for Data {
    ghost use Rattle.std.specs.Prelude.{◌≡◌};
    ghost use Rattle.xls_data.specs.declared.values.Data.TheVariants.{Error};

    ghost from_gives = { λ e d. d ≡ Error e };

    fn from(value: CellErrorType) -> Data {
        Data::Error(value)
    }
}

impl From<()> for Data {
    ghost use Rattle.std.specs.Prelude.{◌≡◌};
    ghost use Rattle.xls_data.specs.declared.values.Data.TheVariants.{Empty};

    ghost from_gives = { λ _ d. d ≡ Empty };

    fn from(_value: ()) -> Data {
        Data::Empty
    }
}
