//! Values of cells out of what may be missing; nothing gives the blank.

use crate::{CellErrorType, Data, Number};

impl From<Option<i64>> for Data {
    ghost use Rattle.std.specs.Prelude.{◌≡◌, MatchOption};
    ghost use Rattle.xls_data.specs.declared.values.Data.TheVariants.{Int, Empty};

    ghost from_gives = { λ o d. MatchOption o (d ≡ Empty) (λ v. d ≡ Int v) };

    fn from(value: Option<i64>) -> Data {
        match value {
            Some(v) => Data::Int(v),
            None => Data::Empty,
        }
    }
}

impl From<Option<bool>> for Data {
    ghost use Rattle.std.specs.Prelude.{◌≡◌, MatchOption};
    ghost use Rattle.xls_data.specs.declared.values.Data.TheVariants.{Bool, Empty};

    ghost from_gives = { λ o d. MatchOption o (d ≡ Empty) (λ v. d ≡ Bool v) };

    fn from(value: Option<bool>) -> Data {
        match value {
            Some(v) => Data::Bool(v),
            None => Data::Empty,
        }
    }
}

impl From<Option<String>> for Data {
    ghost use Rattle.std.specs.Prelude.{◌≡◌, MatchOption};
    ghost use Rattle.xls_data.specs.declared.values.Data.TheVariants.{String, Empty};

    ghost from_gives = { λ o d. MatchOption o (d ≡ Empty) (λ v. d ≡ String v) };

    fn from(value: Option<String>) -> Data {
        match value {
            Some(v) => Data::String(v),
            None => Data::Empty,
        }
    }
}

impl From<Option<Number>> for Data {
    ghost use Rattle.std.specs.Prelude.{◌≡◌, MatchOption};
    ghost use Rattle.xls_data.specs.declared.values.Data.TheVariants.{Float, Empty};

    ghost from_gives = { λ o d. MatchOption o (d ≡ Empty) (λ v. d ≡ Float v) };

    fn from(value: Option<Number>) -> Data {
        match value {
            Some(v) => Data::Float(v),
            None => Data::Empty,
        }
    }
}

impl From<Option<CellErrorType>> for Data {
    ghost use Rattle.std.specs.Prelude.{◌≡◌, MatchOption};
    ghost use Rattle.xls_data.specs.declared.values.Data.TheVariants.{Error, Empty};

    ghost from_gives = { λ o d. MatchOption o (d ≡ Empty) (λ v. d ≡ Error v) };

    fn from(value: Option<CellErrorType>) -> Data {
        match value {
            Some(v) => Data::Error(v),
            None => Data::Empty,
        }
    }
}

impl From<Option<()>> for Data {
    ghost use Rattle.std.specs.Prelude.{◌≡◌};
    ghost use Rattle.xls_data.specs.declared.values.Data.TheVariants.{Empty};

    ghost from_gives = { λ _ d. d ≡ Empty };

    fn from(_value: Option<()>) -> Data {
        Data::Empty
    }
}
