//! Operators, truth values, error values and numbers.

ghost use Rattle.std.specs.Prelude.{◌≡◌, ◌++◌, OnOk, OnErr};
ghost use Rattle.std.specs.Fmt.{decimal};
ghost use Rattle.std.specs.Str.{chars};
ghost use Rattle.std.specs.String.{string_bytes};
ghost use Rattle.xls_rounding.specs.FormulaNumbers.{formula_number};
ghost use Rattle.xls_bytes.specs.Growth.{IsGrown};
ghost use Rattle.xls_strings.specs.Texts.{text_of};
ghost use Rattle.xls_formula.specs.Words.{bool_word, err_text};
ghost use Rattle.xls_formula_leaves.specs.Operators.{sign_of};

use crate::appends::append_decimal;
use std::alloc::AllocError;
use xls_data::CellErrorType;
use xls_ptg::Operator;
use xls_rounding::push_formula_number;

/// The sign of a binary operator: `>=` of PtgGe, `>` of PtgGt.
#[tactic(auto, unfolding(std::specs::Prelude::chars))]
pub fn operator_text(operator: Operator) -> &'static str
    ensures { chars result.now ≡ sign_of operator }
{
    match operator {
        Operator::Add => "+",
        Operator::Sub => "-",
        Operator::Mul => "*",
        Operator::Div => "/",
        Operator::Power => "^",
        Operator::Concat => "&",
        Operator::Lt => "<",
        Operator::Le => "<=",
        Operator::Eq => "=",
        Operator::Ge => ">=",
        Operator::Gt => ">",
        Operator::Ne => "<>",
        Operator::Isect => " ",
        Operator::Union => ",",
        Operator::Range => ":",
    }
}

/// A truth value.
#[tactic(auto, unfolding(std::specs::Prelude::chars))]
pub fn bool_text(truth: bool) -> &'static str
    ensures { chars result.now ≡ bool_word truth }
{
    if truth { "TRUE" } else { "FALSE" }
}

/// An error value, [MS-XLS] BErr.
#[tactic(auto, unfolding(std::specs::Prelude::chars))]
pub fn error_text(error: CellErrorType) -> &'static str
    ensures { chars result.now ≡ err_text error }
{
    match error {
        CellErrorType::Null => "#NULL!",
        CellErrorType::Div0 => "#DIV/0!",
        CellErrorType::Value => "#VALUE!",
        CellErrorType::Ref => "#REF!",
        CellErrorType::Name => "#NAME?",
        CellErrorType::Num => "#NUM!",
        CellErrorType::NA => "#N/A",
        CellErrorType::GettingData => "#GETTING_DATA",
    }
}

/// Appends a whole number (PtgInt). Only running out of memory refuses, and then `out` is as it was.
pub fn push_int(n: u16, out: &mut String) -> Result<(), AllocError>
    ensures ok { OnOk result (text_of out.new ≡ text_of out.old ++ decimal n) }
    ensures err { OnErr result (string_bytes out.new ≡ string_bytes out.old) }
{
    let before = out.len();
    let done = append_decimal(u32::from(n), out);
    if done.is_err() {
        out.truncate(before);
    }
    done
}

/// Appends a double by its bits (PtgNum), as Excel shows a number in a formula: with at most 15 significant digits. Only
/// running out of memory refuses, and then `out` is as it was.
pub fn push_number(bits: u64, out: &mut String) -> Result<(), AllocError>
    ensures ok { OnOk result (text_of out.new ≡ text_of out.old ++ formula_number bits) }
    ensures err { OnErr result (string_bytes out.new ≡ string_bytes out.old) }
{
    push_formula_number(bits, out)
}

/// Appends a double. What the error leaves of it is nothing.
pub(crate) fn append_number(bits: u64, out: &mut String) -> Result<(), AllocError>
    ensures ok { OnOk result (text_of out.new ≡ text_of out.old ++ formula_number bits) }
    ensures grown { IsGrown (string_bytes out.old) (string_bytes out.new) }
{
    push_formula_number(bits, out)
}
