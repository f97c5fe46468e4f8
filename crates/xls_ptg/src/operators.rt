//! The binary operators.

ghost use Rattle.std.specs.Prelude.{◌≡◌};
ghost use Rattle.xls_ptg.specs.Operators.{operator_of};

/// A binary operator by its name in [MS-XLS] 2.5.198, without the `Ptg` before it.
#[derive(Clone, Copy, Debug, PartialEq, Eq)]
pub enum Operator {
    /// 03.
    Add,
    /// 04.
    Sub,
    /// 05.
    Mul,
    /// 06.
    Div,
    /// 07.
    Power,
    /// 08.
    Concat,
    /// 09.
    Lt,
    /// 0A.
    Le,
    /// 0B.
    Eq,
    /// 0C.
    Ge,
    /// 0D.
    Gt,
    /// 0E.
    Ne,
    /// 0F: the intersection of two areas.
    Isect,
    /// 10.
    Union,
    /// 11.
    Range,
}

/// The operator of a token from 03 to 11.
pub(crate) fn operator_of(ptg: u8) -> Operator
    ensures { result ≡ operator_of ptg }
{
    match ptg {
        0x03 => Operator::Add,
        0x04 => Operator::Sub,
        0x05 => Operator::Mul,
        0x06 => Operator::Div,
        0x07 => Operator::Power,
        0x08 => Operator::Concat,
        0x09 => Operator::Lt,
        0x0A => Operator::Le,
        0x0B => Operator::Eq,
        0x0C => Operator::Ge,
        0x0D => Operator::Gt,
        0x0E => Operator::Ne,
        0x0F => Operator::Isect,
        0x10 => Operator::Union,
        _ => Operator::Range,
    }
}
