//! Laws over the definitions, each the contract of a call that does nothing.

ghost use Rattle.xls_formula_laws.specs.Laws.{SharedAreAlike, TextsAgree, TokensAgree};

/// A token that is shared is one token in the exact reading and as Excel shows it, of one size, or refused by one fault.
pub fn tokens_agree()
    ensures { TokensAgree }
{}

/// Tokens that are shared, and alike by the exact reading, are alike in both: a test of the bytes and of that reading alone.
pub fn shared_are_alike()
    ensures { SharedAreAlike }
{}

/// A formula without the tokens that differ has one text in the exact reading and as Excel shows it, or one first
/// fault.
pub fn texts_agree()
    ensures { TextsAgree }
{}
