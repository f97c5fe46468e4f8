//! A law, on a function with an empty body.

ghost use Rattle.xls_shared_formulas.specs.Laws.{TokensFind};

/// A token finds a formula exactly where that is the last of the token's cell, and its range holds the cell that has the token.
pub fn tokens_find()
    ensures { TokensFind }
{}
