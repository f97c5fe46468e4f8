//! Tests of the tokens of formulas as Excel shows them, and of the leaves in their texts.
#![tactic(auto)]

#[cfg(test)]
mod leaves;
#[cfg(test)]
mod tokens;
