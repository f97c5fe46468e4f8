//! Tests of what formulas call sheets, other workbooks and names.
#![tactic(auto)]

#[cfg(test)]
mod calls;
